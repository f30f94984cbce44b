// The packet of a container, written word by word.
ghost use Rattle.std.specs.Prelude.{◌≡◌, ◌∷◌, [], map, ◌+◌, ◌*◌, ◌≤◌, length};
ghost use Rattle.std.proofs.lemmas.List.Edits.{sets};
ghost use Rattle.laws.specs.Calls.{over};
ghost use Rattle.packet.specs.Words.{word_of, bytes_of};
ghost use Rattle.packet.specs.Writing.{head_words, packet_bytes};

use crate::words::{check_of, word_of};

fn put_word(w: u16, out: &mut [u8], at: usize)
    ensures { out.new ≡ sets out.old at (bytes_of (w ∷ [])) }
{
    laws::copy_at(&w.to_le_bytes(), out, at);
}

// The words before the user words, of which there are n.
fn put_head(n: u8, out: &mut [u8])
    ensures { out.new ≡ sets out.old 0 (bytes_of (head_words n)) }
{
    put_word(0x000, out, 0);
    put_word(0x3ff, out, 2);
    put_word(0x3ff, out, 4);
    put_word(0x241, out, 6);
    put_word(0x10b, out, 8);
    put_word(word_of(n), out, 10);
}

// The user words, one for each byte, from place 12 on.
fn put_users(container: &[u8], out: &mut [u8])
    requires { length container.now ≤ 255 }
    ensures { out.new ≡ sets out.old 12 (bytes_of (map word_of container.now)) }
{
    for (i, &byte) in container.iter().enumerate() {
        put_word(word_of(byte), out, 12 + 2 * i);
    }
}

// The whole packet; the checksum covers the fourth word to the last user word.
pub(crate) fn put_packet(container: &[u8], out: &mut [u8])
    requires { (length container.now ≤ 255) × (2 * length container.now + 14 ≤ length out.old) }
    ensures { out.new ≡ over (packet_bytes container.now) out.old }
{
    let n = container.len();
    put_head(n as u8, out);
    put_users(container, out);
    let end = 12 + 2 * n;
    let check = check_of(&out[6..end]);
    put_word(check, out, end);
}
