// Ancillary packets: a container's bytes in words of ten bits (01, The packet; 001, 5.1; ST 291-1, type 2).
#![tactic(auto)]

ghost use Rattle.std.specs.Prelude.{◌≡◌, length};
ghost use Rattle.laws.specs.Refusals.{done_of};
ghost use Rattle.packet.specs.Writing.{write_done, write_out};
ghost use Rattle.packet.specs.Reading.{read_done, read_out};

use laws::Refusal;

mod read;
mod words;
mod write;

// Write packet: 20 to 28, 12.
pub fn write_packet(container: &[u8], out: &mut [u8]) -> Result<usize, Refusal>
    ensures { (done_of result ≡ write_done container.now (length out.old)) × (out.new ≡ write_out container.now out.old) }
{
    container::check_container(container)?;
    let size = 2 * container.len() + 14;
    if out.len() < size {
        return Err(Refusal::NoRoom);
    }
    write::put_packet(container, out);
    Ok(size)
}

// Read packet: 30 to 36, 20 to 28, 12.
pub fn read_packet(words: &[u8], out: &mut [u8]) -> Result<usize, Refusal>
    ensures { (done_of result ≡ read_done words.now (length out.old)) × (out.new ≡ read_out words.now out.old) }
{
    read::check_frame(words)?;
    let n = read::count_of(words);
    let mut bytes = [0u8; 255];
    read::low_bytes(&words[12..12 + 2 * n], &mut bytes);
    container::check_container(&bytes[..n])?;
    if out.len() < n {
        return Err(Refusal::NoRoom);
    }
    laws::copy_at(&bytes[..n], out, 0);
    Ok(n)
}
