// The bytes of contents that are readable, written one part after the other.
ghost use Rattle.std.specs.Prelude.{◌≡◌, ◌+◌, ◌≤◌, length};
ghost use Rattle.std.proofs.lemmas.List.Edits.{sets};
ghost use Rattle.container.specs.Bytes.{id_bytes, video_bytes, print_bytes, run_bytes, audio_bytes, part_bytes, video_flag, audio_flag, flag_byte};
ghost use Rattle.container.specs.Bytes as bytes;
ghost use Rattle.container.specs.Writing.{PrintFits, RunFits, Fits};

use crate::{Contents, Print};
use laws::Video;

#[tactic(auto, unfolding(crate::specs::Bytes::id_bytes))]
fn write_id(present: bool, id: [u8; 20], out: &mut [u8], at: usize) -> usize
    requires { at ≤ 256 }
    ensures { (result ≡ at + length (id_bytes present id)) × (out.new ≡ sets out.old at (id_bytes present id)) }
{
    if !present {
        return at;
    }
    laws::copy_at(&[0u8], out, at);
    laws::copy_at(&id, out, at + 1);
    at + 21
}

#[tactic(auto, unfolding(crate::specs::Bytes::video_bytes))]
fn write_video(v: Video, out: &mut [u8], at: usize) -> usize
    requires { at ≤ 512 }
    ensures { (result ≡ at + length (video_bytes v)) × (out.new ≡ sets out.old at (video_bytes v)) }
{
    match v {
        Video::Absent => at,
        Video::One(a) => {
            laws::copy_at(&[0x09, a], out, at);
            at + 2
        }
        Video::Two(a, b) => {
            laws::copy_at(&[0x11, a, b], out, at);
            at + 3
        }
    }
}

#[tactic(auto, unfolding(crate::specs::Bytes::print_bytes))]
fn write_print(p: Print, out: &mut [u8], at: usize) -> usize
    requires fits { PrintFits p }
    requires within { at ≤ 1024 }
    ensures { (result ≡ at + length (print_bytes p)) × (out.new ≡ sets out.old at (print_bytes p)) }
{
    let size = usize::from(p.size);
    laws::copy_at(&[p.id * 8 + p.mix, p.size * 8], out, at);
    laws::copy_at(&p.bytes[..size], out, at + 2);
    at + 2 + size
}

fn write_run(prints: &[Print], out: &mut [u8], at: usize) -> usize
    requires fits { RunFits (length prints.now) prints.now }
    requires within { at ≤ 640 }
    ensures { (result ≡ at + length (run_bytes prints.now)) × (out.new ≡ sets out.old at (run_bytes prints.now)) }
{
    let mut next = at;
    for &print in prints {
        next = write_print(print, out, next);
    }
    next
}

fn write_audio(prints: &[Print], out: &mut [u8], at: usize) -> usize
    requires fits { RunFits (length prints.now) prints.now }
    requires within { at ≤ 512 }
    ensures { (result ≡ at + length (audio_bytes (length prints.now) prints.now)) × (out.new ≡ sets out.old at (audio_bytes (length prints.now) prints.now)) }
{
    if prints.is_empty() {
        return at;
    }
    laws::copy_at(&[((prints.len() - 1) * 8 + 2) as u8], out, at);
    write_run(prints, out, at + 1)
}

// Every part in its order.
fn write_parts(c: Contents, out: &mut [u8], at: usize) -> usize
    requires fits { Fits c }
    requires within { at ≤ 256 }
    ensures { (result ≡ at + length (part_bytes c)) × (out.new ≡ sets out.old at (part_bytes c)) }
{
    let p = write_id(c.hasid, c.id, out, at);
    let q = write_video(c.video, out, p);
    write_audio(&c.prints[..usize::from(c.count)], out, q)
}

fn video_flag(v: Video) -> u8
    ensures { (result ≡ video_flag v) × (result ≤ 1) }
{
    match v {
        Video::Absent => 0,
        Video::One(_) | Video::Two(_, _) => 1,
    }
}

fn audio_flag(n: u8) -> u8
    ensures { (result ≡ audio_flag n) × (result ≤ 1) }
{
    u8::from(n != 0)
}

#[tactic(auto, unfolding(crate::specs::Bytes::flag_byte))]
fn flag_byte(c: Contents) -> u8
    requires { Fits c }
    ensures { result ≡ flag_byte c }
{
    c.rate * 16 + u8::from(c.hasid) * 4 + video_flag(c.video) * 2 + audio_flag(c.count)
}

// The parts first, from place 4 on, then the header that counts them, then the checksum.
pub(crate) fn encode(c: Contents, out: &mut [u8]) -> usize
    requires fits { Fits c }
    requires room { 254 ≤ length out.old }
    ensures { (result ≡ length (bytes.encode c)) × (result ≤ 254) × (out.new ≡ sets out.old 0 (bytes.encode c)) }
{
    let end = write_parts(c, out, 4);
    let head = [0u8, c.counter, (end - 2) as u8, flag_byte(c)];
    laws::copy_at(&head, out, 0);
    out[end] = crate::byte_sum(&out[..end]).wrapping_neg();
    end + 1
}
