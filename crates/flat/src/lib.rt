// The contents of a container in 283 bytes and back: counter; rate code; ID present (0 or 1); the 20 ID bytes; number of video values (0, 1 or 2); the two
// values; number of audio fingerprints; then 32 times ID, mix type, number of bytes, five bytes.
#![tactic(auto)]

ghost use Rattle.std.specs.Prelude.{◌≡◌, cond, ◌+◌, ◌≤◌, length};
ghost use Rattle.std.proofs.lemmas.List.Edits.{sets};
ghost use Rattle.flat.specs.Flat.{flat_video, flat_print, flat_prints, flat};
ghost use Rattle.flat.specs.Unflat.{video_of, print_of, prints_of, unflat};

use container::{Contents, Print};
use laws::Video;

fn video_bytes(v: Video) -> [u8; 3]
    ensures { result ≡ flat_video v }
{
    match v {
        Video::Absent => [0, 0, 0],
        Video::One(a) => [1, a, 0],
        Video::Two(a, b) => [2, a, b],
    }
}

// A fingerprint takes eight bytes.
fn put_print(p: Print, out: &mut [u8], at: usize)
    requires { at ≤ 283 }
    ensures { (length (flat_print p) ≡ 8) × (out.new ≡ sets out.old at (flat_print p)) }
{
    laws::copy_at(&[p.id, p.mix, p.size], out, at);
    laws::copy_at(&p.bytes, out, at + 3);
}

// All 32 places, from place 27 on.
fn put_prints(prints: [Print; 32], out: &mut [u8])
    ensures { (length (flat_prints prints) ≡ 256) × (out.new ≡ sets out.old 27 (flat_prints prints)) }
{
    for (k, &print) in prints.iter().enumerate() {
        put_print(print, out, 27 + 8 * k);
    }
}

pub fn flatten(c: Contents) -> [u8; 283]
    ensures { result ≡ flat c }
{
    let mut out = [0u8; 283];
    let head = [c.counter, c.rate, laws::flag(c.hasid)];
    laws::copy_at(&head, &mut out, 0);
    laws::copy_at(&c.id, &mut out, 3);
    laws::copy_at(&video_bytes(c.video), &mut out, 23);
    out[26] = c.count;
    put_prints(c.prints, &mut out);
    out
}

// n video values in two places, of which the unused are zero.
fn video_of(n: u8, a: u8, b: u8) -> Option<Video>
    ensures { result ≡ video_of n a b }
{
    match (n, a, b) {
        (2, _, _) => Some(Video::Two(a, b)),
        (1, _, 0) => Some(Video::One(a)),
        (0, 0, 0) => Some(Video::Absent),
        _ => None,
    }
}

// The fingerprint at the start of b.
fn print_of(b: &[u8]) -> Print
    requires { 8 ≤ length b.now }
    ensures { result ≡ print_of b.now }
{
    let mut bytes = [0u8; 5];
    bytes.copy_from_slice(&b[3..8]);
    Print {
        id: b[0],
        mix: b[1],
        size: b[2],
        bytes,
    }
}

fn prints_of(b: &[u8]) -> [Print; 32]
    requires { 256 ≤ length b.now }
    ensures { result ≡ prints_of 32 b.now }
{
    let mut prints = [container::blank_print(); 32];
    for k in 0..32 {
        prints[k] = print_of(&b[8 * k..]);
    }
    prints
}

// The contents that some 283 bytes are the flat form of.
pub fn unflatten(bytes: &[u8]) -> Option<Contents>
    ensures { result ≡ unflat bytes.now }
{
    if bytes.len() != 283 || 1 < bytes[2] {
        return None;
    }
    let video = video_of(bytes[23], bytes[24], bytes[25])?;
    let mut id = [0u8; 20];
    id.copy_from_slice(&bytes[3..23]);
    Some(Contents {
        counter: bytes[0],
        rate: bytes[1],
        hasid: bytes[2] == 1,
        id,
        video,
        count: bytes[26],
        prints: prints_of(&bytes[27..]),
    })
}
