// A container: what it says, read from its bytes and written to them (01, The container; 000, 6).
#![tactic(auto)]

ghost use Rattle.std.specs.Prelude.{◌≡◌, ◌%◌, length};
ghost use Rattle.laws.specs.Refusals.{number_in, done_of};
ghost use Rattle.laws.specs.Sums.{sum};
ghost use Rattle.container.specs.Contents.{blank_print, empty_contents, same_count};
ghost use Rattle.container.specs.Reading.{reading, reading_of};
ghost use Rattle.container.specs.Writing.{write_done, write_out};

use laws::{Refusal, Video};

mod pass;
mod read;
mod valid;
mod write;

// One audio fingerprint: AFDataCount is its size, and unused bytes are zero.
#[derive(Clone, Copy, PartialEq, Eq)]
pub struct Print {
    pub id: u8,
    pub mix: u8,
    pub size: u8,
    pub bytes: [u8; 5],
}

#[derive(Clone, Copy)]
pub struct Contents {
    pub counter: u8,
    pub rate: u8,
    pub hasid: bool,
    pub id: [u8; 20],
    pub video: Video,
    pub count: u8,
    pub prints: [Print; 32],
}

// A part that is right, as it is read: how many bytes it takes, and what it says.
#[derive(Clone, Copy)]
pub struct IdPart {
    pub used: usize,
    pub id: [u8; 20],
}

#[derive(Clone, Copy)]
pub struct VideoPart {
    pub used: usize,
    pub video: Video,
}

#[derive(Clone, Copy)]
pub struct PrintPart {
    pub used: usize,
    pub print: Print,
}

#[derive(Clone, Copy)]
pub struct AudioPart {
    pub used: usize,
    pub count: u8,
    pub prints: [Print; 32],
}

// A place for a fingerprint that is not used: "unused places are zero".
pub fn blank_print() -> Print
    ensures { result ≡ blank_print }
{
    Print {
        id: 0,
        mix: 0,
        size: 0,
        bytes: [0u8; 5],
    }
}

// Contents that are all zero, with no video.
pub fn empty_contents() -> Contents
    ensures { result ≡ empty_contents }
{
    Contents {
        counter: 0,
        rate: 0,
        hasid: false,
        id: [0u8; 20],
        video: Video::Absent,
        count: 0,
        prints: [blank_print(); 32],
    }
}

// The sum of all bytes, modulo 256.
fn byte_sum(s: &[u8]) -> u8
    ensures { result ≡ sum s.now % 256 }
{
    s.iter().fold(0, |total, &b| total.wrapping_add(b))
}

// Whether the fingerprints carry the same count: "every fingerprint of a container" (02, A2).
fn same_count(prints: &[Print]) -> bool
    ensures { result ≡ same_count prints.now }
{
    let Some(first) = prints.first() else {
        return true;
    };
    prints.iter().all(|p| p.size == first.size)
}

// Read container: 20 to 28.
#[tactic(auto, unfolding(crate::specs::Reading::reading, crate::specs::Reading::middle))]
pub fn read_container(bytes: &[u8]) -> Result<Contents, Refusal>
    ensures { reading_of result ≡ reading bytes.now }
{
    read::check_header(bytes)?;
    let end = bytes.len() - 1;
    read::read_parts(bytes[1], bytes[3], &bytes[4..end])
}

// What a reading says: "a refused reading's contents are all zero, with no video".
#[tactic(auto, unfolding(crate::specs::Contents::empty_contents))]
pub fn contents_or_empty(answer: Result<Contents, Refusal>) -> Contents
    ensures { result ≡ (reading_of answer).contents }
{
    match answer {
        Ok(contents) => contents,
        Err(_) => empty_contents(),
    }
}

// What Read container refuses alone: 20 to 28.
#[tactic(auto, unfolding(crate::specs::Reading::reading, crate::specs::Reading::middle))]
pub fn check_container(bytes: &[u8]) -> Result<(), Refusal>
    ensures { number_in result ≡ (reading bytes.now).number }
{
    read::check_header(bytes)?;
    let end = bytes.len() - 1;
    pass::check_parts(bytes[3], &bytes[4..end])
}

// Write: 29, 12.
pub fn write_container(contents: Contents, out: &mut [u8]) -> Result<usize, Refusal>
    ensures { (done_of result ≡ write_done contents (length out.old)) × (out.new ≡ write_out contents out.old) }
{
    if !valid::readable(contents) {
        return Err(Refusal::NoSuchContents);
    }
    let mut bytes = [0u8; 254];
    let size = write::encode(contents, &mut bytes);
    if out.len() < size {
        return Err(Refusal::NoRoom);
    }
    laws::copy_at(&bytes[..size], out, 0);
    Ok(size)
}
