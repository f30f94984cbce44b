// Records one after the other: one byte tag, two bytes length with the high byte first, the payload (FEED; 02's tagged fields have the same shape).
#![tactic(auto)]

ghost use Rattle.std.specs.Prelude.{◌≡◌, ◌<◌};
ghost use Rattle.records.specs.Records.{byte_at, pair_at, record_at};

// What stands at a place of a run of records.
#[derive(Clone, Copy)]
pub enum Record {
    // A whole record, whose payload lies from start up to end.
    Whole { tag: u8, start: usize, end: usize },
    // A record that the end of the bytes cuts short.
    Cut,
    // No byte is left.
    End,
}

// The byte at a place, 0 past the end.
fn byte_at(bytes: &[u8], at: usize) -> usize
    ensures { (result ≡ byte_at bytes.now at) × (result < 256) }
{
    if at < bytes.len() {
        return bytes[at] as usize;
    }
    0
}

// The number in the two bytes at a place, the high byte first; bytes past the end count as 0.
pub fn pair_at(bytes: &[u8], at: usize) -> usize
    ensures { (result ≡ pair_at bytes.now at) × (result < 65536) }
{
    if at < bytes.len() {
        return 256 * byte_at(bytes, at) + byte_at(bytes, at + 1);
    }
    0
}

pub fn record_at(bytes: &[u8], at: usize) -> Record
    ensures { result ≡ record_at bytes.now at }
{
    if bytes.len() <= at {
        return Record::End;
    }
    if bytes.len() - at < 3 {
        return Record::Cut;
    }
    let start = at + 3;
    let size = pair_at(bytes, at + 1);
    if bytes.len() - start < size {
        return Record::Cut;
    }
    Record::Whole {
        tag: bytes[at],
        start,
        end: start + size,
    }
}
