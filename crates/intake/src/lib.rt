// For the programs that read records: records read as they come (FEED: "read as they come"), and what is said, on standard error, of the one
// at which a program stops.
#![tactic(auto)]

ghost use Rattle.std.specs.Prelude.{◌≡◌};
ghost use Rattle.intake.specs.Intake.{Took, is_last};

use answers::{Answer, Cause};

// The longest record has a tag, a length and 65,535 bytes.
pub const LONGEST_RECORD: usize = 65538;

// No line is longer (next_fits, of both feeds).
pub const LONGEST_LINE: usize = 8256;

// Reads the next record of an open file into the front of bytes, and answers how many bytes of it there are: fewer than it has where the file ends first.
// Of a record that bytes has no room for only the tag and the length are read, so that it counts as cut short.
pub fn read_record_from(fd: i32, bytes: &mut [u8]) -> usize
    ensures { Took bytes.old bytes.new result }
{
    if bytes.len() < 3 {
        return 0;
    }
    let head = io::read_full(fd, &mut bytes[..3]);
    if head < 3 {
        return head;
    }
    let end = 3 + records::pair_at(bytes, 1);
    if bytes.len() < end {
        return 3;
    }
    3 + io::read_full(fd, &mut bytes[3..end])
}

// Reads the next record of standard input.
pub fn read_record(bytes: &mut [u8]) -> usize
    ensures { Took bytes.old bytes.new result }
{
    read_record_from(0, bytes)
}

// Says why a record is bad, and where it stands.
fn complain(program: &[u8], number: u64, byte: u64, cause: Cause) {
    let mut line = [0u8; 128];
    let size = answers::fault::say_fault(program, number, byte, cause, &mut line);
    io::write_all(2, &line[..size.min(128)]);
}

// Whether a program stops at a record's answer; of a bad record it is said why.
pub fn stops(program: &[u8], answer: Answer, number: u64, byte: u64) -> bool
    ensures { result ≡ is_last answer }
{
    match answer {
        Answer::Bad(cause) => {
            complain(program, number, byte, cause);
            true
        }
        Answer::Finished => true,
        _ => false,
    }
}
