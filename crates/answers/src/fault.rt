// What is said of a bad record beside its line: where it stands in the feed, and why it is bad.
ghost use Rattle.std.specs.Prelude.{◌≡◌};
ghost use Rattle.text.specs.Lines.{Put};
ghost use Rattle.answers.specs.Faults.{cause_words, cause_text, fault_text, fault_line};

use crate::Cause;

fn cause_words(cause: Cause) -> &'static [u8]
    ensures { result.now ≡ cause_words cause }
{
    match cause {
        Cause::UnknownTag(_) => b"unknown tag 0x",
        Cause::TooShort => b"payload too short",
        Cause::TooLong => b"payload too long",
        Cause::RoomAbove => b"room above 4,096",
        Cause::IdPresent => b"flat contents with ID present above 1",
        Cause::VideoValues => b"flat contents with more than 2 video values",
        Cause::UnusedPlace => b"flat contents with an unused video place not zero",
        Cause::OtherKind => b"kind other than 1, 2 or 5",
        Cause::CutShort => b"cut short by the end of the input",
    }
}

// A cause's words, and behind those of an unknown tag the tag.
fn put_cause(cause: Cause, out: &mut [u8], at: usize) -> usize
    ensures { Put out.old at (cause_text cause) out.new result }
{
    let p = text::put(cause_words(cause), out, at);
    match cause {
        Cause::UnknownTag(tag) => text::put_hex(&[tag], out, p),
        _ => p,
    }
}

// `record N, at byte P: ` and the cause.
fn put_fault(number: u64, byte: u64, cause: Cause, out: &mut [u8], at: usize) -> usize
    ensures { Put out.old at (fault_text number byte cause) out.new result }
{
    let p = text::put_item(b"record ", number, out, at);
    let q = text::put_item(b", at byte ", byte, out, p);
    let e = text::put(b": ", out, q);
    put_cause(cause, out, e)
}

// The line that a program prints of a bad record; it starts with the program's name.
pub fn say_fault(program: &[u8], number: u64, byte: u64, cause: Cause, out: &mut [u8]) -> usize
    ensures { Put out.old 0 (fault_line program.now number byte cause) out.new result }
{
    let p = text::put(program, out, 0);
    let q = text::put(b": ", out, p);
    let e = put_fault(number, byte, cause, out, q);
    text::put(b"\n", out, e)
}
