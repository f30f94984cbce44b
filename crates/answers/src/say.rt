// An answer as the line that is printed for it (FEED's table).
ghost use Rattle.std.specs.Prelude.{◌≡◌, take};
ghost use Rattle.text.specs.Lines.{Put};
ghost use Rattle.answers.specs.Lines.{number_line, field_text, told_text, line_line, hand_word, hex_part, is_untouched, spill_part, handed_line, said_of};

use crate::{Answer, Hand};
use laws::Done;
use picture::Told;

fn say_number(word: &[u8], n: u8, out: &mut [u8]) -> usize
    ensures { Put out.old 0 (number_line word.now n) out.new result }
{
    let p = text::put_item(word, n as u64, out, 0);
    text::put(b"\n", out, p)
}

// The fingerprint of a field, and its two counts beside it.
fn put_field(fingerprint: u8, brighter: u16, darker: u16, out: &mut [u8], at: usize) -> usize
    ensures { Put out.old at (field_text fingerprint brighter darker) out.new result }
{
    let p = text::put_item(b" field ", fingerprint as u64, out, at);
    let q = text::put_item(b" brighter ", brighter as u64, out, p);
    text::put_item(b" darker ", darker as u64, out, q)
}

// What a line that ends a field tells.
fn put_told(told: Told, out: &mut [u8], at: usize) -> usize
    ensures { Put out.old at (told_text told) out.new result }
{
    match told {
        Told::Open => at,
        Told::Nothing => text::put(b" field none", out, at),
        Told::Value {
            fingerprint,
            brighter,
            darker,
        } => put_field(fingerprint, brighter, darker, out, at),
    }
}

fn say_line(number: u8, told: Told, out: &mut [u8]) -> usize
    ensures { Put out.old 0 (line_line number told) out.new result }
{
    let p = text::put_item(b"line ", number as u64, out, 0);
    let q = put_told(told, out, p);
    text::put(b"\n", out, q)
}

fn hand_word(hand: Hand) -> &'static [u8]
    ensures { result.now ≡ hand_word hand }
{
    match hand {
        Hand::Pack => b"pack ",
        Hand::Sample => b"sample ",
        Hand::Rewrite => b"rewrite ",
        Hand::Wrap => b"wrap ",
        Hand::Unwrap => b"unwrap ",
        Hand::Write => b"write ",
        Hand::Stream => b"stream ",
        Hand::Unstream => b"unstream ",
        Hand::Mend => b"mend ",
        Hand::Next => b"next ",
    }
}

// ` HEX` where the number is 0, else nothing.
fn put_written(number: u8, bytes: &[u8], out: &mut [u8], at: usize) -> usize
    ensures { Put out.old at (hex_part number bytes.now) out.new result }
{
    if number != 0 {
        return at;
    }
    let p = text::put(b" ", out, at);
    text::put_hex(bytes, out, p)
}

// Whether every byte is still A5h.
#[tactic(auto, unfolding(crate::specs::Lines::is_untouched))]
fn is_untouched(bytes: &[u8]) -> bool
    ensures { result ≡ is_untouched bytes.now }
{
    bytes.iter().all(|&byte| byte == 0xa5)
}

// The watch over what is compiled: ` spilled` where a byte beyond those written is no longer A5h.
fn put_spill(beyond: &[u8], out: &mut [u8], at: usize) -> usize
    ensures { Put out.old at (spill_part beyond.now) out.new result }
{
    if is_untouched(beyond) {
        return at;
    }
    text::put(b" spilled", out, at)
}

// A line that lies at the front of the work buffer.
fn say_reported(size: usize, work: &[u8], out: &mut [u8]) -> usize
    ensures { Put out.old 0 (take size work.now) out.new result }
{
    text::put(&work[..size.min(work.len())], out, 0)
}

// `word N[ HEX]`, with the watch over the bytes beyond those written.
fn say_handed(hand: Hand, done: Done, work: &[u8], out: &mut [u8]) -> usize
    ensures { Put out.old 0 (handed_line spill_part hand done work.now) out.new result }
{
    let written = done.written.min(work.len());
    let a = text::put_item(hand_word(hand), done.number as u64, out, 0);
    let b = put_written(done.number, &work[..written], out, a);
    let c = put_spill(&work[written..], out, b);
    text::put(b"\n", out, c)
}

// The line of an answer at the front of out, as far as out has places for it; work is the buffer that the call left.
pub fn say(a: Answer, work: &[u8], out: &mut [u8]) -> usize
    ensures { Put out.old 0 (said_of a work.now) out.new result }
{
    match a {
        Answer::Setup(n) => say_number(b"setup ", n, out),
        Answer::Line(n, told) => say_line(n, told, out),
        Answer::Sound(n) => say_number(b"sound ", n, out),
        Answer::Instant(n) => say_number(b"instant ", n, out),
        Answer::VideoRestart => text::put(b"video restart\n", out, 0),
        Answer::AudioRestart => text::put(b"audio restart\n", out, 0),
        Answer::Receiver => text::put(b"receiver\n", out, 0),
        Answer::Arrive(n) => say_number(b"arrive ", n, out),
        Answer::GiveUp => text::put(b"give up\n", out, 0),
        Answer::Handed(hand, done) => say_handed(hand, done, work, out),
        Answer::Reported(size) => say_reported(size, work, out),
        Answer::Bad(cause) => text::put(b"bad record\n", out, 0),
        Answer::Finished => 0,
    }
}
