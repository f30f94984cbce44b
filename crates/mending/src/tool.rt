// What the tool prints of a recording: a line for each dropped run, and how many fields are kept (02, A8).
ghost use Rattle.std.specs.Prelude.{◌≡◌, ◌≤◌, length};
ghost use Rattle.std.proofs.lemmas.List.Edits.{sets};
ghost use Rattle.text.specs.Lines.{Put};
ghost use Rattle.mending.specs.Report.{kept_text, mended_text, reported};
ghost use Rattle.mending.specs.Places.{gap, run_between};

use crate::{field_end, first_field, next_field};

// The line of the bytes dropped from start up to end; none where there are none.
fn put_run(start: usize, end: usize, out: &mut [u8], at: usize) -> usize
    ensures { Put out.old at (run_between start end) out.new result }
{
    if end <= start {
        return at;
    }
    let p = text::put_item(b"dropped ", start as u64, out, at);
    let q = text::put_item(b" ", (end - start) as u64, out, p);
    text::put(b"\n", out, q)
}

// The last line.
fn put_last(kept: usize, out: &mut [u8], at: usize) -> usize
    ensures { Put out.old at (kept_text kept) out.new result }
{
    let p = text::put_item(b"kept ", kept as u64, out, at);
    text::put(b"\n", out, p)
}

// The lines of a recording that is not refused, and in which the first place that starts a field is known.
fn put_report(recording: &[u8], first: usize, out: &mut [u8]) -> usize
    requires { first ≡ gap recording.now }
    ensures { Put out.old 0 (mended_text recording.now) out.new result }
{
    let mut kept = 0;
    let mut start = 0;
    let mut at = first;
    let mut p = 0;
    // a scan from field to field: the place jumps by what stands there
    while at < recording.len() {
        p = put_run(start, at, out, p);
        start = field_end(recording, at);
        at = next_field(recording, start);
        kept += 1;
    }
    let q = put_run(start, at, out, p);
    put_last(kept, out, q)
}

// The lines stand at the front of out, as far as out has places for them; the answer is how many bytes they have: 8,193 runs in 20 bytes each and the last line
// in 11 at most.
pub fn report(recording: &[u8], out: &mut [u8]) -> usize
    ensures value { (result ≡ length (reported recording.now)) × (out.new ≡ sets out.old 0 (reported recording.now)) }
    ensures upper_bound { result ≤ 163871 }
{
    match first_field(recording) {
        Ok(first) => put_report(recording, first, out),
        Err(why) => text::put_refused(why.number(), out),
    }
}
