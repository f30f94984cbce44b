// What a container says, in one line of text (01, "Figures to check against": the program's line).
#![tactic(auto)]

ghost use Rattle.std.specs.Prelude.{◌≡◌, length};
ghost use Rattle.std.proofs.lemmas.List.Edits.{sets};
ghost use Rattle.container.specs.Reading.{reading};
ghost use Rattle.text.specs.Lines.{Put};
ghost use Rattle.report.specs.Report.{video_text, accepted_text, reported, inspected};

use container::Contents;
use laws::Video;

fn put_video(v: Video, out: &mut [u8], at: usize) -> usize
    ensures { Put out.old at (video_text v) out.new result }
{
    match v {
        Video::Absent => text::put_item(b" video ", 0, out, at),
        Video::One(a) => {
            let p = text::put_item(b" video ", 1, out, at);
            text::put_item(b" ", a as u64, out, p)
        }
        Video::Two(a, b) => {
            let p = text::put_item(b" video ", 2, out, at);
            let q = text::put_item(b" ", a as u64, out, p);
            text::put_item(b" ", b as u64, out, q)
        }
    }
}

fn put_accepted(c: Contents, out: &mut [u8]) -> usize
    ensures { Put out.old 0 (accepted_text c) out.new result }
{
    let a = text::put_item(b"ok seq ", c.counter as u64, out, 0);
    let b = text::put_item(b" rate ", c.rate as u64, out, a);
    let i = text::put_item(b" id ", laws::flag(c.hasid) as u64, out, b);
    let v = put_video(c.video, out, i);
    let s = text::put_item(b" audio ", c.count as u64, out, v);
    text::put(b"\n", out, s)
}

// The line's bytes stand at the front of out, as far as out has places for them; the answer is how many there are.
pub fn report(bytes: &[u8], out: &mut [u8]) -> usize
    ensures { (result ≡ length (reported (reading bytes.now))) × (out.new ≡ sets out.old 0 (reported (reading bytes.now))) }
{
    match container::read_container(bytes) {
        Ok(contents) => put_accepted(contents, out),
        Err(why) => text::put_refused(why.number(), out),
    }
}

// "Of a longer input the first 300 bytes are taken."
pub fn inspect(input: &[u8], out: &mut [u8]) -> usize
    ensures { (result ≡ length (inspected input.now)) × (out.new ≡ sets out.old 0 (inspected input.now)) }
{
    if 300 < input.len() {
        return report(&input[..300], out);
    }
    report(input, out)
}
