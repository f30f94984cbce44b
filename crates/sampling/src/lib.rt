// The formats, and the 60 bytes of a line (01, "Video"; 000, 5.2.1 and 5.2.2).
#![tactic(auto)]

ghost use Rattle.std.specs.Prelude.{◌≡◌, [], ◌∷◌, ◌++◌, ◌+◌, ◌*◌, ◌/◌, ◌%◌, ◌≤◌, ◌<◌, length, get_or, drop};
ghost use Rattle.sampling.specs.Formats.{named, row_of};
ghost use Rattle.sampling.specs.Samples.{sample_at, tap_sum, mean_of, firsts, pixel_by, sample_done, sample_out};
ghost use Rattle.laws.specs.Refusals.{done_of};

use laws::Refusal;

// A row of 01's table. vstart2 is 0 where a frame is one field; the taps of a pixel go from before samples before it to after samples after it.
#[derive(Clone, Copy)]
pub struct Row {
    pub width: usize,
    pub lines: usize,
    pub hstart: usize,
    pub hstep: usize,
    pub vstart1: usize,
    pub vstart2: usize,
    pub vstep: usize,
    pub before: usize,
    pub after: usize,
}

// A row by its columns' names.
fn by_name(
    width: usize,
    lines: usize,
    hstart: usize,
    hstep: usize,
    vstart1: usize,
    vstart2: usize,
    vstep: usize,
    before: usize,
    after: usize,
) -> Row
    ensures { result ≡ named (width ∷ lines ∷ hstart ∷ hstep ∷ vstart1 ∷ vstart2 ∷ vstep ∷ before ∷ after ∷ []) }
{
    Row {
        width,
        lines,
        hstart,
        hstep,
        vstart1,
        vstart2,
        vstep,
        before,
        after,
    }
}

// The row of a format, all zero where the format is not listed. The table stands in a `match`: a constant array would be built on the stack each time that a
// row is looked up in it.
pub fn row_of(format: u8) -> Row
    ensures { result ≡ row_of format }
{
    match format {
        0 => by_name(720, 525, 123, 8, 60, 323, 10, 0, 0),
        1 => by_name(720, 625, 123, 8, 68, 381, 12, 0, 0),
        2 => by_name(1280, 750, 256, 13, 117, 0, 32, 1, 0),
        3 => by_name(1920, 1125, 399, 19, 89, 652, 24, 1, 1),
        4 => by_name(1920, 1125, 399, 19, 178, 0, 48, 1, 1),
        5 => by_name(2048, 1125, 463, 19, 206, 0, 46, 1, 1),
        6 => by_name(3840, 2250, 798, 38, 412, 0, 92, 3, 2),
        7 => by_name(4096, 2250, 926, 38, 412, 0, 92, 3, 2),
        _ => by_name(0, 0, 0, 0, 0, 0, 0, 0, 0),
    }
}

// Sample s of a line, in all of its 16 bits.
fn word(line: &[u8], s: usize) -> u32
    requires { 2 * s + 2 ≤ length line.now }
    ensures { (result ≡ get_or line.now (2 * s) 0 + 256 * get_or line.now (2 * s + 1) 0) × (result < 65536) }
{
    let lo = line[2 * s] as u32;
    let hi = line[2 * s + 1] as u32;
    lo + 256 * hi
}

// Sample s of a line, as its bits 9 to 2.
fn tap(line: &[u8], s: usize) -> u32
    requires { 2 * s + 2 ≤ length line.now }
    ensures { result ≡ sample_at line.now s }
{
    word(line, s) / 4 % 256
}

// Samples s and s + 1 as their bits 9 to 2, the second 65,536 times: one load of four bytes and one mask do for both.
fn tap_pair(line: &[u8], s: usize) -> u32
    requires { 2 * s + 4 ≤ length line.now }
    ensures { result ≡ sample_at line.now s + 65536 * sample_at line.now (s + 1) }
{
    let both = word(line, s) + 65536 * word(line, s + 1);
    (both / 4) & 0x00ff_00ff
}

// The two halves of such a number, or of a sum of them, added.
fn halves(pairs: u32) -> u32
    requires { pairs % 65536 + pairs / 65536 < 65536 }
    ensures { result ≡ pairs % 65536 + pairs / 65536 }
{
    (pairs + pairs / 65536) % 65536
}

// The sum of the n samples from s on, two by two. An odd one out comes with the one before it, which is taken off again: a load of its own would be one of two
// single bytes.
fn tap_sum(line: &[u8], s: usize, n: usize) -> u32
    requires { (2 * (s + n) ≤ length line.now) × (n ≤ 6) }
    ensures { result ≡ tap_sum line.now s n }
{
    let mut pairs = 0;
    for i in 0..n / 2 {
        pairs += tap_pair(line, s + 2 * i);
    }
    if n % 2 == 0 {
        return halves(pairs);
    }
    if n == 1 {
        return tap(line, s);
    }
    let last = tap_pair(line, s + n - 2);
    halves(pairs + last - last % 65536)
}

// Their mean, rounded down.
fn mean(line: &[u8], s: usize, n: usize) -> u8
    requires { (2 * (s + n) ≤ length line.now) × ((0 < n) × (n ≤ 6)) }
    ensures { result ≡ mean_of line.now s n }
{
    (tap_sum(line, s, n) / (n as u32)) as u8
}

// The 60 pixels of a line, step apart from start on, each of n taps from before samples before it.
fn fill(line: &[u8], start: usize, step: usize, before: usize, n: usize, out: &mut [u8])
    requires before_le_start { (before ≤ start) × ((2 * (start + step * 59 + n) ≤ length line.now + 2 * before) × ((before < n) × (n ≤ 6))) }
    requires in_bounds { 60 ≤ length out.old }
    ensures { out.new ≡ firsts (pixel_by line.now start step before n) 60 ++ drop 60 out.old }
{
    for k in 0..60 {
        out[k] = mean(line, start + step * k - before, n);
    }
}

// The same where a pixel is its own sample: four a turn, which the compiler does not gather one by one into a vector. The place goes along: worked out for
// each pixel, as `start + step * k`, it took 1.15 times as long.
fn fill_single(line: &[u8], start: usize, step: usize, out: &mut [u8])
    requires step_in_bounds { 2 * (start + step * 59 + 1) ≤ length line.now }
    requires in_bounds { 60 ≤ length out.old }
    ensures { out.new ≡ firsts (pixel_by line.now start step 0 1) 60 ++ drop 60 out.old }
{
    let mut at = start;
    for j in 0..15 {
        let k = 4 * j;
        out[k] = tap(line, at) as u8;
        at += step;
        out[k + 1] = tap(line, at) as u8;
        at += step;
        out[k + 2] = tap(line, at) as u8;
        at += step;
        out[k + 3] = tap(line, at) as u8;
        at += step;
    }
}

// The same, with a loop of its own for the taps and the step of each kind of row in the table, so that each is compiled for its numbers.
fn fill_by_taps(line: &[u8], start: usize, step: usize, before: usize, n: usize, out: &mut [u8])
    requires before_le_start { (before ≤ start) × ((2 * (start + step * 59 + n) ≤ length line.now + 2 * before) × ((before < n) × (n ≤ 6))) }
    requires in_bounds { 60 ≤ length out.old }
    ensures { out.new ≡ firsts (pixel_by line.now start step before n) 60 ++ drop 60 out.old }
{
    if n == 6 && step == 38 {
        fill(line, start, 38, before, 6, out);
    } else if n == 3 && step == 19 {
        fill(line, start, 19, before, 3, out);
    } else if n == 2 && step == 13 {
        fill(line, start, 13, before, 2, out);
    } else if n == 1 {
        fill_single(line, start, step, out);
    } else {
        fill(line, start, step, before, n, out);
    }
}

// 01's call: 1 format, 2 length, 12 room.
pub fn sample_line(format: u8, line: &[u8], out: &mut [u8]) -> Result<usize, Refusal>
    ensures value { done_of result ≡ sample_done format line.now out.old }
    ensures out_after { out.new ≡ sample_out format line.now out.old }
{
    if 8 <= format {
        return Err(Refusal::NotListed);
    }
    let r = row_of(format);
    if line.len() != 2 * r.width {
        return Err(Refusal::LineLength);
    }
    if out.len() < 60 {
        return Err(Refusal::NoRoom);
    }
    fill_by_taps(
        line,
        r.hstart,
        r.hstep,
        r.before,
        r.before + 1 + r.after,
        out,
    );
    Ok(60)
}
