// What bench/session.sh measures: frames of a format through the session's calls, with blocks or with instants in floating point, and a sum over their containers.
#![tactic(auto)]

ghost use Rattle.std.specs.Prelude.{◌≡◌, ◌<◌, ◌≤◌, length};
ghost use Rattle.sampling.specs.Formats.{row_of};
ghost use Rattle.session.specs.Session.{setup_of};
ghost use Rattle.bench_session.specs.Instants.{instant_frame, instant_sum_after};
ghost use Rattle.bench_session.specs.Frames.{begun_with, two_of1080i, block_each, field_lines, fields_of, other_lines, each_heard, sounds, filled_with, byte_in, bytes_in, packed_in, frame_of, turn_at, line_at, sum_after, packings, second_with};

use session::Session;

mod instants;

// What each frame has: the monitored lines of a format and so many others, so many blocks for each of the first `count` fingerprints, and room for its container.
#[derive(Clone, Copy)]
struct Load {
    format: u8,
    others: usize,
    count: usize,
    blocks: usize,
    room: usize,
}

#[derive(Clone, Copy)]
struct Turn {
    session: Session,
    sum: u64,
}

// The session that a setup gives: an empty one where it is refused.
fn begin(format: u8, rate: u8, rule: u8, mixes: &[u8]) -> Session
    ensures { result ≡ (setup_of format rate rule mixes.now).session }
{
    let mut s = Session::empty();
    let _ = s.setup(format, rate, rule, mixes);
    s
}

// The 16 lines of the field whose first is this one.
fn field(s: &mut Session, first: usize, step: usize, line: &[u8])
    requires { (first ≤ 2250) × (step ≤ 2250) }
    ensures { s.new ≡ field_lines s.old first step line.now 16 }
{
    for k in 0..16 {
        let _ = s.line(first + step * k, line);
    }
}

// The monitored lines of a frame.
fn fields(s: &mut Session, format: u8, line: &[u8])
    ensures { s.new ≡ fields_of (row_of format) line.now s.old }
{
    let row = sampling::row_of(format);
    field(s, row.vstart1, row.vstep, line);
    if row.vstart2 != 0 {
        field(s, row.vstart2, row.vstep, line);
    }
}

// So many lines that are not monitored.
fn others(s: &mut Session, n: usize, line: &[u8])
    ensures { s.new ≡ other_lines s.old line.now n }
{
    for _k in 0..n {
        let _ = s.line(1000, line);
    }
}

// A block for each of the first fingerprints.
fn each_heard(s: &mut Session, count: usize, block: &[u8])
    ensures { s.new ≡ each_heard block.now s.old count }
{
    for k in 0..count {
        let _ = s.sound(k, block);
    }
}

// So many blocks for each of them.
fn heard(s: &mut Session, count: usize, n: usize, block: &[u8])
    ensures { s.new ≡ sounds count block.now s.old n }
{
    for _k in 0..n {
        each_heard(s, count, block);
    }
}

// A frame that is ready, with its sound.
fn fill(s: &mut Session, load: Load, line: &[u8], block: &[u8])
    ensures { s.new ≡ filled_with load line.now block.now s.old }
{
    fields(s, load.format, line);
    others(s, load.others, line);
    heard(s, load.count, load.blocks, block);
}

#[tactic(auto, unfolding(crate::specs::Frames::byte_in))]
fn byte_in(sum: u64, b: u8) -> u64
    requires { sum < 4294967296 }
    ensures { (result ≡ byte_in sum b) × (result < 4294967296) }
{
    (sum * 31 + u64::from(b)) % 4294967296
}

fn bytes_in(sum: u64, bytes: &[u8]) -> u64
    requires { sum < 4294967296 }
    ensures { (result ≡ bytes_in sum bytes.now) × (result < 4294967296) }
{
    let mut total = sum;
    for &b in bytes {
        total = byte_in(total, b);
    }
    total
}

impl Turn {
    // A frame that is ready is packed, with no ID, and the room lent for its container goes into the sum.
    fn pack(&mut self, out: &mut [u8])
        requires { self.old.sum < 4294967296 }
        ensures { (self.new ≡ packed_in out.old self.old.session self.old.sum) × (self.new.sum < 4294967296) }
    {
        let _ = self.session.pack(&[], out);
        self.sum = bytes_in(self.sum, out);
    }

    fn frame(&mut self, load: Load, line: &[u8], block: &[u8])
        requires { (self.old.sum < 4294967296) × (load.room ≤ 254) }
        ensures { (self.new ≡ frame_of load line.now block.now self.old) × (self.new.sum < 4294967296) }
    {
        fill(&mut self.session, load, line, block);
        let mut out = [0u8; 254];
        self.pack(&mut out[..load.room]);
    }

    fn frame_at(&mut self, i: usize, load: Load, even: &[u8], odd: &[u8], block: &[u8])
        requires { (self.old.sum < 4294967296) × (load.room ≤ 254) }
        ensures { (self.new ≡ frame_of load (line_at even.now odd.now (turn_at (row_of load.format) i)) block.now self.old) × (self.new.sum < 4294967296) }
    {
        if turn_at(load.format, i) % 2 == 0 {
            self.frame(load, even, block);
        } else {
            self.frame(load, odd, block);
        }
    }

    // A frame with instants for each fingerprint, and its container, which fits in 254 bytes.
    fn instant_frame(&mut self, count: usize, mix: u8, line: &[u8], values: &[f32])
        requires { self.old.sum < 4294967296 }
        ensures { (self.new ≡ instant_frame count mix line.now values.now self.old) × (self.new.sum < 4294967296) }
    {
        fields(&mut self.session, 3, line);
        instants::all_heard(&mut self.session, count, mix, values);
        let mut out = [0u8; 254];
        self.pack(&mut out);
    }
}

// So many packings of one session that is ready: each finds it as it was.
fn packed_again(ready: &Session, rounds: usize) -> u64
    ensures { result ≡ packings ready.now rounds }
{
    let mut sum = 0;
    for _i in 0..rounds {
        let mut s = *ready;
        let mut out = [0; 32];
        let _ = s.pack(&[], &mut out);
        sum = bytes_in(sum, &out);
    }
    sum
}

// Which of the two lines frame i, counted from 0, has, by whether it is even: a byte is compared with that of the second preceding field (01, Video).
fn turn_at(format: u8, i: usize) -> usize
    ensures { result ≡ turn_at (row_of format) i }
{
    let row = sampling::row_of(format);
    if row.vstart2 == 0 { i / 2 } else { i }
}

// A sum over the containers of so many frames.
fn frames(s: Session, load: Load, rounds: usize, even: &[u8], odd: &[u8], block: &[u8]) -> u64
    requires { load.room ≤ 254 }
    ensures { result ≡ sum_after load even.now odd.now block.now s rounds }
{
    let mut t = Turn { session: s, sum: 0 };
    for i in 0..rounds {
        t.frame_at(i, load, even, odd, block);
    }
    t.sum
}

fn two_of_1080i(others: usize, blocks: usize) -> Load
    ensures { result ≡ two_of1080i others blocks }
{
    Load {
        format: 3,
        others,
        count: 2,
        blocks,
        room: 32,
    }
}

// Frames of 1080i at 25 Hz, with two fingerprints of one mix type.
#[unsafe(no_mangle)]
pub extern "C" fn bench_session(
    rule: u8,
    mix: u8,
    rounds: usize,
    extra: usize,
    blocks: usize,
    even: &[u8],
    odd: &[u8],
    block: &[u8],
) -> u64
    ensures { result ≡ sum_after (two_of1080i extra blocks) even.now odd.now block.now (begun_with rule mix) rounds }
{
    let s = begin(3, 5, rule, &[mix, mix]);
    let load = two_of_1080i(extra, blocks);
    frames(s, load, rounds, even, odd, block)
}

// Frames of any format and rate, with a block by rule 1 for each fingerprint of these mix types.
#[unsafe(no_mangle)]
pub extern "C" fn bench_frames(
    format: u8,
    rate: u8,
    mixes: &[u8],
    rounds: usize,
    even: &[u8],
    odd: &[u8],
    block: &[u8],
) -> u64
    ensures { result ≡ sum_after (block_each format (length mixes.now)) even.now odd.now block.now (setup_of format rate 1 mixes.now).session rounds }
{
    let s = begin(format, rate, 1, mixes);
    let load = Load {
        format,
        others: 0,
        count: mixes.len(),
        blocks: 1,
        room: 254,
    };
    frames(s, load, rounds, even, odd, block)
}

// A sum over the containers of so many packings of one second frame.
#[unsafe(no_mangle)]
pub extern "C" fn bench_pack(
    mix: u8,
    rounds: usize,
    blocks: usize,
    even: &[u8],
    odd: &[u8],
    block: &[u8],
) -> u64
    ensures { result ≡ packings (second_with mix blocks even.now odd.now block.now) rounds }
{
    let s = begin(3, 5, 1, &[mix, mix]);
    let load = two_of_1080i(0, blocks);
    let mut t = Turn { session: s, sum: 0 };
    t.frame(load, even, block);
    fill(&mut t.session, load, odd, block);
    packed_again(&t.session, rounds)
}

// A sum over the containers of so many frames with instants for each fingerprint.
#[unsafe(no_mangle)]
pub extern "C" fn bench_instants(
    rule: u8,
    mixes: &[u8],
    mix: u8,
    rounds: usize,
    line: &[u8],
    values: &[f32],
) -> u64
    ensures { result ≡ instant_sum_after rule mixes.now mix line.now values.now rounds }
{
    let s = begin(3, 5, rule, mixes);
    let mut t = Turn { session: s, sum: 0 };
    for _i in 0..rounds {
        t.instant_frame(mixes.len(), mix, line, values);
    }
    t.sum
}
