// What bench/audio.sh measures: one fingerprint that hears the same block, or the same instants in floating point, again and again, with its bytes taken in between.
#![tactic(auto)]

ghost use Rattle.std.specs.Prelude.{◌≡◌, ◌*◌, ◌≤◌, ◌<◌, length};
ghost use Rattle.bench_audio.specs.Instants.{instant_of, instant_in, instants_in, all_in, float_sum_after};
ghost use Rattle.bench_audio.specs.Turns.{byte_in, bytes_in, four_or_five, taken_in, next_turn, sum_after};

use fingerprint::Fingerprint;
use floats::{Five, Instant};

#[derive(Clone, Copy)]
struct Turn {
    fingerprint: Fingerprint,
    sum: u64,
}

#[tactic(auto, unfolding(crate::specs::Turns::byte_in))]
fn byte_in(sum: u64, b: u8) -> u64
    requires { sum < 4294967296 }
    ensures { (result ≡ byte_in sum b) × (result < 4294967296) }
{
    (sum * 31 + u64::from(b)) % 4294967296
}

fn bytes_in(sum: u64, bytes: [u8; 5]) -> u64
    requires { sum < 4294967296 }
    ensures { (result ≡ bytes_in sum bytes) × (result < 4294967296) }
{
    let a = byte_in(sum, bytes[0]);
    let b = byte_in(a, bytes[1]);
    let c = byte_in(b, bytes[2]);
    let d = byte_in(c, bytes[3]);
    byte_in(d, bytes[4])
}

// Five bytes where they are held, else four.
fn four_or_five(f: Fingerprint) -> usize
    ensures { result ≡ four_or_five f }
{
    if f.holds(5) { 5 } else { 4 }
}

// Bytes are taken and summed.
fn taken_in(sum: u64, f: Fingerprint) -> Turn
    requires { sum < 4294967296 }
    ensures { (result ≡ taken_in sum f) × (result.sum < 4294967296) }
{
    let mut fingerprint = f;
    let bytes = fingerprint.take(four_or_five(f));
    Turn {
        fingerprint,
        sum: bytes_in(sum, bytes),
    }
}

fn block_in(t: Turn, rule: u8, d: u8, block: &[u8]) -> Turn
    requires { t.sum < 4294967296 }
    ensures { (result ≡ next_turn rule d block.now t) × (result.sum < 4294967296) }
{
    let mut fingerprint = t.fingerprint;
    fingerprint.hear(rule, d, block);
    taken_in(t.sum, fingerprint)
}

// A sum over the bytes taken in so many turns.
#[unsafe(no_mangle)]
pub extern "C" fn bench_audio(rule: u8, mix: u8, d: u8, block: &[u8], rounds: usize) -> u64
    ensures { result ≡ sum_after rule mix d block.now rounds }
{
    let mut t = Turn {
        fingerprint: Fingerprint::fresh(mix),
        sum: 0,
    };
    for _i in 0..rounds {
        t = block_in(t, rule, d, block);
    }
    t.sum
}

// The first values as an instant of a mix type, which has as many of them as its number says; a silent one where there are fewer.
#[tactic(auto, unfolding(crate::specs::Instants::instant_of))]
pub fn instant_of(mix: u8, values: &[f32]) -> Instant
    ensures { result ≡ instant_of mix values.now }
{
    if values.len() < mix as usize {
        return Instant::Mono(0.0);
    }
    match mix {
        1 => Instant::Mono(values[0]),
        2 => Instant::Stereo(values[0], values[1]),
        5 => Instant::Five(Five {
            L: values[0],
            R: values[1],
            C: values[2],
            Ls: values[3],
            Rs: values[4],
        }),
        _ => Instant::Mono(0.0),
    }
}

// An instant is heard unless it is refused.
fn instant_in(f: Fingerprint, rule: u8, d: u8, i: Instant) -> Fingerprint
    ensures { result ≡ instant_in rule d f i }
{
    let mut next = f;
    match f.check_instant(d, i) {
        Ok(()) => {
            next.hear_instant(rule, d, i);
            next
        }
        Err(_) => f,
    }
}

// The first n instants that values hold one after the other.
fn instants_in(f: Fingerprint, rule: u8, mix: u8, d: u8, values: &[f32], n: usize) -> Fingerprint
    requires { n * mix ≤ length values.now }
    ensures { result ≡ instants_in rule mix d values.now f n }
{
    let mut g = f;
    for i in 0..n {
        let at = i * (mix as usize);
        g = instant_in(g, rule, d, instant_of(mix, &values[at..]));
    }
    g
}

// And all of them.
fn all_in(f: Fingerprint, rule: u8, mix: u8, d: u8, values: &[f32]) -> Fingerprint
    ensures { result ≡ all_in rule mix d values.now f }
{
    if mix == 0 {
        return f;
    }
    instants_in(f, rule, mix, d, values, values.len() / (mix as usize))
}

// A sum over the bytes taken in so many turns, in each of which all instants are heard one by one.
#[unsafe(no_mangle)]
pub extern "C" fn bench_floats(rule: u8, mix: u8, d: u8, values: &[f32], rounds: usize) -> u64
    ensures { result ≡ float_sum_after rule mix d values.now rounds }
{
    let mut t = Turn {
        fingerprint: Fingerprint::fresh(mix),
        sum: 0,
    };
    for _i in 0..rounds {
        t = taken_in(t.sum, all_in(t.fingerprint, rule, mix, d, values));
    }
    t.sum
}
