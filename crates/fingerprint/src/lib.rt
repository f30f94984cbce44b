// One audio fingerprint: what it has heard, the bits that it holds, and the taking of them (01, Audio; 000, 5.3.3 to 5.3.6). The mixing rule is its
// session's, and is given with the sound.
#![tactic(auto)]

ghost use Rattle.std.specs.Prelude.{◌≡◌, ◌+◌, ◌-◌, ◌*◌, ◌%◌, ◌≤◌, ◌<◌, ltb, length};
ghost use Rattle.sound.specs.Mix.{instant_bytes};
ghost use Rattle.floats.specs.Instants.{float_value};
ghost use Rattle.laws.specs.Refusals.{number_in};
ghost use Rattle.fingerprint.specs.State.{fresh_of, pushed_of, step_of, heard_of, values_at, instants, whole_instants, new_bits, store_number, sound_number, instant_number, holds_of, shifted, first_bytes, taken, take_of};
ghost use Rattle.fingerprint.specs.Parts.{filters_of, next_filters, through_of, with_filters_of};

use floats::Instant;
use laws::Refusal;

// envelope and mean are E(i) and M(i) of the newest sample i; started says that there was one. wait samples pass before the next kept one.
// held bits are not yet taken; bit k of them is bit k % 8 of byte k / 8.
#[derive(Clone, Copy)]
pub struct Fingerprint {
    mix: u8,
    envelope: u32,
    mean: u32,
    wait: u8,
    started: bool,
    held: usize,
    bytes: [u8; 32],
}

// What every sample changes. The rest of a fingerprint changes only where a bit is kept, and need not be carried from sample to sample.
#[derive(Clone, Copy)]
struct Filters {
    envelope: u32,
    mean: u32,
    started: bool,
}

// The filters of a fingerprint. They are fields of it, and no field of its own, since `demands.proofs.Demand3.stored` and `History.Holds` speak of its
// envelope and its mean.
#[tactic(auto, unfolding(crate::specs::Parts::filters_of))]
fn filters_of(f: Fingerprint) -> Filters
    ensures { result ≡ filters_of f }
{
    Filters {
        envelope: f.envelope,
        mean: f.mean,
        started: f.started,
    }
}

// A sample enters both filters, unless it is sample 0.
#[tactic(auto, unfolding(crate::specs::Parts::next_filters))]
fn next_filters(v: Filters, a: u16) -> Filters
    ensures { result ≡ next_filters v a }
{
    if v.started {
        Filters {
            envelope: sound::envelope(v.envelope, a),
            mean: sound::mean(v.mean, a),
            started: true,
        }
    } else {
        Filters { started: true, ..v }
    }
}

// Bits fill a byte from bit 0, the lowest.
fn place_in_byte(k: usize) -> usize
    ensures { result ≡ k % 8 }
{
    k % 8
}

// One more bit, where there is room: a block that would find none is refused before.
fn pushed(f: Fingerprint, one: bool) -> Fingerprint
    ensures { result ≡ pushed_of f one }
{
    let held = f.held;
    if 256 <= held {
        return f;
    }
    let mut next = f;
    next.held = held + 1;
    if one {
        let at = held / 8;
        let old = next.bytes[at];
        next.bytes[at] = old | (1u8 << place_in_byte(held));
    }
    next
}

// A kept sample's bit, from the filters that it has just entered.
fn kept(f: Fingerprint, v: Filters) -> Fingerprint
    ensures { result ≡ pushed_of f (ltb v.mean v.envelope) }
{
    pushed(f, v.mean < v.envelope)
}

// A fingerprint with its filters and its wait put back.
#[tactic(auto, unfolding(crate::specs::Parts::with_filters_of))]
fn with_filters(f: Fingerprint, v: Filters, wait: u8) -> Fingerprint
    ensures { result ≡ with_filters_of f v wait }
{
    Fingerprint {
        envelope: v.envelope,
        mean: v.mean,
        started: v.started,
        wait,
        ..f
    }
}

// The samples that pass between two kept ones.
fn less_one(d: u8) -> u8
    ensures { result ≡ d - 1 }
{
    d.saturating_sub(1)
}

// The instants in len bytes.
fn instants_in(mix: u8, len: usize) -> usize
    ensures { result ≡ instants mix len }
{
    let size = sound::instant_bytes(mix);
    if size == 0 { 0 } else { len / size }
}

// n instants of a block, from a place on, enter the filters.
fn through_as(v: Filters, rule: u8, mix: u8, block: &[u8], at: usize, n: usize) -> Filters
    requires { at + n * instant_bytes mix ≤ length block.now }
    ensures { result ≡ through_of v (values_at rule mix block.now at n) }
{
    let size = sound::instant_bytes(mix);
    let mut next = v;
    for i in 0..n {
        next = next_filters(next, sound::instant_value(rule, mix, block, at + i * size));
    }
    next
}

// The same, with a loop for each mix type and, where it has a quotient, for rule 2, so that no sample asks for either and no sign becomes a jump.
fn through(v: Filters, rule: u8, mix: u8, block: &[u8], at: usize, n: usize) -> Filters
    requires { at + n * instant_bytes mix ≤ length block.now }
    ensures { result ≡ through_of v (values_at rule mix block.now at n) }
{
    match (mix, rule) {
        (1, _) => through_as(v, rule, 1, block, at, n),
        (2, 2) => through_as(v, 2, 2, block, at, n),
        (2, _) => through_as(v, rule, 2, block, at, n),
        (5, 2) => through_as(v, 2, 5, block, at, n),
        (5, _) => through_as(v, rule, 5, block, at, n),
        _ => through_as(v, rule, mix, block, at, n),
    }
}

// How many samples pass before the next kept one or the block's end.
fn least(wait: u8, left: usize) -> u8
    ensures { (result ≤ wait) × (result ≤ left) × (0 < wait → 0 < left → 0 < result) }
{
    if (wait as usize) < left {
        wait
    } else {
        left as u8
    }
}

// The fingerprint after a block.
fn heard(f: Fingerprint, rule: u8, d: u8, block: &[u8]) -> Fingerprint
    ensures { result ≡ heard_of rule d f block.now }
{
    let mix = f.mix;
    let size = sound::instant_bytes(mix);
    let n = instants_in(mix, block.len());
    let pause = less_one(d);
    let mut rest = f;
    let mut wait = f.wait;
    let mut v = filters_of(f);
    let mut at = 0;
    let mut i = 0;
    while i < n {
        if wait == 0 {
            v = next_filters(v, sound::instant_value(rule, mix, block, at));
            rest = kept(rest, v);
            wait = pause;
            at += size;
            i += 1;
        } else {
            let k = least(wait, n - i);
            v = through(v, rule, mix, block, at, k as usize);
            wait -= k;
            at += (k as usize) * size;
            i += k as usize;
        }
    }
    with_filters(rest, v, wait)
}

// How many of the next n samples are kept: the first after the wait, and then each d-th.
fn new_bits(d: u8, wait: u8, n: usize) -> usize
    ensures { (result ≡ new_bits d wait n) × (result ≤ n) }
{
    let pass = wait as usize;
    if n <= pass {
        return 0;
    }
    if d == 0 {
        return n - pass;
    }
    (n - pass - 1) / (d as usize) + 1
}

// 9 where the bits held and those of the next n samples are above 256.
fn check_store(held: usize, d: u8, wait: u8, n: usize) -> Result<(), Refusal>
    ensures { number_in result ≡ store_number held d wait n }
{
    if 256 < held || 256 - held < new_bits(d, wait, n) {
        Err(Refusal::StoreFull)
    } else {
        Ok(())
    }
}

// Whether len bytes are whole instants.
fn whole_instants(mix: u8, len: usize) -> bool
    ensures { result ≡ whole_instants mix len }
{
    let size = sound::instant_bytes(mix);
    if size == 0 { len == 0 } else { len % size == 0 }
}

// The bytes after the first n, then zeros.
fn shift(old: [u8; 32], n: usize) -> [u8; 32]
    requires { n ≤ 32 }
    ensures { result ≡ shifted n old }
{
    let mut left = [0; 32];
    left[..32 - n].copy_from_slice(&old[n..]);
    left
}

// The first n bytes, then zeros.
fn first_bytes(old: [u8; 32], n: usize) -> [u8; 5]
    requires { n ≤ 5 }
    ensures { result ≡ first_bytes n old }
{
    let mut out = [0; 5];
    out[..n].copy_from_slice(&old[..n]);
    out
}

impl Fingerprint {
    // A fingerprint as setup or an audio restart leaves it.
    #[tactic(auto, unfolding(crate::specs::State::fresh_of))]
    pub fn fresh(mix: u8) -> Fingerprint
        ensures { result ≡ fresh_of mix }
    {
        Fingerprint {
            mix,
            envelope: 0,
            mean: 0,
            wait: 0,
            started: false,
            held: 0,
            bytes: [0; 32],
        }
    }

    // An audio restart clears a fingerprint; its mix type stays.
    pub fn restart(&mut self)
        ensures { self.new ≡ fresh_of self.old.mix }
    {
        *self = Fingerprint::fresh(self.mix);
    }

    // The fields are this crate's own, so that a fingerprint comes only from these functions; a container tells the mix type.
    pub fn mix_type(&self) -> u8
        ensures { result ≡ self.now.mix }
    {
        self.mix
    }

    // One mixed sample: both filters, and its bit where no sample is waited for.
    pub fn step(&mut self, a: u16, d: u8)
        ensures { self.new ≡ step_of d self.old a }
    {
        let v = next_filters(filters_of(*self), a);
        *self = if self.wait == 0 {
            with_filters(kept(*self, v), v, less_one(d))
        } else {
            with_filters(*self, v, self.wait - 1)
        };
    }

    // A block of sound: each of its instants in turn, a kept one by itself and those that pass in one run. It is worked out beside the fingerprint, of which a
    // sample that passes changes the filters alone.
    pub fn hear(&mut self, rule: u8, d: u8, block: &[u8])
        ensures { self.new ≡ heard_of rule d self.old block.now }
    {
        let f = *self;
        *self = heard(f, rule, d, block);
    }

    // An instant in floating point: its one mixed sample.
    pub fn hear_instant(&mut self, rule: u8, d: u8, i: Instant)
        ensures { self.new ≡ step_of d self.old (float_value rule i) }
    {
        self.step(floats::value(rule, i), d);
    }

    // What refuses a block of len bytes: 8, then 9 (01, "What a caller is told", Sound; its 7 is the session's).
    pub fn check_sound(&self, d: u8, len: usize) -> Result<(), Refusal>
        ensures { number_in result ≡ sound_number d self.now len }
    {
        if !whole_instants(self.mix, len) {
            return Err(Refusal::NotWholeInstants);
        }
        check_store(self.held, d, self.wait, instants_in(self.mix, len))
    }

    // What refuses an instant in floating point: 14, then 9 (02, A3; its 1 and 7 are the session's).
    pub fn check_instant(&self, d: u8, i: Instant) -> Result<(), Refusal>
        ensures { number_in result ≡ instant_number d self.now i }
    {
        if floats::has_nan(i) || floats::kind(i) != self.mix {
            return Err(Refusal::OtherInstant);
        }
        check_store(self.held, d, self.wait, 1)
    }

    // Whether n whole bytes are held.
    pub fn holds(&self, n: usize) -> bool
        ensures { result ≡ holds_of self.now n }
    {
        n <= self.held / 8
    }

    // The n oldest whole bytes leave, and their room is free: the bytes, and zeros behind them. Where they are not held, or n is above 5, nothing changes.
    pub fn take(&mut self, n: usize) -> [u8; 5]
        ensures { taken result self.new ≡ take_of self.old n }
    {
        if 5 < n || self.held < 8 * n {
            return [0; 5];
        }
        let out = first_bytes(self.bytes, n);
        let bytes = shift(self.bytes, n);
        self.bytes = bytes;
        self.held -= 8 * n;
        out
    }
}
