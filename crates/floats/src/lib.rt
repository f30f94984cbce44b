// A sound instant in floating point, and the samples that its values are (02, A3).
#![tactic(auto)]

ghost use Rattle.std.specs.Prelude.{◌≡◌, ◌^◌, ◌<◌, true, false, T, pos};
ghost use Rattle.std.specs.Float.Ieee as Ieee;
ghost use Rattle.std.specs.Float.{fin};
ghost use Rattle.sound.specs.Mix.{signed};
ghost use Rattle.floats.specs.Values.{sample_of};
ghost use Rattle.floats.specs.Instants.{kind_of, has_nan, float_value};

// The five values of one 5.1 instant.
#[derive(Clone, Copy)]
pub struct Five {
    pub L: f32,
    pub R: f32,
    pub C: f32,
    pub Ls: f32,
    pub Rs: f32,
}

#[derive(Clone, Copy)]
pub enum Instant {
    Mono(f32),
    Stereo(f32, f32),
    Five(Five),
}

// The floor of x times 32,768, for an x between -1 and 1: the product is exact, and where cutting its fraction off moved it up, one is taken off.
fn floored(x: f32) -> i32
    requires above { T (Ieee.lt (fin true 1 (pos 0)) x) }
    requires below { T (Ieee.lt x (fin false 1 (pos 0))) }
    ensures { result ≡ sample_of x }
{
    let y = x * 32768.0;
    let t = std::num::truncating_f32_to_i64(y);
    if y < (t as f32) {
        (t - 1) as i32
    } else {
        t as i32
    }
}

// The sample of a value: the floor of x times 32,768, held to -32,768 to 32,767. A NaN, which callers refuse, gives 0.
pub fn sample_of(x: f32) -> i32
    ensures { result ≡ sample_of x }
{
    if x.is_nan() {
        return 0;
    }
    if x < 1.0 {
        if x > -1.0 {
            return floored(x);
        }
        return -32768;
    }
    32767
}

// The 16 bits of a value's sample.
fn bits_of(x: f32) -> u16
    ensures { signed result ≡ sample_of x }
{
    (sample_of(x) as i16).cast_unsigned()
}

// The mix type that an instant is one of.
pub fn kind(i: Instant) -> u8
    ensures { result ≡ kind_of i }
{
    match i {
        Instant::Mono(_) => 1,
        Instant::Stereo(_, _) => 2,
        Instant::Five(_) => 5,
    }
}

// Whether a value of an instant is a NaN.
pub fn has_nan(i: Instant) -> bool
    ensures { result ≡ has_nan i }
{
    match i {
        Instant::Mono(x) => x.is_nan(),
        Instant::Stereo(l, r) => l.is_nan() | r.is_nan(),
        Instant::Five(f) => f.L.is_nan()
            | f.R.is_nan()
            | f.C.is_nan()
            | f.Ls.is_nan()
            | f.Rs.is_nan(),
    }
}

// a(i) of an instant by a rule: the mix of its samples, as that of a block's instant. A value's sample is its floor by either rule.
pub fn value(rule: u8, i: Instant) -> u16
    ensures { result ≡ float_value rule i }
{
    match i {
        Instant::Mono(x) => sound::mono_value(bits_of(x)),
        Instant::Stereo(l, r) => sound::stereo_value(rule, bits_of(l), bits_of(r)),
        Instant::Five(f) => sound::five_value(
            rule,
            bits_of(f.L),
            bits_of(f.R),
            bits_of(f.C),
            bits_of(f.Ls),
            bits_of(f.Rs),
        ),
    }
}
