// The instant in floating point that a record brings: what follows the fingerprint number in tag 16h.
ghost use Rattle.std.specs.Prelude.{◌≡◌, true, ◌+◌, ◌≤◌, length};
ghost use Rattle.records.specs.Records.{byte_at};
ghost use Rattle.rates.specs.Mixes.{mix_listed};
ghost use Rattle.feed.specs.Values.{bits_at, float_at, instant_at, instant_size, instant_in};

use answers::Cause;
use floats::{Five, Instant};

// The 32 bits in four bytes, the low byte first.
#[tactic(auto, unfolding(crate::specs::Values::bits_at, records::specs::Records::byte_at))]
fn bits_at(payload: &[u8], at: usize) -> u32
    requires { at + 4 ≤ length payload.now }
    ensures { result ≡ bits_at payload.now at }
{
    u32::from_le_bytes([
        payload[at],
        payload[at + 1],
        payload[at + 2],
        payload[at + 3],
    ])
}

// The value in four bytes. from_bits is undefined at a NaN's bits: exponent all ones and digits not 0, above those of an infinity.
#[tactic(auto, unfolding(crate::specs::Values::float_at))]
fn float_at(payload: &[u8], at: usize) -> f32
    requires { at + 4 ≤ length payload.now }
    ensures { result ≡ float_at payload.now at }
{
    let bits = bits_at(payload, at);
    if 0x7f800000 < bits % 0x80000000 {
        return 0.0 / 0.0;
    }
    f32::from_bits(bits)
}

// The instant of a payload that has a kind and its values.
#[tactic(auto, unfolding(crate::specs::Values::instant_at, crate::specs::Values::instant_size, records::specs::Records::byte_at))]
fn instant_at(payload: &[u8]) -> Instant
    requires listed { mix_listed (byte_at payload.now 1) ≡ true }
    requires whole { length payload.now ≡ instant_size (byte_at payload.now 1) }
    ensures { result ≡ instant_at payload.now }
{
    let kind = payload[1];
    if kind == 1 {
        return Instant::Mono(float_at(payload, 2));
    }
    if kind == 2 {
        return Instant::Stereo(float_at(payload, 2), float_at(payload, 6));
    }
    Instant::Five(Five {
        L: float_at(payload, 2),
        R: float_at(payload, 6),
        C: float_at(payload, 10),
        Ls: float_at(payload, 14),
        Rs: float_at(payload, 18),
    })
}

// The instant that a record brings, or why it brings none.
#[tactic(auto, unfolding(crate::specs::Values::instant_in, crate::specs::Values::instant_size, records::specs::Records::byte_at))]
pub(crate) fn instant_in(payload: &[u8]) -> Result<Instant, Cause>
    ensures { result ≡ instant_in payload.now }
{
    if payload.len() < 2 {
        return Err(Cause::TooShort);
    }
    let kind = payload[1];
    if !rates::mix_listed(kind) {
        return Err(Cause::OtherKind);
    }
    let size = 2 + 4 * (kind as usize);
    if payload.len() < size {
        return Err(Cause::TooShort);
    }
    if size < payload.len() {
        return Err(Cause::TooLong);
    }
    Ok(instant_at(payload))
}
