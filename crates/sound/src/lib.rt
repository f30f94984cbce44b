// One instant of sound: its mix by either rule, its pseudo-absolute value, and the two filters (01, Audio; 000, 5.3.1 to 5.3.4; 02, A9).
// A rule is its number: 2 rounds mixes towards zero, any other down, as 1 does. Setup takes 1 and 2 alone.
#![tactic(auto)]

ghost use Rattle.std.specs.Prelude.{◌≡◌, [], ◌∷◌, ◌+◌, ◌*◌, ◌≤◌, ◌<◌, length};
ghost use Rattle.std.proofs.Math.IntN.{sub_ℕ};
ghost use Rattle.sound.specs.Mix.{signed, signed_at, floor, quotient, mixed, pseudo_absolute, instant_bytes, instant_value};
ghost use Rattle.sound.specs.Filter.{envelope_next, mean_next};

// The bytes of one instant: two for each channel; none for a mix type that is not listed.
#[tactic(auto, unfolding(crate::specs::Mix::instant_bytes, crate::specs::Mix::weights))]
pub fn instant_bytes(mix: u8) -> usize
    ensures { result ≡ instant_bytes mix }
{
    match mix {
        1 => 2,
        2 => 4,
        5 => 10,
        _ => 0,
    }
}

// A sample, given by its 16 bits, 32,768 too high, so that every sum of samples is unsigned.
fn raised(s: u16) -> u32
    ensures { (result < 65536) × (sub_ℕ result 32768 ≡ signed s) }
{
    (u32::from(s) + 32768) % 65536
}

// What is added to a sum, which is bias too high, so that its quotient by d, rounded down, is the rule's. This alone knows the rules:
// down needs nothing, and towards zero d - 1 where the sum less its bias is negative.
fn lift(rule: u8, sum: u32, bias: u32, d: u32) -> u32
    requires { 0 < d }
    ensures { (result < d) × (bias ≤ sum → result ≡ 0) × (floor (sub_ℕ (sum + result) bias) d ≡ quotient rule (sub_ℕ sum bias) d) }
{
    if rule == 2 && sum < bias { d - 1 } else { 0 }
}

// The sum, which is bias too high, divided by d, as the 16 bits of a signed sample.
// The bias of a mix is 32,768 times the sum of its weights. The quotient is worked out 32,768 too high, and so is never negative.
fn rounded(rule: u8, sum: u32, bias: u32, d: u32) -> u16
    requires { (0 < d) × (d ≤ 40000) × (bias ≤ 32768 * d) × (sum < bias + 32768 * d) }
    ensures { signed result ≡ quotient rule (sub_ℕ sum bias) d }
{
    let lifted = sum + lift(rule, sum, bias, d);
    let q = (lifted + (32768 * d - bias)) / d;
    ((q + 32768) % 65536) as u16
}

// "the 16 bits of the audio sample shall be inverted (one's complement) if the most significant bit is '1'" (000, 5.3.2).
// So a negative mix m, here its 16 bits, becomes -m-1: `proofs.Meaning.inverted_negative`.
fn pseudo_absolute(m: u16) -> u16
    ensures { result ≡ pseudo_absolute (signed m) }
{
    if m >> 15 == 1 { !m } else { m }
}

// a(i) of a mono instant, from its sample's 16 bits: it has no quotient, so both rules mix it to itself (`proofs.Meaning.mono_mixed`).
pub fn mono_value(m: u16) -> u16
    ensures { result ≡ pseudo_absolute (signed m) }
{
    pseudo_absolute(m)
}

// a(i) of a stereo instant, from its samples' 16 bits.
pub fn stereo_value(rule: u8, l: u16, r: u16) -> u16
    ensures { result ≡ pseudo_absolute (mixed rule 2 (signed l ∷ signed r ∷ [])) }
{
    let sum = 7071 * raised(l) + 7071 * raised(r);
    pseudo_absolute(rounded(rule, sum, 463405056, 20000))
}

// a(i) of a 5.1 instant, from its samples' 16 bits.
pub fn five_value(rule: u8, l: u16, r: u16, c: u16, ls: u16, rs: u16) -> u16
    ensures { result ≡ pseudo_absolute (mixed rule 5 (signed l ∷ signed r ∷ signed c ∷ signed ls ∷ signed rs ∷ [])) }
{
    let front = 7071 * raised(l) + 7071 * raised(r) + 10000 * raised(c);
    let sum = front + 5000 * raised(ls) + 5000 * raised(rs);
    pseudo_absolute(rounded(rule, sum, 1118765056, 40000))
}

// The 16 bits of the sample at a place of a block, low byte first.
fn sample(block: &[u8], at: usize) -> u16
    requires { at + 2 ≤ length block.now }
    ensures { signed result ≡ signed_at block.now at }
{
    u16::from_le_bytes([block[at], block[at + 1]])
}

// a(i), of an instant that lies whole in a block.
#[tactic(auto, unfolding(crate::specs::Mix::instant_bytes, crate::specs::Mix::weights))]
fn whole_value(rule: u8, mix: u8, block: &[u8], at: usize) -> u16
    requires { at + instant_bytes mix ≤ length block.now }
    ensures { result ≡ instant_value rule mix block.now at }
{
    match mix {
        1 => mono_value(sample(block, at)),
        2 => stereo_value(rule, sample(block, at), sample(block, at + 2)),
        5 => {
            let l = sample(block, at);
            let r = sample(block, at + 2);
            let c = sample(block, at + 4);
            let ls = sample(block, at + 6);
            let rs = sample(block, at + 8);
            five_value(rule, l, r, c, ls, rs)
        }
        _ => 0,
    }
}

// a(i), of the instant whose bytes start at a place of a block. Bytes beyond the block read as 0; a mix type that is not listed gives 0.
pub fn instant_value(rule: u8, mix: u8, block: &[u8], at: usize) -> u16
    ensures { result ≡ instant_value rule mix block.now at }
{
    if block.len() < at {
        return 0;
    }
    if instant_bytes(mix) <= block.len() - at {
        return whole_value(rule, mix, block, at);
    }
    // Not by laws::copy_at: with its loop unrolled here, this function was too large to be inlined into the loop over a block, and stereo took twice the instructions.
    let mut instant = [0; 10];
    instant[..block.len() - at].copy_from_slice(&block[at..]);
    whole_value(rule, mix, &instant, 0)
}

// E(i) from E(i-1) and a(i). What leaves is subtracted first, so that the sum fits whatever stood before.
pub fn envelope(e: u32, a: u16) -> u32
    ensures { result ≡ envelope_next e a }
{
    8 * u32::from(a) + (e - e / 1024)
}

// M(i) from M(i-1) and a(i).
pub fn mean(m: u32, a: u16) -> u32
    ensures { result ≡ mean_next m a }
{
    u32::from(a) + (m - m / 8192)
}
