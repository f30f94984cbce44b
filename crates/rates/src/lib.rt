// The codes that 01 lists: picture rates (ST 352) with the interval D and the cadence of Table 13, which format takes which rate, and mix types.
#![tactic(auto)]

ghost use Rattle.std.specs.Prelude.{◌≡◌, length, get_or};
ghost use Rattle.rates.specs.Rates.{rate_listed, interval_of, two_fields, pairs_with};
ghost use Rattle.rates.specs.Cadence.{cadence, count_occurs, cycle_bytes, place_after, fewest, most};
ghost use Rattle.laws.specs.Sums.{sum};
ghost use Rattle.rates.specs.Mixes.{mix_listed};

mod table13;

// From one kept audio bit to the next, in samples, by rate code.
const INTERVALS: [u8; 12] = [0, 0, 52, 50, 52, 50, 52, 50, 50, 50, 52, 50];

// Whether a rate code is listed.
#[tactic(auto, unfolding(crate::specs::Rates::rate_listed))]
pub fn rate_listed(code: u8) -> bool
    ensures { result ≡ rate_listed code }
{
    matches!(code, 2..=11)
}

// The samples from one kept audio bit to the next; 0 for a code that is not listed.
#[tactic(auto, unfolding(crate::specs::Rates::interval_of))]
pub fn interval(code: u8) -> u8
    ensures { result ≡ interval_of code }
{
    INTERVALS.get(code as usize).copied().unwrap_or(0)
}

// The audio bytes that the frame at a place of the cadence asks for, places counted from 0; 0 where the cadence has no such place.
pub fn bytes_due(code: u8, place: u8) -> u8
    ensures { result ≡ get_or (cadence code) place 0 }
{
    let cadence = table13::cadence(code);
    cadence.get(place as usize).copied().unwrap_or(0)
}

// The place after a place: the cadence is cyclic.
#[tactic(auto, using(crate::proofs::Table::at_most_40), unfolding(crate::specs::Cadence::place_after))]
pub fn next_place(code: u8, place: u8) -> u8
    ensures { result ≡ place_after code place }
{
    let cadence = table13::cadence(code);
    if (place as usize) + 1 < cadence.len() {
        place + 1
    } else {
        0
    }
}

// The fewest and the most bytes that a frame of a rate's cadence has. Every count between them occurs too; a code that is not listed has none. Two numbers, where
// `contains` over the row took a quarter more of a reading's instructions.
#[tactic(auto, unfolding(crate::specs::Cadence::fewest, crate::specs::Cadence::most))]
fn ends(code: u8) -> (u8, u8)
    ensures { (result.0 ≡ get_or fewest code 1) × (result.1 ≡ get_or most code 0) }
{
    match code {
        2 => (4, 5),
        3 => (5, 5),
        4 => (2, 3),
        5 => (4, 5),
        6 => (3, 4),
        7 => (4, 4),
        8 => (2, 3),
        9 => (2, 3),
        10 => (1, 2),
        11 => (2, 2),
        _ => (1, 0),
    }
}

// Whether a container of this rate may carry fingerprints of so many bytes.
pub fn count_occurs(code: u8, count: u8) -> bool
    ensures { result ≡ count_occurs code count }
{
    let (fewest, most) = ends(code);
    fewest <= count && count <= most
}

// Whether a container of this rate may carry two video values.
#[tactic(auto, unfolding(crate::specs::Rates::two_fields))]
pub fn two_fields(code: u8) -> bool
    ensures { result ≡ two_fields code }
{
    matches!(code, 5..=7)
}

// Whether a format takes a rate.
#[tactic(auto, unfolding(crate::specs::Rates::pairs_with))]
pub fn pairs(format: u8, code: u8) -> bool
    ensures { result ≡ pairs_with format code }
{
    match format {
        0 => code == 6,
        1 => code == 5,
        3 => two_fields(code),
        2..=7 => rate_listed(code),
        _ => false,
    }
}

// Whether a mix type is listed. By `==`, which is compiled to one look at a bit: by `matches!` it became jumps, and mending a recording took twice the time.
#[tactic(auto, unfolding(crate::specs::Mixes::mix_listed))]
pub fn mix_listed(mix: u8) -> bool
    ensures { result ≡ mix_listed mix }
{
    mix == 1 || mix == 2 || mix == 5
}
