// 000, Table 13: audio bytes per frame, by rate code.
ghost use Rattle.std.specs.Prelude.{◌≡◌};
ghost use Rattle.rates.specs.Cadence.{cadence, cycle_bytes};
ghost use Rattle.laws.specs.Sums.{sum};

// One cycle of a rate's cadence, with what it makes; none for a code that is not listed. The table stands in a `match`, which copies no row when one is looked up.
#[tactic(auto, unfolding(crate::specs::Cadence::cadence, crate::specs::Cadence::cadences, crate::specs::Cadence::frames, crate::specs::Cadence::from, crate::specs::Cadence::cycle_bytes, crate::specs::Cadence::cycles, laws::specs::Lists::is_one_of, laws::specs::Sums::sum))]
pub(crate) fn cadence(code: u8) -> &'static [u8]
    ensures { (result.now ≡ cadence code) × (sum result.now ≡ cycle_bytes code) }
{
    match code {
        // 23.98
        2 => &[4, 5, 5, 5, 5, 4, 5, 5, 5, 5, 4, 5, 5, 5, 5, 5],
        // 24
        3 => &[5],
        // 47.95
        4 => &[
            2, 2, 3, 2, 3, 2, 2, 3, 2, 3, 2, 2, 3, 2, 3, 2, 2, 3, 2, 3, 2, 2, 3, 2, 3, 2, 2, 3, 2,
            3, 2, 3,
        ],
        // 25
        5 => &[4, 5, 5, 5, 5],
        // 29.97
        6 => &[3, 4, 4, 4, 4, 4, 3, 4, 4, 4, 4, 4, 4, 3, 4, 4, 4, 4, 4, 4],
        // 30
        7 => &[4],
        // 48
        8 => &[2, 3],
        // 50
        9 => &[2, 2, 3, 2, 3],
        // 59.94
        10 => &[
            1, 2, 2, 2, 2, 2, 2, 2, 2, 2, 2, 2, 2, 1, 2, 2, 2, 2, 2, 2, 2, 2, 2, 2, 2, 2, 1, 2, 2,
            2, 2, 2, 2, 2, 2, 2, 2, 2, 2, 2,
        ],
        // 60
        11 => &[2],
        _ => &[],
    }
}
