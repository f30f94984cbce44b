// Where in a cadence the packets with audio may stand, for each place at which the fitting may have begun (02, A13).
ghost use Rattle.std.specs.Prelude.{◌≡◌, map};
ghost use Rattle.judging.specs.Places.{place_fitted, any_place, fit_in};

use crate::Fit;

// A fitting that begins: each place is its own next.
pub(crate) const EVERY_PLACE: [u8; 40] = [
    0, 1, 2, 3, 4, 5, 6, 7, 8, 9, 10, 11, 12, 13, 14, 15, 16, 17, 18, 19, 20, 21, 22, 23, 24, 25,
    26, 27, 28, 29, 30, 31, 32, 33, 34, 35, 36, 37, 38, 39,
];

// The place after a place of which so many bytes are due; 40 where that is not so.
fn place_fitted(rate: u8, bytes: u8, place: u8) -> u8
    ensures { result ≡ place_fitted rate bytes place }
{
    if rates::bytes_due(rate, place) != bytes {
        return 40;
    }
    rates::next_place(rate, place)
}

// The same of each place.
fn fitted(rate: u8, bytes: u8, places: [u8; 40]) -> [u8; 40]
    ensures { result ≡ map (place_fitted rate bytes) places }
{
    let mut next = places;
    for place in &mut next {
        *place = place_fitted(rate, bytes, *place);
    }
    next
}

// Whether some place is left.
#[tactic(auto, unfolding(crate::specs::Places::any_place))]
fn any_place(places: [u8; 40]) -> bool
    ensures { result ≡ any_place places }
{
    places.iter().any(|&place| place < 40)
}

// A packet of so many bytes a fingerprint, at the places left: where it fits none the fitting begins anew with it.
pub(crate) fn fit_bytes(rate: u8, bytes: u8, places: [u8; 40]) -> Fit
    ensures { result ≡ fit_in rate bytes places }
{
    let next = fitted(rate, bytes, places);
    if any_place(next) {
        return Fit {
            fault: false,
            places: next,
        };
    }
    Fit {
        fault: true,
        places: fitted(rate, bytes, EVERY_PLACE),
    }
}
