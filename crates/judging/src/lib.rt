// A judge of other makers' feeds: packet after packet it says what is wrong, by what it knows of those before (02, A13).
#![tactic(auto)]

ghost use Rattle.std.specs.Prelude.{◌≡◌};
ghost use Rattle.judging.specs.Packets.{carried};
ghost use Rattle.judging.specs.Judge.{nothing_known, counter_wrong, rate_wrong, count_wrong, places_before, fit_of, last_count, judged_with, judged_of};

use container::Contents;
use places::{EVERY_PLACE, fit_bytes};

mod places;
pub mod report;

// The faults of one packet: the number that refuses it, or 0, and then which of the others there are.
#[derive(Clone, Copy)]
pub struct Faults {
    pub refused: u8,
    pub counter: bool,
    pub rate: bool,
    pub count: bool,
    pub cadence: bool,
}

// What is known of the packets so far: whether one was accepted, and of the last of those its counter and its rate; of the last with audio how many
// fingerprints it has, 0 where there is none; and for each place of a cadence at which the fitting may have begun the place that comes next, 40 where what came
// does not fit.
#[derive(Clone, Copy)]
pub struct Known {
    accepted: bool,
    counter: u8,
    rate: u8,
    count: u8,
    places: [u8; 40],
}

#[derive(Clone, Copy)]
pub struct Judged {
    pub faults: Faults,
    pub known: Known,
}

// Whether a count of bytes fits nowhere, and the places after it.
#[derive(Clone, Copy)]
pub struct Fit {
    pub fault: bool,
    pub places: [u8; 40],
}

// A judge to whom no packet has come.
pub fn fresh() -> Known
    ensures { result ≡ nothing_known }
{
    Known {
        accepted: false,
        counter: 0,
        rate: 0,
        count: 0,
        places: EVERY_PLACE,
    }
}

#[tactic(auto, unfolding(crate::specs::Judge::counter_wrong))]
fn counter_wrong(k: Known, counter: u8) -> bool
    ensures { result ≡ counter_wrong k counter }
{
    k.accepted && counter as u32 != (k.counter as u32 + 1) % 256
}

#[tactic(auto, unfolding(crate::specs::Judge::rate_wrong))]
fn rate_wrong(k: Known, rate: u8) -> bool
    ensures { result ≡ rate_wrong k rate }
{
    k.accepted && rate != k.rate
}

// Of a packet with so many fingerprints.
#[tactic(auto, unfolding(crate::specs::Judge::count_wrong))]
fn count_wrong(k: Known, count: u8) -> bool
    ensures { result ≡ count_wrong k count }
{
    0 < count && 0 < k.count && count != k.count
}

// The places before a packet of this rate: all of them where the rate differs.
fn places_before(k: Known, rate: u8) -> [u8; 40]
    ensures { result ≡ places_before k rate }
{
    if rate_wrong(k, rate) {
        return EVERY_PLACE;
    }
    k.places
}

// How many bytes each fingerprint carries.
fn bytes_carried(c: Contents) -> u8
    ensures { result ≡ carried c }
{
    c.prints[0].size
}

// A packet without audio leaves the places as they are.
fn fit_contents(k: Known, c: Contents) -> Fit
    ensures { result ≡ fit_of k c }
{
    let places = places_before(k, c.rate);
    if c.count == 0 {
        return Fit {
            fault: false,
            places,
        };
    }
    fit_bytes(c.rate, bytes_carried(c), places)
}

// The count of the last packet with audio, this one among them.
fn last_count(k: Known, count: u8) -> u8
    ensures { result ≡ last_count k count }
{
    if count == 0 { k.count } else { count }
}

// An accepted packet, by what its container says.
fn judge_contents(k: Known, c: Contents) -> Judged
    ensures { result ≡ judged_with k c }
{
    let fit = fit_contents(k, c);
    // a variable, since no array field is covered that is stored straight from another
    let places = fit.places;
    Judged {
        faults: Faults {
            refused: 0,
            counter: counter_wrong(k, c.counter),
            rate: rate_wrong(k, c.rate),
            count: count_wrong(k, c.count),
            cadence: fit.fault,
        },
        known: Known {
            accepted: true,
            counter: c.counter,
            rate: c.rate,
            count: last_count(k, c.count),
            places,
        },
    }
}

// Judges the next packet, lent as 01 lends its words; one that is refused changes nothing.
pub fn judge(k: Known, words: &[u8]) -> Judged
    ensures { result ≡ judged_of k words.now }
{
    let mut bytes = [0u8; 255];
    let size = match packet::read_packet(words, &mut bytes) {
        Ok(size) => size,
        Err(why) => {
            return Judged {
                faults: Faults {
                    refused: why.number(),
                    counter: false,
                    rate: false,
                    count: false,
                    cadence: false,
                },
                known: k,
            };
        }
    };
    match container::read_container(&bytes[..size]) {
        Ok(contents) => judge_contents(k, contents),
        // what an accepted packet carries is an accepted container
        Err(_) => unreachable!(),
    }
}
