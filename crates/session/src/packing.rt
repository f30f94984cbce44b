// What a container packed from a session says, and the session after it (01, "Packing needs a ready frame ..").
ghost use Rattle.std.specs.Prelude.{◌≡◌, ◌≤◌};
ghost use Rattle.session.specs.Packing.{id_of, spoken_with, counter_after, place_with, packing_of};

use crate::fingerprints::{all_hold, say_all};
use crate::{Programme, Session};
use container::Contents;

// What a container says, and the session after it, made together.
#[derive(Clone, Copy)]
pub(crate) struct Packing {
    pub(crate) contents: Contents,
    pub(crate) session: Session,
}

// The ID's 20 bytes where they are lent, else zeros.
#[tactic(auto, unfolding(crate::specs::Packing::id_of))]
fn id_bytes(id: &[u8]) -> [u8; 20]
    ensures { result ≡ id_of id.now }
{
    let mut bytes = [0; 20];
    if id.len() == 20 {
        bytes.copy_from_slice(id);
    }
    bytes
}

// "from 0, 255 to 0"
#[tactic(auto, unfolding(crate::specs::Packing::counter_after))]
fn counter_after(counter: u8) -> u8
    ensures { result ≡ counter_after counter }
{
    counter.wrapping_add(1)
}

// The number of fingerprints that the container has: all or none.
fn spoken(audio: bool, count: u8) -> u8
    ensures { result ≡ spoken_with audio count }
{
    if audio { count } else { 0 }
}

// The cadence moves on only with audio.
fn place_after(audio: bool, rate: u8, place: u8) -> u8
    ensures { result ≡ place_with audio rate place }
{
    if audio {
        rates::next_place(rate, place)
    } else {
        place
    }
}

// What the container says, and the session once it is packed.
pub(crate) fn make(s: Session, id: &[u8]) -> Packing
    requires { s.programme.settings.count ≤ 32 }
    ensures { result ≡ packing_of s id.now }
{
    let p = s.programme;
    let settings = p.settings;
    let due = rates::bytes_due(settings.rate, p.place);
    let audio = all_hold(s.fingerprints, settings.count as usize, due as usize);
    let count = spoken(audio, settings.count);
    let parts = say_all(s.fingerprints, count as usize, due);
    let mut picture = p.picture;
    let shown = picture.hand_out();
    let said = parts.said;
    let left = parts.left;
    let bytes = id_bytes(id);
    Packing {
        contents: Contents {
            counter: p.counter,
            rate: settings.rate,
            hasid: id.len() == 20,
            id: bytes,
            video: shown,
            count,
            prints: said,
        },
        session: Session {
            programme: Programme {
                settings,
                picture,
                counter: counter_after(p.counter),
                place: place_after(audio, settings.rate, p.place),
            },
            fingerprints: left,
        },
    }
}
