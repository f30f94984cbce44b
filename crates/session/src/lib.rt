// The card's software as one value and seven calls: Setup, Line, Sound, an instant in floating point, Pack and the two restarts (01, "What the card's software does",
// "What a caller is told"; 02, A3 and A9).
#![tactic(auto)]

ghost use Rattle.std.specs.Prelude.{◌≡◌, ◌≤◌, length};
ghost use Rattle.picture.specs.Fields.{says_of};
ghost use Rattle.picture.specs.Pictures.{told_in};
ghost use Rattle.laws.specs.Refusals.{number_in};
ghost use Rattle.session.specs.Session.{is_set, rule_listed, setup_number, set_up_with, empty_session, begun, setup_of, lined, line_of, line_says, reached, sounded, sound_of, instant_of, video_restarted, audio_restarted};
ghost use Rattle.session.specs.Packing.{pack_number, packed, pack_of, pack_out};

use fingerprint::Fingerprint;
use floats::Instant;
use laws::Refusal;
use picture::{Picture, Told};

mod fingerprints;
mod packing;

// What Setup fixes. An empty session has no fingerprint: count 0.
#[derive(Clone, Copy)]
pub struct Settings {
    format: u8,
    rate: u8,
    rule: u8,
    count: u8,
}

// What a session has beside its fingerprints: the counter of its next container, and the place of the cadence, counted from 0.
#[derive(Clone, Copy)]
pub struct Programme {
    settings: Settings,
    picture: Picture,
    counter: u8,
    place: u8,
}

#[derive(Clone, Copy)]
pub struct Session {
    programme: Programme,
    fingerprints: [Fingerprint; 32],
}

// Whether there is a session, and not an empty one.
#[tactic(auto, unfolding(crate::specs::Session::is_set))]
fn is_set(s: Settings) -> bool
    ensures { result ≡ is_set s }
{
    rates::pairs(s.format, s.rate) && 1 <= s.count && s.count <= 32
}

// Whether a mixing rule is listed.
#[tactic(auto, unfolding(crate::specs::Session::rule_listed))]
fn rule_listed(rule: u8) -> bool
    ensures { result ≡ rule_listed rule }
{
    matches!(rule, 1 | 2)
}

// 1 where the format, the rate, their pairing, the mixing rule, the number of mix types or one of them is not listed.
#[tactic(auto, using(crate::proofs::Lists::listed_all), unfolding(crate::specs::Session::setup_number))]
fn check_setup(format: u8, rate: u8, rule: u8, mixes: &[u8]) -> Result<(), Refusal>
    ensures { number_in result ≡ setup_number format rate rule mixes.now }
{
    let listed = rates::pairs(format, rate)
        && rule_listed(rule)
        && 1 <= mixes.len()
        && mixes.len() <= 32
        && fingerprints::all_listed(mixes);
    if listed {
        Ok(())
    } else {
        Err(Refusal::NotListed)
    }
}

// What refuses all sound for fingerprint k: 1 for an empty session, 7.
fn check_reach(s: Settings, k: usize) -> Result<(), Refusal>
    ensures { number_in result ≡ reached s k 0 }
{
    if !is_set(s) {
        Err(Refusal::NotListed)
    } else if s.count as usize <= k {
        Err(Refusal::NoSuchFingerprint)
    } else {
        Ok(())
    }
}

impl Session {
    // A session as setup makes it, from a number of mix types that it takes.
    fn set_up(format: u8, rate: u8, rule: u8, count: u8, mixes: &[u8]) -> Session
        requires { length mixes.now ≤ 32 }
        ensures { result ≡ set_up_with format rate rule count mixes.now }
    {
        Session {
            programme: Programme {
                settings: Settings {
                    format,
                    rate,
                    rule,
                    count,
                },
                picture: Picture::fresh(),
                counter: 0,
                place: 0,
            },
            fingerprints: fingerprints::fresh_fingerprints(mixes),
        }
    }

    // An empty session: what a refused setup gives.
    pub fn empty() -> Session
        ensures { result ≡ empty_session }
    {
        Session::set_up(0, 0, 0, 0, &[])
    }

    // Setup: 1, and the session is then an empty one. The rule mixes all sound of the session.
    pub fn setup(&mut self, format: u8, rate: u8, rule: u8, mixes: &[u8]) -> Result<(), Refusal>
        ensures { begun result self.new ≡ setup_of format rate rule mixes.now }
    {
        *self = Session::empty();
        check_setup(format, rate, rule, mixes)?;
        *self = Session::set_up(format, rate, rule, mixes.len() as u8, mixes);
        Ok(())
    }

    // Line: 1 for an empty session, then 2 to 5.
    pub fn line(&mut self, number: usize, line: &[u8]) -> Result<Told, Refusal>
        ensures answer { lined result self.new ≡ line_of self.old number line.now }
        ensures says { says_of (number_in result) (told_in result) ≡ line_says self.old number line.now }
    {
        let settings = self.programme.settings;
        if !is_set(settings) {
            return Err(Refusal::NotListed);
        }
        self.programme.picture.line(settings.format, number, line)
    }

    // Sound: 1 for an empty session, 7, then 8 and 9.
    pub fn sound(&mut self, k: usize, block: &[u8]) -> Result<(), Refusal>
        ensures { sounded result self.new ≡ sound_of self.old k block.now }
    {
        let settings = self.programme.settings;
        check_reach(settings, k)?;
        let d = rates::interval(settings.rate);
        self.fingerprints[k].check_sound(d, block.len())?;
        self.fingerprints[k].hear(settings.rule, d, block);
        Ok(())
    }

    // An instant in floating point: 1 for an empty session, 7, then 14 and 9.
    pub fn instant(&mut self, k: usize, i: Instant) -> Result<(), Refusal>
        ensures { sounded result self.new ≡ instant_of self.old k i }
    {
        let settings = self.programme.settings;
        check_reach(settings, k)?;
        let d = rates::interval(settings.rate);
        self.fingerprints[k].check_instant(d, i)?;
        self.fingerprints[k].hear_instant(settings.rule, d, i);
        Ok(())
    }

    // A video restart is never refused; an empty session stays as it is.
    pub fn video_restart(&mut self)
        ensures { self.new ≡ video_restarted self.old }
    {
        if is_set(self.programme.settings) {
            self.programme.picture.restart();
        }
    }

    // An audio restart clears all fingerprints and sets the cadence to its first frame; an empty session stays as it is.
    pub fn audio_restart(&mut self)
        ensures { self.new ≡ audio_restarted self.old }
    {
        let settings = self.programme.settings;
        if is_set(settings) {
            self.fingerprints = fingerprints::clear(self.fingerprints, settings.count as usize);
            self.programme.place = 0;
        }
    }

    // 1 for an empty session, 10, 11.
    #[tactic(auto, unfolding(crate::specs::Packing::pack_number, crate::specs::Packing::ready_number))]
    fn check_pack(&self, given: usize) -> Result<(), Refusal>
        ensures { number_in result ≡ pack_number self.now given }
    {
        if !is_set(self.programme.settings) {
            Err(Refusal::NotListed)
        } else if !self.programme.picture.is_ready() {
            Err(Refusal::NoReadyFrame)
        } else if matches!(given, 0 | 20) {
            Ok(())
        } else {
            Err(Refusal::IdLength)
        }
    }

    // Pack: 1 for an empty session, 10, 11, 12.
    pub fn pack(&mut self, id: &[u8], out: &mut [u8]) -> Result<usize, Refusal>
        ensures answer { packed result self.new ≡ pack_of self.old id.now (length out.old) }
        ensures left { out.new ≡ pack_out self.old id.now out.old }
    {
        self.check_pack(id.len())?;
        let packing = packing::make(*self, id);
        let written = container::write_container(packing.contents, out)?;
        *self = packing.session;
        Ok(written)
    }
}
