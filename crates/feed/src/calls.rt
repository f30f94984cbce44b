// The calls on a session: tags 10h to 17h.
ghost use Rattle.std.specs.Prelude.{◌≡◌};
ghost use Rattle.laws.specs.Refusals.{number_in};
ghost use Rattle.session.specs.Session.{setup_of, video_restarted, audio_restarted};
ghost use Rattle.answers.specs.declared.Answer.TheVariants.{VideoRestart, AudioRestart};
ghost use Rattle.answers.specs.Lines.{fresh};
ghost use Rattle.answers.specs.Steps.{answers};
ghost use Rattle.feed.specs.Calls.{begun, setup_fed, ruled_fed, line_fed, sound_fed, pack_fed, restart_fed, instant_fed, session_fed};

use crate::values::instant_in;
use answers::{Answer, Cause, Hand};
use laws::{Done, Refusal};
use picture::Told;
use session::Session;

// A call that hands out nothing is told by its number alone.
fn number_in(answer: Result<(), Refusal>) -> u8
    ensures { result ≡ number_in answer }
{
    match answer {
        Ok(()) => 0,
        Err(why) => why.number(),
    }
}

// A refused setup gives an empty session.
#[tactic(auto, unfolding(crate::specs::Calls::begun))]
fn begin(s: &mut Session, format: u8, rate: u8, rule: u8, mixes: &[u8]) -> Answer
    ensures { answers result s.new ≡ begun (setup_of format rate rule mixes.now) }
{
    Answer::Setup(number_in(s.setup(format, rate, rule, mixes)))
}

// Setup by rule 1.
#[tactic(auto, using(laws::proofs::Lists::tail_part), unfolding(crate::specs::Calls::setup_fed, records::specs::Records::byte_at))]
fn setup(s: &mut Session, payload: &[u8]) -> Answer
    ensures { answers result s.new ≡ setup_fed s.old payload.now }
{
    if payload.len() < 2 {
        return Answer::Bad(Cause::TooShort);
    }
    begin(s, payload[0], payload[1], 1, &payload[2..])
}

// Setup by the rule that the record names.
#[tactic(auto, using(laws::proofs::Lists::tail_part), unfolding(crate::specs::Calls::ruled_fed, records::specs::Records::byte_at))]
fn ruled(s: &mut Session, payload: &[u8]) -> Answer
    ensures { answers result s.new ≡ ruled_fed s.old payload.now }
{
    if payload.len() < 3 {
        return Answer::Bad(Cause::TooShort);
    }
    begin(s, payload[0], payload[1], payload[2], &payload[3..])
}

#[tactic(auto, using(laws::proofs::Lists::tail_part), unfolding(crate::specs::Calls::line_fed, crate::specs::Calls::lined))]
fn line(s: &mut Session, payload: &[u8]) -> Answer
    ensures { answers result s.new ≡ line_fed s.old payload.now }
{
    if payload.len() < 2 {
        return Answer::Bad(Cause::TooShort);
    }
    match s.line(records::pair_at(payload, 0), &payload[2..]) {
        Ok(told) => Answer::Line(0, told),
        Err(why) => Answer::Line(why.number(), Told::Open),
    }
}

#[tactic(auto, using(laws::proofs::Lists::tail_part), unfolding(crate::specs::Calls::sound_fed, crate::specs::Calls::sounded, records::specs::Records::byte_at))]
fn sound(s: &mut Session, payload: &[u8]) -> Answer
    ensures { answers result s.new ≡ sound_fed s.old payload.now }
{
    if payload.len() < 1 {
        return Answer::Bad(Cause::TooShort);
    }
    Answer::Sound(number_in(s.sound(payload[0] as usize, &payload[1..])))
}

#[tactic(auto, unfolding(crate::specs::Calls::pack_fed, crate::specs::Calls::pack_in))]
fn pack(s: &mut Session, payload: &[u8], work: &mut [u8]) -> Answer
    requires { work.old ≡ fresh }
    ensures { (answers result s.new ≡ (pack_fed s.old payload.now).answered) × (work.new ≡ (pack_fed s.old payload.now).left) }
{
    match answers::asks::room_at(payload, 0) {
        Err(cause) => Answer::Bad(cause),
        Ok(room) => {
            let packed = s.pack(&payload[2..], &mut work[..room]);
            Answer::Handed(Hand::Pack, Done::from(packed))
        }
    }
}

// A restart has no payload. Two functions, for the session's two methods: one that took the method as a closure would need a clause that says what the closure does.
#[tactic(auto, unfolding(crate::specs::Calls::restart_fed))]
fn video_restart(s: &mut Session, payload: &[u8]) -> Answer
    ensures { answers result s.new ≡ restart_fed s.old (video_restarted s.old) VideoRestart payload.now }
{
    if payload.len() != 0 {
        return Answer::Bad(Cause::TooLong);
    }
    s.video_restart();
    Answer::VideoRestart
}

#[tactic(auto, unfolding(crate::specs::Calls::restart_fed))]
fn audio_restart(s: &mut Session, payload: &[u8]) -> Answer
    ensures { answers result s.new ≡ restart_fed s.old (audio_restarted s.old) AudioRestart payload.now }
{
    if payload.len() != 0 {
        return Answer::Bad(Cause::TooLong);
    }
    s.audio_restart();
    Answer::AudioRestart
}

#[tactic(auto, unfolding(crate::specs::Calls::instant_fed, crate::specs::Calls::instant_with, crate::specs::Calls::instanted, records::specs::Records::byte_at))]
fn instant(s: &mut Session, payload: &[u8]) -> Answer
    ensures { answers result s.new ≡ instant_fed s.old payload.now }
{
    match instant_in(payload) {
        Err(cause) => Answer::Bad(cause),
        Ok(i) => Answer::Instant(number_in(s.instant(payload[0] as usize, i))),
    }
}

#[tactic(auto, unfolding(crate::specs::Calls::session_fed))]
pub(crate) fn on_session(s: &mut Session, tag: u8, payload: &[u8], work: &mut [u8]) -> Answer
    requires { work.old ≡ fresh }
    ensures { (answers result s.new ≡ (session_fed s.old tag payload.now).answered) × (work.new ≡ (session_fed s.old tag payload.now).left) }
{
    match tag {
        0x10 => setup(s, payload),
        0x11 => line(s, payload),
        0x12 => sound(s, payload),
        0x13 => pack(s, payload, work),
        0x14 => video_restart(s, payload),
        0x15 => audio_restart(s, payload),
        0x16 => instant(s, payload),
        0x17 => ruled(s, payload),
        _ => Answer::Bad(Cause::UnknownTag(tag)),
    }
}
