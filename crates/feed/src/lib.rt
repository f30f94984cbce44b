// The feed that the program `card` reads (FEED): each record is answered by value, and one function says an answer as the line that is printed.
#![tactic(auto)]

ghost use Rattle.std.specs.Prelude.{◌≡◌};
ghost use Rattle.std.proofs.lemmas.List.Edits.{sets};
ghost use Rattle.answers.specs.Lines.{fresh};
ghost use Rattle.answers.specs.Steps.{answers, fed_of};
ghost use Rattle.feed.specs.Feed.{opening, fed, front, line_next};

use answers::{Answer, Cause, Fed};
use records::Record;
use session::Session;

mod alone;
mod calls;
mod values;

// The session before the first setup: that of a refused one.
#[tactic(auto, using(crate::proofs::Opening::opening_empty))]
pub fn open() -> Session
    ensures { result ≡ opening }
{
    Session::empty()
}

// A record by its tag and its payload.
#[tactic(auto, unfolding(crate::specs::Feed::fed, crate::specs::Feed::leaves))]
fn call(s: &mut Session, tag: u8, payload: &[u8], work: &mut [u8]) -> Answer
    requires { work.old ≡ fresh }
    ensures { (answers result s.new ≡ (fed s.old tag payload.now).answered) × (work.new ≡ (fed s.old tag payload.now).left) }
{
    if tag < 0x20 {
        return calls::on_session(s, tag, payload, work);
    }
    alone::alone(tag, payload, work)
}

// The record at the front of what is left of the feed; none is left at its end, and one that is cut short is bad.
#[tactic(auto, unfolding(crate::specs::Feed::front, answers::specs::Steps::record_fed))]
fn answer_front(s: &mut Session, bytes: &[u8], work: &mut [u8]) -> Answer
    requires { work.old ≡ fresh }
    ensures { (answers result s.new ≡ (front s.old bytes.now).answered) × (work.new ≡ (front s.old bytes.now).left) }
{
    match records::record_at(bytes, 0) {
        Record::Whole { tag, start, end } => call(s, tag, &bytes[start..end], work),
        Record::Cut => Answer::Bad(Cause::CutShort),
        Record::End => Answer::Finished,
    }
}

// The same in receive_feed, as `answer_front`: one for both would be a public function generic in the state, and the roll of uniqueness theorems (tools/promises) has
// none with a type parameter.
// The record at the front of what is left of the feed, answered and said. The line's bytes stand at the front of out, as far as out has places for them.
pub fn next(s: Session, bytes: &[u8], out: &mut [u8]) -> Fed<Session>
    ensures { (result ≡ fed_of (front s bytes.now)) × (out.new ≡ sets out.old 0 (line_next s bytes.now)) }
{
    let mut after = s;
    let mut work = answers::asks::fresh_work();
    let answer = answer_front(&mut after, bytes, &mut work);
    Fed {
        size: answers::say::say(answer, &work, out),
        answer,
        after,
    }
}
