// The records that the program `receive` reads (FEED): each is answered by value, and one function says an answer as the line that is printed.
#![tactic(auto)]

ghost use Rattle.std.specs.Prelude.{◌≡◌};
ghost use Rattle.std.proofs.lemmas.List.Edits.{sets};
ghost use Rattle.answers.specs.Lines.{fresh};
ghost use Rattle.answers.specs.Steps.{answers, fed_of};
ghost use Rattle.receive_feed.specs.Feed.{opening, fresh_fed, arrive_fed, next_fed, give_up_fed, fed, front, line_next};

use answers::{Answer, Cause, Fed, Hand};
use laws::Done;
use receiving::Receiver;
use records::Record;

// The receiver before the first 30h: a fresh one that expects 0.
pub fn open() -> Receiver
    ensures { result ≡ opening }
{
    Receiver::fresh(0)
}

#[tactic(auto, unfolding(crate::specs::Feed::fresh_fed, records::specs::Records::byte_at))]
fn begin(r: &mut Receiver, payload: &[u8]) -> Answer
    ensures { answers result r.new ≡ fresh_fed r.old payload.now }
{
    if payload.len() < 1 {
        return Answer::Bad(Cause::TooShort);
    }
    if 1 < payload.len() {
        return Answer::Bad(Cause::TooLong);
    }
    *r = Receiver::fresh(payload[0]);
    Answer::Receiver
}

fn arrive(r: &mut Receiver, payload: &[u8]) -> Answer
    ensures { answers result r.new ≡ arrive_fed r.old payload.now }
{
    match r.arrive(payload) {
        Ok(()) => Answer::Arrive(0),
        Err(why) => Answer::Arrive(why.number()),
    }
}

fn ask(r: &mut Receiver, payload: &[u8], work: &mut [u8]) -> Answer
    requires { work.old ≡ fresh }
    ensures { (answers result r.new ≡ (next_fed r.old payload.now).answered) × (work.new ≡ (next_fed r.old payload.now).left) }
{
    if 2 < payload.len() {
        return Answer::Bad(Cause::TooLong);
    }
    match answers::asks::room_at(payload, 0) {
        Err(cause) => Answer::Bad(cause),
        Ok(room) => {
            let done = Done::from(r.next(&mut work[..room]));
            Answer::Handed(Hand::Next, done)
        }
    }
}

#[tactic(auto, unfolding(crate::specs::Feed::give_up_fed))]
fn give_up(r: &mut Receiver, payload: &[u8]) -> Answer
    ensures { answers result r.new ≡ give_up_fed r.old payload.now }
{
    if payload.len() != 0 {
        return Answer::Bad(Cause::TooLong);
    }
    r.give_up();
    Answer::GiveUp
}

// A record by its tag and its payload.
#[tactic(auto, unfolding(crate::specs::Feed::fed))]
fn call(r: &mut Receiver, tag: u8, payload: &[u8], work: &mut [u8]) -> Answer
    requires { work.old ≡ fresh }
    ensures { (answers result r.new ≡ (fed r.old tag payload.now).answered) × (work.new ≡ (fed r.old tag payload.now).left) }
{
    match tag {
        0x30 => begin(r, payload),
        0x31 => arrive(r, payload),
        0x32 => ask(r, payload, work),
        0x33 => give_up(r, payload),
        _ => Answer::Bad(Cause::UnknownTag(tag)),
    }
}

// The record at the front of what is left of the input; none is left at its end, and one that is cut short is bad.
#[tactic(auto, unfolding(crate::specs::Feed::front, answers::specs::Steps::record_fed))]
fn answer_front(r: &mut Receiver, bytes: &[u8], work: &mut [u8]) -> Answer
    requires { work.old ≡ fresh }
    ensures { (answers result r.new ≡ (front r.old bytes.now).answered) × (work.new ≡ (front r.old bytes.now).left) }
{
    match records::record_at(bytes, 0) {
        Record::Whole { tag, start, end } => call(r, tag, &bytes[start..end], work),
        Record::Cut => Answer::Bad(Cause::CutShort),
        Record::End => Answer::Finished,
    }
}

// The same in feed, as `answer_front`: one for both would be a public function generic in the state, and the roll of uniqueness theorems (tools/promises) has none
// with a type parameter.
// The record at the front of what is left of the input, answered and said. The line's bytes stand at the front of out, as far as out has places for them.
pub fn next(r: Receiver, bytes: &[u8], out: &mut [u8]) -> Fed<Receiver>
    ensures { (result ≡ fed_of (front r bytes.now)) × (out.new ≡ sets out.old 0 (line_next r bytes.now)) }
{
    let mut after = r;
    let mut work = answers::asks::fresh_work();
    let answer = answer_front(&mut after, bytes, &mut work);
    Fed {
        size: answers::say::say(answer, &work, out),
        answer,
        after,
    }
}
