// The calls that touch no session: tags 20h to 28h. A call with a room is lent the first bytes of the work buffer.
ghost use Rattle.std.specs.Prelude.{◌≡◌, length};
ghost use Rattle.laws.specs.Refusals.{done_of};
ghost use Rattle.answers.specs.Lines.{fresh};
ghost use Rattle.feed.specs.Alone.{sample_fed, read_fed, rewrite_done, rewrite_out, flat_cause, write_lent, carried_fed, lent_fed, room_fed, alone_fed};

use answers::{Answer, Cause, Hand};
use laws::{Done, Refusal};

// Line sampling by itself.
#[tactic(auto, unfolding(crate::specs::Alone::sample_fed, crate::specs::Alone::sample_in))]
fn sample(payload: &[u8], work: &mut [u8]) -> Answer
    requires { work.old ≡ fresh }
    ensures { (result ≡ (sample_fed payload.now).answer) × (work.new ≡ (sample_fed payload.now).left) }
{
    match answers::asks::room_at(payload, 1) {
        Err(cause) => Answer::Bad(cause),
        Ok(room) => {
            let sampled = sampling::sample_line(payload[0], &payload[3..], &mut work[..room]);
            Answer::Handed(Hand::Sample, Done::from(sampled))
        }
    }
}

// The line of document 01's program.
fn read(payload: &[u8], work: &mut [u8]) -> Answer
    requires { work.old ≡ fresh }
    ensures { (result ≡ (read_fed payload.now).answer) × (work.new ≡ (read_fed payload.now).left) }
{
    Answer::Reported(report::report(payload, work))
}

// Writes what was read; where the reading is refused, the refusal is its own.
fn rewrite(bytes: &[u8], lent: &mut [u8]) -> Result<usize, Refusal>
    ensures { (done_of result ≡ rewrite_done bytes.now (length lent.old)) × (lent.new ≡ rewrite_out bytes.now lent.old) }
{
    let contents = container::read_container(bytes)?;
    container::write_container(contents, lent)
}

// Why bytes are no flat contents.
#[tactic(auto, unfolding(crate::specs::Alone::flat_cause, records::specs::Records::byte_at))]
fn flat_cause(bytes: &[u8]) -> Cause
    ensures { result ≡ flat_cause bytes.now }
{
    if bytes.len() < 283 {
        return Cause::TooShort;
    }
    if 283 < bytes.len() {
        return Cause::TooLong;
    }
    if 1 < bytes[2] {
        return Cause::IdPresent;
    }
    if 2 < bytes[23] {
        return Cause::VideoValues;
    }
    Cause::UnusedPlace
}

// Write of flat contents; bytes that are no contents are a bad record.
#[tactic(auto, unfolding(crate::specs::Alone::write_lent, crate::specs::Alone::write_with))]
fn write(bytes: &[u8], lent: &mut [u8]) -> Answer
    ensures { (result ≡ (write_lent bytes.now lent.old).answer) × (lent.new ≡ (write_lent bytes.now lent.old).left) }
{
    match flat::unflatten(bytes) {
        None => Answer::Bad(flat_cause(bytes)),
        Some(contents) => {
            let written = container::write_container(contents, lent);
            Answer::Handed(Hand::Write, Done::from(written))
        }
    }
}

// A container carried in a packet or a recording.
#[tactic(auto, unfolding(crate::specs::Alone::carried_fed))]
fn carry(tag: u8, rest: &[u8], lent: &mut [u8]) -> Answer
    ensures { (result ≡ (carried_fed tag rest.now lent.old).answer) × (lent.new ≡ (carried_fed tag rest.now lent.old).left) }
{
    match tag {
        0x23 => Answer::Handed(Hand::Wrap, Done::from(packet::write_packet(rest, lent))),
        0x24 => Answer::Handed(Hand::Unwrap, Done::from(packet::read_packet(rest, lent))),
        0x26 => Answer::Handed(
            Hand::Stream,
            Done::from(transport::write_transport(rest, lent)),
        ),
        0x27 => Answer::Handed(
            Hand::Unstream,
            Done::from(transport::read_transport(rest, lent)),
        ),
        0x28 => Answer::Handed(Hand::Mend, Done::from(mending::mend(rest, lent))),
        _ => Answer::Bad(Cause::UnknownTag(tag)),
    }
}

// The calls from 22h on, with what follows the room.
#[tactic(auto, unfolding(crate::specs::Alone::lent_fed))]
fn lend(tag: u8, rest: &[u8], lent: &mut [u8]) -> Answer
    ensures { (result ≡ (lent_fed tag rest.now lent.old).answer) × (lent.new ≡ (lent_fed tag rest.now lent.old).left) }
{
    match tag {
        0x22 => Answer::Handed(Hand::Rewrite, Done::from(rewrite(rest, lent))),
        0x25 => write(rest, lent),
        _ => carry(tag, rest, lent),
    }
}

#[tactic(auto, unfolding(crate::specs::Alone::room_fed, crate::specs::Alone::room_in))]
fn in_room(tag: u8, payload: &[u8], work: &mut [u8]) -> Answer
    requires { work.old ≡ fresh }
    ensures { (result ≡ (room_fed tag payload.now).answer) × (work.new ≡ (room_fed tag payload.now).left) }
{
    match answers::asks::room_at(payload, 0) {
        Err(cause) => Answer::Bad(cause),
        Ok(room) => lend(tag, &payload[2..], &mut work[..room]),
    }
}

#[tactic(auto, unfolding(crate::specs::Alone::alone_fed))]
pub(crate) fn alone(tag: u8, payload: &[u8], work: &mut [u8]) -> Answer
    requires { work.old ≡ fresh }
    ensures { (result ≡ (alone_fed tag payload.now).answer) × (work.new ≡ (alone_fed tag payload.now).left) }
{
    match tag {
        0x20 => sample(payload, work),
        0x21 => read(payload, work),
        0x29.. => Answer::Bad(Cause::UnknownTag(tag)),
        _ => in_room(tag, payload, work),
    }
}
