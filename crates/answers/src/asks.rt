// What a record asks for its call: a room (FEED: "`room` is at most 4,096"), and the work buffer of which it is the front.
ghost use Rattle.std.specs.Prelude.{◌≡◌};
ghost use Rattle.answers.specs.Lines.{fresh};
ghost use Rattle.answers.specs.Rooms.{room_at};

use crate::Cause;

// The room at a place of the payload, or why it has none.
pub fn room_at(payload: &[u8], at: usize) -> Result<usize, Cause>
    ensures { result ≡ room_at payload.now at }
{
    if payload.len() < 2 || payload.len() - 2 < at {
        return Err(Cause::TooShort);
    }
    let room = records::pair_at(payload, at);
    if room <= 4096 {
        return Ok(room);
    }
    Err(Cause::RoomAbove)
}

// The work buffer, of which a call is lent the first bytes; it is filled with A5h.
pub fn fresh_work() -> [u8; 4096]
    ensures { result ≡ fresh }
{
    [0xa5; 4096]
}
