// What the records of a feed are answered, by value, and what is said of it: the line printed for an answer, and why a record is bad (FEED).
#![tactic(auto)]

use laws::Done;
use picture::Told;

pub mod asks;
pub mod fault;
pub mod say;

// Why a record is bad.
#[derive(Clone, Copy)]
pub enum Cause {
    UnknownTag(u8),
    TooShort,
    TooLong,
    RoomAbove,
    IdPresent,
    VideoValues,
    UnusedPlace,
    OtherKind,
    CutShort,
}

// The calls that hand out bytes into a room.
#[derive(Clone, Copy)]
pub enum Hand {
    Pack,
    Sample,
    Rewrite,
    Wrap,
    Unwrap,
    Write,
    Stream,
    Unstream,
    Mend,
    Next,
}

// What the call of a record answers. Bytes that it hands out lie at the front of the work buffer.
#[derive(Clone, Copy)]
pub enum Answer {
    Setup(u8),
    Line(u8, Told),
    Sound(u8),
    Instant(u8),
    VideoRestart,
    AudioRestart,
    Receiver,
    Arrive(u8),
    GiveUp,
    Handed(Hand, Done),
    // 21h: the size of its line, which lies at the front of the work buffer.
    Reported(usize),
    Bad(Cause),
    // No record is left.
    Finished,
}

// What a record is answered, and what the next one finds: a session, or a receiver.
#[derive(Clone, Copy)]
pub struct Answered<S> {
    pub answer: Answer,
    pub after: S,
}

// The same, and how many bytes the answer's line has.
#[derive(Clone, Copy)]
pub struct Fed<S> {
    pub size: usize,
    pub answer: Answer,
    pub after: S,
}
