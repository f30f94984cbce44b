// The fields of a picture, their comparison, and the call Line (01, "Video"; 000, 5.2.3).
#![tactic(auto)]

mod compare;
mod order;

ghost use Rattle.std.specs.Prelude.{◌≡◌, ◌*◌, ◌<◌, length};
ghost use Rattle.sampling.specs.Formats.{row_of};
ghost use Rattle.picture.specs.Lines.{is_monitored};
ghost use Rattle.picture.specs.Pictures.{empty_with, fresh_picture, is_ready, restarted, handed_with, handed_out, shown_one, shown_two, frame_after, field_ended, taken, scanned, told_in, line_of, line_says, handed_values};
ghost use Rattle.picture.specs.Fields.{says_of};
ghost use Rattle.laws.specs.Video.{video_values};
ghost use Rattle.laws.specs.Refusals.{number_in};

use laws::{Refusal, Video};

// What a line tells: the field goes on, or it ended with no fingerprint, or with this one and so many pixels brighter and darker by 32 or more.
#[derive(Clone, Copy)]
pub enum Told {
    Open,
    Nothing,
    Value {
        fingerprint: u8,
        brighter: u16,
        darker: u16,
    },
}

// The frame being filled, by its field (1 or 2) and what its field 1 shows, and the frame that waits to be packed, by what it shows.
#[derive(Clone, Copy)]
pub struct Frame {
    field: u8,
    first: Video,
    ready: bool,
    shown: Video,
}

// The field being filled, with the number of its rows that are there, and the two fields before it: `newer` the one just before, `older` the second
// preceding one. As many of the two are there as `held` says.
#[derive(Clone, Copy)]
pub struct Picture {
    older: [u8; 960],
    newer: [u8; 960],
    filling: [u8; 960],
    row: usize,
    held: u8,
    frame: Frame,
}

impl Picture {
    // Nothing is held, and field 1 is expected. The frame that waits to be packed, if any, is given.
    fn empty_with(ready: bool, shown: Video) -> Picture
        ensures { result ≡ empty_with ready shown }
    {
        Picture {
            older: [0; 960],
            newer: [0; 960],
            filling: [0; 960],
            row: 0,
            held: 0,
            frame: Frame {
                field: 1,
                first: Video::Absent,
                ready,
                shown,
            },
        }
    }

    // A picture as setup gives it.
    pub fn fresh() -> Picture
        ensures { result ≡ fresh_picture }
    {
        Picture::empty_with(false, Video::Absent)
    }

    // Whether a frame waits to be packed.
    pub fn is_ready(&self) -> bool
        ensures { result ≡ is_ready self.now }
    {
        self.frame.ready
    }

    // A video restart: all is forgotten but the frame that waits to be packed.
    pub fn restart(&mut self)
        ensures { self.new ≡ restarted self.old }
    {
        *self = Picture::empty_with(self.frame.ready, self.frame.shown);
    }

    // The frame that waits is handed out, and waits no longer: what it shows.
    pub fn hand_out(&mut self) -> Video
        ensures frame { handed_with result self.new ≡ handed_out self.old }
        ensures values { video_values result ≡ handed_values self.old }
    {
        if !self.frame.ready {
            return Video::Absent;
        }
        let shown = self.frame.shown;
        self.frame.ready = false;
        self.frame.shown = Video::Absent;
        shown
    }

    // The field being filled is whole. It is compared with the older one, and only then do the slots move.
    fn end_field(&mut self, two: bool) -> Told
        ensures { scanned (Ok result) self.new ≡ field_ended self.old self.old.filling two }
    {
        let told = compare::told(self.held, &self.filling, &self.older);
        self.older = self.newer;
        self.newer = self.filling;
        self.row = 0;
        self.held = compare::held_after(self.held);
        self.frame = frame_after(self.frame, told, two);
        told
    }

    // The line that is due gives the next row of the field being filled; the 16th ends the field.
    fn take(&mut self, format: u8, line: &[u8]) -> Told
        requires { (self.old.row < 16) × ((format < 8) × (length line.now ≡ 2 * (row_of format).width)) }
        ensures { scanned (Ok result) self.new ≡ taken self.old format line.now }
    {
        let from = self.row * 60;
        let _ = sampling::sample_line(format, line, &mut self.filling[from..from + 60]);
        if self.row < 15 {
            self.row += 1;
            return Told::Open;
        }
        self.end_field(sampling::row_of(format).vstart2 != 0)
    }

    // 01's call Line, on a picture whose format is given.
    pub fn line(&mut self, format: u8, number: usize, line: &[u8]) -> Result<Told, Refusal>
        ensures answer { scanned result self.new ≡ line_of self.old format number line.now }
        ensures says { says_of (number_in result) (told_in result) ≡ line_says self.old format number line.now }
    {
        let Frame { field, ready, .. } = self.frame;
        order::check(format, field, self.row, ready, number, line.len())?;
        if number != order::due_line(sampling::row_of(format), field, self.row) {
            return Ok(Told::Open);
        }
        Ok(self.take(format, line))
    }
}

// What a frame of one field shows.
#[tactic(auto, unfolding(crate::specs::Pictures::shown_one))]
fn shown_one(told: Told) -> Video
    ensures { result ≡ shown_one told }
{
    match told {
        Told::Open | Told::Nothing => Video::Absent,
        Told::Value { fingerprint, .. } => Video::One(fingerprint),
    }
}

// What a frame of two fields shows, of which the first shows this and the second told that. No field shows two values.
#[tactic(auto, unfolding(crate::specs::Pictures::shown_two))]
fn shown_two(first: Video, second: Told) -> Video
    ensures { result ≡ shown_two first second }
{
    match (first, second) {
        (Video::One(a), Told::Value { fingerprint: b, .. }) => Video::Two(a, b),
        _ => Video::Absent,
    }
}

// The frame once the field being filled has ended and told. The end of the last field makes it ready; two: whether a frame has two fields.
#[tactic(auto, unfolding(crate::specs::Pictures::frame_after))]
fn frame_after(f: Frame, told: Told, two: bool) -> Frame
    ensures { result ≡ frame_after f told two }
{
    if two && f.field == 1 {
        return Frame {
            field: 2,
            first: shown_one(told),
            ready: false,
            shown: Video::Absent,
        };
    }
    Frame {
        field: 1,
        first: Video::Absent,
        ready: true,
        shown: if two {
            shown_two(f.first, told)
        } else {
            shown_one(told)
        },
    }
}

// Whether a line of a format is monitored, in either field: not where the format is not listed, nor where it has no such line.
pub fn is_monitored(format: u8, number: usize) -> bool
    ensures { result ≡ is_monitored format number }
{
    format < 8 && order::in_either_field(sampling::row_of(format), number)
}
