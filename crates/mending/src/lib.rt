// Mending recordings that were cut or overwritten: at each place a whole field whose container is accepted is kept, or a byte dropped (02, A8).
#![tactic(auto)]

ghost use Rattle.std.specs.Prelude.{◌≡◌, true, false, ◌+◌, ◌≤◌, ◌<◌, IfOk, length, drop, leb};
ghost use Rattle.std.proofs.lemmas.List.Edits.{sets};
ghost use Rattle.laws.specs.Refusals.{number_in, done_of};
ghost use Rattle.mending.specs.Fields.{field_size, acceptable};
ghost use Rattle.mending.specs.Mending.{mended, recording_number, mend_done, mend_out};
ghost use Rattle.mending.specs.Places.{gap, Stretch, Before};

use laws::Refusal;

pub mod tool;

// Whether a whole field whose container is accepted stands at the front.
fn starts_field(rest: &[u8]) -> bool
    ensures { result ≡ acceptable rest.now }
{
    if rest.len() < 3 || rest[0] != 0x01 {
        return false;
    }
    let end = records::pair_at(rest, 1) + 3;
    end <= rest.len() && container::check_container(&rest[3..end]).is_ok()
}

// The first place from a place on that starts such a field, or the recording's end.
pub(crate) fn next_field(recording: &[u8], from: usize) -> usize
    requires { from ≤ length recording.now }
    ensures { result ≡ from + gap (drop from recording.now) }
{
    for at in from..recording.len() {
        if starts_field(&recording[at..]) {
            return at;
        }
    }
    recording.len()
}

// The first place of a recording that starts such a field: 51, 50.
pub(crate) fn first_field(recording: &[u8]) -> Result<usize, Refusal>
    ensures number { number_in result ≡ recording_number recording.now }
    ensures place { IfOk result (λ first. (first ≡ gap recording.now) × (first < length recording.now)) }
{
    if 65536 < recording.len() {
        return Err(Refusal::RecordingTooLong);
    }
    let first = next_field(recording, 0);
    if first == recording.len() {
        return Err(Refusal::NothingKept);
    }
    Ok(first)
}

// Where the field at a place ends.
pub(crate) fn field_end(recording: &[u8], at: usize) -> usize
    requires { at < length recording.now }
    ensures { result ≡ at + field_size (drop at recording.now) }
{
    at + records::pair_at(recording, at + 1) + 3
}

// Where the fields end that are kept one right after the other from a place on, the first of which is known to be.
fn fields_end(recording: &[u8], at: usize) -> usize
    requires { (at < length recording.now) × (acceptable (drop at recording.now) ≡ true) }
    ensures { Stretch recording.now at result × (acceptable (drop result recording.now) ≡ false) }
{
    let mut end = field_end(recording, at);
    while end < recording.len() && starts_field(&recording[end..]) {
        end = field_end(recording, end);
    }
    end
}

// The first place that starts a field behind a place that starts none, or the recording's end.
fn place_behind(recording: &[u8], at: usize) -> usize
    requires { (at ≤ length recording.now) × (acceptable (drop at recording.now) ≡ false) }
    ensures { result ≡ at + gap (drop at recording.now) }
{
    if recording.len() <= at {
        return at;
    }
    next_field(recording, at + 1)
}

// Puts what is kept from a place on, which starts a field or is the end, into out from another place on, as far as out has places for it; the answer is how
// many bytes that is. Fields that follow one another are copied at once.
fn put_kept(recording: &[u8], from: usize, out: &mut [u8], place: usize) -> usize
    requires { Before recording.now from place }
    ensures { (result ≡ length (mended (drop from recording.now))) × (out.new ≡ sets out.old place (mended (drop from recording.now))) }
{
    let mut at = from;
    let mut next = place;
    while at < recording.len() {
        let end = fields_end(recording, at);
        laws::copy_at(&recording[at..end], out, next);
        next += end - at;
        at = place_behind(recording, end);
    }
    next - place
}

// Whether what is kept from a place on has room behind so many bytes. It is counted only where all that is left of the recording has not.
fn has_room(recording: &[u8], from: usize, size: usize, room: usize) -> bool
    requires { Before recording.now from size }
    ensures { result ≡ leb (size + length (mended (drop from recording.now))) room }
{
    size + (recording.len() - from) <= room
        || size + put_kept(recording, from, &mut [], size) <= room
}

// Mend: 51, 50, 12. The first fields that follow one another are found once, for the room and for the copy.
pub fn mend(recording: &[u8], out: &mut [u8]) -> Result<usize, Refusal>
    ensures { (done_of result ≡ mend_done recording.now (length out.old)) × (out.new ≡ mend_out recording.now out.old) }
{
    let first = first_field(recording)?;
    let end = fields_end(recording, first);
    let size = end - first;
    let next = place_behind(recording, end);
    if !has_room(recording, next, size, out.len()) {
        return Err(Refusal::NoRoom);
    }
    laws::copy_at(&recording[first..end], out, 0);
    let rest = put_kept(recording, next, out, size);
    Ok(size + rest)
}
