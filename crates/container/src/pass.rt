// Passing over the parts of a container: the number that a reading answers, with nothing made of what they say.
ghost use Rattle.std.specs.Prelude.{◌≡◌, ◌≤◌};
ghost use Rattle.std.specs.Option.{option_map};
ghost use Rattle.laws.specs.Refusals.{number_in};
ghost use Rattle.container.specs.Parts.{print_part, run_of, audio_of, audio_part};
ghost use Rattle.container.specs.Passing.{is_alike};
ghost use Rattle.container.specs.Reading.{parts_reading};

use crate::read::{read_id, read_video};
use laws::Refusal;

// The bytes that a fingerprint at the start of b takes, where it is right.
#[tactic(auto, unfolding(crate::specs::Parts::print_part, crate::specs::Parts::print_at))]
pub(crate) fn print_size(rate: u8, b: &[u8]) -> Option<usize>
    ensures { result ≡ option_map (λ p. p.used) (print_part rate b.now) }
{
    if b.len() < 2 || !rates::mix_listed(b[0] % 8) || b[1] % 8 != 0 {
        return None;
    }
    let size = b[1] / 8;
    let end = usize::from(size) + 2;
    if !rates::count_occurs(rate, size) || b.len() < end {
        return None;
    }
    Some(end)
}

// Whether a fingerprint at the start of b is right where its second byte has to be that of a right one, counted.
#[tactic(auto, unfolding(crate::specs::Passing::is_alike))]
fn is_alike(counted: u8, b: &[u8]) -> bool
    ensures { result ≡ is_alike counted b.now }
{
    usize::from(counted / 8) + 2 <= b.len() && b[1] == counted && rates::mix_listed(b[0] % 8)
}

// The bytes of the part that n fingerprints at the start of b make with the byte before them, where each is right and like the first in its count.
fn run_size(rate: u8, n: usize, b: &[u8]) -> Option<usize>
    requires { 1 ≤ n }
    ensures { result ≡ option_map (λ a. a.used) (audio_of n (run_of rate n b.now)) }
{
    let size = print_size(rate, b)?;
    let counted = b[1];
    let mut at = 0;
    for _ in 0..n {
        if !is_alike(counted, &b[at..]) {
            return None;
        }
        at += size;
    }
    Some(at + 1)
}

// The bytes of the audio part at the start of b, where it is right.
#[tactic(auto, unfolding(crate::specs::Parts::audio_part))]
fn pass_audio(flag: u8, rate: u8, b: &[u8]) -> Option<usize>
    ensures { result ≡ option_map (λ a. a.used) (audio_part flag rate b.now) }
{
    if flag == 0 {
        return Some(0);
    }
    match b {
        [head, run @ ..] if head % 8 == 2 => run_size(rate, usize::from(head / 8) + 1, run),
        _ => None,
    }
}

// What the parts, b, of a container whose fourth byte is flags, are refused for: 25 to 28. It stands beside `read::read_parts` for speed: a packet whose container was
// judged through that one, which makes all contents, took 1.7 times the plain program's time, where 1.2 is asked for (docs/PERFORMANCE.md, "Transport packets").
pub(crate) fn check_parts(flags: u8, b: &[u8]) -> Result<(), Refusal>
    ensures { number_in result ≡ (parts_reading 0 flags b.now).number }
{
    let Some(i) = read_id(flags / 4 % 2, b) else {
        return Err(Refusal::IdPart);
    };
    let Some(v) = read_video(flags / 2 % 2, flags / 16, &b[i.used..]) else {
        return Err(Refusal::VideoPart);
    };
    let used = i.used + v.used;
    let Some(audio) = pass_audio(flags % 2, flags / 16, &b[used..]) else {
        return Err(Refusal::AudioPart);
    };
    if used + audio == b.len() {
        Ok(())
    } else {
        Err(Refusal::BytesLeftOver)
    }
}
