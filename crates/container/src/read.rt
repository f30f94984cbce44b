// Reading a container: the header's refusals, and the parts one after the other.
ghost use Rattle.std.specs.Prelude.{◌≡◌, ◌≤◌, length};
ghost use Rattle.laws.specs.Refusals.{number_in};
ghost use Rattle.container.specs.Parts.{id_part, video_part, print_part, run_of, audio_of, audio_part};
ghost use Rattle.container.specs.Reading.{header_number, reading_of, parts_reading};

use crate::pass::print_size;
use crate::{AudioPart, Contents, IdPart, Print, PrintPart, VideoPart, blank_print};
use laws::{Refusal, Video};

// 20 to 24: else the bytes around the parts are there.
#[tactic(auto, unfolding(crate::specs::Reading::header_number))]
pub(crate) fn check_header(s: &[u8]) -> Result<(), Refusal>
    ensures number { number_in result ≡ header_number s.now }
    ensures five { number_in result ≡ 0 → 5 ≤ length s.now }
{
    if s.len() < 5 {
        return Err(Refusal::ContainerTooShort);
    }
    if s[0] != 0 {
        return Err(Refusal::Version);
    }
    if s.len() != usize::from(s[2]) + 3 {
        return Err(Refusal::Length);
    }
    if crate::byte_sum(s) != 0 {
        return Err(Refusal::Checksum);
    }
    if !rates::rate_listed(s[3] / 16) || 8 <= s[3] % 16 {
        return Err(Refusal::RateOrFlags);
    }
    Ok(())
}

#[tactic(auto, unfolding(crate::specs::Parts::id_part))]
pub(crate) fn read_id(flag: u8, b: &[u8]) -> Option<IdPart>
    ensures { result ≡ id_part flag b.now }
{
    let mut id = [0u8; 20];
    if flag == 0 {
        return Some(IdPart { used: 0, id });
    }
    if b.len() < 21 || b[0] != 0 {
        return None;
    }
    id.copy_from_slice(&b[1..21]);
    Some(IdPart { used: 21, id })
}

#[tactic(auto, unfolding(crate::specs::Parts::video_part, crate::specs::Parts::one_field, crate::specs::Parts::both_fields))]
pub(crate) fn read_video(flag: u8, rate: u8, b: &[u8]) -> Option<VideoPart>
    ensures { result ≡ video_part flag rate b.now }
{
    if flag == 0 {
        return Some(VideoPart {
            used: 0,
            video: Video::Absent,
        });
    }
    match *b {
        [0x09, value, ..] if value <= 240 => Some(VideoPart {
            used: 2,
            video: Video::One(value),
        }),
        [0x11, one, two, ..] if rates::two_fields(rate) && one <= 240 && two <= 240 => {
            Some(VideoPart {
                used: 3,
                video: Video::Two(one, two),
            })
        }
        _ => None,
    }
}

// One fingerprint at the start of b.
fn read_print(rate: u8, b: &[u8]) -> Option<PrintPart>
    ensures { result ≡ print_part rate b.now }
{
    let used = print_size(rate, b)?;
    let mut bytes = [0u8; 5];
    laws::copy_at(&b[2..used], &mut bytes, 0);
    Some(PrintPart {
        used,
        print: Print {
            id: b[0] / 8,
            mix: b[0] % 8,
            size: b[1] / 8,
            bytes,
        },
    })
}

// n fingerprints at the start of b.
fn read_run(rate: u8, n: usize, b: &[u8]) -> Option<AudioPart>
    requires { n ≤ 32 }
    ensures { result ≡ audio_of n (run_of rate n b.now) }
{
    let mut prints = [blank_print(); 32];
    let mut at = 0;
    for k in 0..n {
        let part = read_print(rate, &b[at..])?;
        prints[k] = part.print;
        at += part.used;
    }
    if !crate::same_count(&prints[..n]) {
        return None;
    }
    Some(AudioPart {
        used: at + 1,
        count: n as u8,
        prints,
    })
}

#[tactic(auto, unfolding(crate::specs::Parts::audio_part))]
fn read_audio(flag: u8, rate: u8, b: &[u8]) -> Option<AudioPart>
    ensures { result ≡ audio_part flag rate b.now }
{
    if flag == 0 {
        return Some(AudioPart {
            used: 0,
            count: 0,
            prints: [blank_print(); 32],
        });
    }
    match b {
        [head, run @ ..] if head % 8 == 2 => read_run(rate, usize::from(head / 8) + 1, run),
        _ => None,
    }
}

// The parts, b, of a container whose fourth byte is flags.
pub(crate) fn read_parts(counter: u8, flags: u8, b: &[u8]) -> Result<Contents, Refusal>
    ensures { reading_of result ≡ parts_reading counter flags b.now }
{
    let Some(i) = read_id(flags / 4 % 2, b) else {
        return Err(Refusal::IdPart);
    };
    let Some(v) = read_video(flags / 2 % 2, flags / 16, &b[i.used..]) else {
        return Err(Refusal::VideoPart);
    };
    let used = i.used + v.used;
    let Some(a) = read_audio(flags % 2, flags / 16, &b[used..]) else {
        return Err(Refusal::AudioPart);
    };
    if used + a.used != b.len() {
        return Err(Refusal::BytesLeftOver);
    }
    // the toolchain takes an array out of a struct by a variable alone
    let id = i.id;
    let prints = a.prints;
    Ok(Contents {
        counter,
        rate: flags / 16,
        hasid: flags / 4 % 2 == 1,
        id,
        video: v.video,
        count: a.count,
        prints,
    })
}
