// Refusal 29: whether some reading gives these contents.
ghost use Rattle.std.specs.Prelude.{◌≡◌, ◌++◌, length};
ghost use Rattle.container.specs.Writing.{all_zero, id_readable, video_readable, print_readable, print_blank, prints_readable};
ghost use Rattle.container.specs.Writing as writing;

use crate::{Contents, Print, blank_print};
use laws::Video;

fn all_zero(s: &[u8]) -> bool
    ensures { result ≡ all_zero s.now }
{
    s.iter().all(|&b| b == 0)
}

#[tactic(auto, unfolding(crate::specs::Writing::id_readable))]
fn id_readable(present: bool, id: [u8; 20]) -> bool
    ensures { result ≡ id_readable present id }
{
    present || all_zero(&id)
}

#[tactic(auto, unfolding(crate::specs::Writing::video_readable))]
fn video_readable(rate: u8, v: Video) -> bool
    ensures { result ≡ video_readable rate v }
{
    match v {
        Video::Absent => true,
        Video::One(a) => a <= 240,
        Video::Two(a, b) => a <= 240 && b <= 240 && rates::two_fields(rate),
    }
}

#[tactic(auto, unfolding(crate::specs::Writing::print_readable))]
fn print_readable(rate: u8, p: Print) -> bool
    ensures { result ≡ print_readable rate p }
{
    p.id <= 31
        && rates::mix_listed(p.mix)
        && rates::count_occurs(rate, p.size)
        && all_zero(&p.bytes[usize::from(p.size)..])
}

fn print_blank(p: Print) -> bool
    ensures { result ≡ print_blank p }
{
    p == blank_print()
}

// A fingerprint in each place that is used, and blank places after them.
fn prints_readable(rate: u8, used: &[Print], unused: &[Print]) -> bool
    ensures { result ≡ prints_readable rate (length used.now) (used.now ++ unused.now) }
{
    used.iter().all(|&p| print_readable(rate, p)) && unused.iter().all(|&p| print_blank(p))
}

#[tactic(auto, unfolding(crate::specs::Writing::readable))]
pub(crate) fn readable(c: Contents) -> bool
    ensures { result ≡ writing.readable c }
{
    let n = usize::from(c.count);
    rates::rate_listed(c.rate)
        && id_readable(c.hasid, c.id)
        && video_readable(c.rate, c.video)
        && n <= 32
        && prints_readable(c.rate, &c.prints[..n], &c.prints[n..])
        && crate::same_count(&c.prints[..n])
}
