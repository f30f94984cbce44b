// Instants in floating point, for the fingerprints of a session in turn.
ghost use Rattle.std.specs.Prelude.{◌≡◌, ◌*◌, ◌≤◌, length};
ghost use Rattle.bench_session.specs.Instants.{turn_after, instants_heard, all_heard};

use session::Session;

// The fingerprint after k, where the last one has this number.
fn turn_after(k: usize, last: usize) -> usize
    ensures { result ≡ turn_after last k }
{
    if k < last { k + 1 } else { 0 }
}

// The first n instants that values hold one after the other.
fn instants_heard(s: &mut Session, last: usize, mix: u8, values: &[f32], n: usize)
    requires { n * mix ≤ length values.now }
    ensures { s.new ≡ instants_heard last mix values.now s.old n }
{
    let mut k = 0;
    for i in 0..n {
        let at = i * (mix as usize);
        let _ = s.instant(k, bench_audio::instant_of(mix, &values[at..]));
        k = turn_after(k, last);
    }
}

// And all of them.
pub(crate) fn all_heard(s: &mut Session, count: usize, mix: u8, values: &[f32])
    ensures { s.new ≡ all_heard count mix values.now s.old }
{
    if mix != 0 && count != 0 {
        instants_heard(s, count - 1, mix, values, values.len() / (mix as usize));
    }
}
