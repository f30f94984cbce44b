// The fingerprints of a session, one after the other.
ghost use Rattle.std.specs.Prelude.{◌≡◌, ◌≤◌, length};
ghost use Rattle.std.specs.List.{list_all};
ghost use Rattle.std.specs.Prelude.{take};
ghost use Rattle.rates.specs.Mixes.{mix_listed};
ghost use Rattle.fingerprint.specs.State.{holds_of};
ghost use Rattle.session.specs.Fingerprints.{each, all_listed, fresh_fingerprints, cleared, all_hold, part_of, parts_of};

use container::Print;
use fingerprint::Fingerprint;

// What a container says of a fingerprint, and the fingerprint without those bytes.
#[derive(Clone, Copy)]
pub(crate) struct Part {
    pub(crate) print: Print,
    pub(crate) left: Fingerprint,
}

// The same of all fingerprints.
#[derive(Clone, Copy)]
pub(crate) struct Parts {
    pub(crate) said: [Print; 32],
    pub(crate) left: [Fingerprint; 32],
}

// Whether every mix type is listed.
pub(crate) fn all_listed(mixes: &[u8]) -> bool
    ensures { result ≡ list_all mix_listed mixes.now }
{
    mixes.iter().all(|&mix| rates::mix_listed(mix))
}

// A fresh fingerprint for each mix type; the places after them have none.
pub(crate) fn fresh_fingerprints(mixes: &[u8]) -> [Fingerprint; 32]
    requires { length mixes.now ≤ 32 }
    ensures { result ≡ fresh_fingerprints mixes.now }
{
    let mut fingerprints = [Fingerprint::fresh(0); 32];
    for (k, &mix) in mixes.iter().enumerate() {
        fingerprints[k] = Fingerprint::fresh(mix);
    }
    fingerprints
}

// The first n cleared, as an audio restart does.
pub(crate) fn clear(fingerprints: [Fingerprint; 32], n: usize) -> [Fingerprint; 32]
    requires { n ≤ 32 }
    ensures { result ≡ each cleared n fingerprints }
{
    let mut next = fingerprints;
    for k in 0..n {
        next[k].restart();
    }
    next
}

// Whether each of the first n holds the whole bytes that are due.
pub(crate) fn all_hold(fingerprints: [Fingerprint; 32], n: usize, due: usize) -> bool
    requires { n ≤ 32 }
    ensures { result ≡ list_all (λ f. holds_of f due) (take n fingerprints) }
{
    fingerprints[..n].iter().all(|f| f.holds(due))
}

// Fingerprint k as a container says it, with ID k and the bytes that are due, and the fingerprint without them.
fn say(k: u8, f: Fingerprint, due: u8) -> Part
    ensures { result ≡ part_of k due f }
{
    let mut left = f;
    let bytes = left.take(usize::from(due));
    Part {
        print: Print {
            id: k,
            mix: f.mix_type(),
            size: due,
            bytes,
        },
        left,
    }
}

// The first n as a container says them, blank places after them, and all of them afterwards: each one's bytes are taken once.
pub(crate) fn say_all(fingerprints: [Fingerprint; 32], n: usize, due: u8) -> Parts
    requires { n ≤ 32 }
    ensures { result ≡ parts_of due n fingerprints }
{
    let mut said = [container::blank_print(); 32];
    let mut left = fingerprints;
    for k in 0..n {
        let p = say(k as u8, left[k], due);
        said[k] = p.print;
        left[k] = p.left;
    }
    Parts { said, left }
}
