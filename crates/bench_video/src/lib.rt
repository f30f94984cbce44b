// The call Line as bench/video.sh measures it.
#![tactic(auto)]

ghost use Rattle.std.specs.Prelude.{◌≡◌, ◌<◌, length};
ghost use Rattle.bench_video.specs.Bench.{value_of, step_of, after_lines};

use picture::{Picture, Told};

#[derive(Clone, Copy)]
struct After {
    picture: Picture,
    sum: u32,
}

// Each value told, so that none is left out of what is measured, and the darker pixels twice, so that no two can change places.
#[tactic(auto, unfolding(crate::specs::Bench::value_of))]
fn value(told: Told) -> u32
    ensures { (result ≡ value_of told) × (result < 1000000) }
{
    match told {
        Told::Open | Told::Nothing => 0,
        Told::Value {
            fingerprint,
            brighter,
            darker,
        } => u32::from(fingerprint) + u32::from(brighter) + 2 * u32::from(darker),
    }
}

impl After {
    // One line; a frame that is ready is handed out. A refusal tells nothing of a field.
    fn step(&mut self, format: u8, number: usize, line: &[u8])
        ensures { self.new ≡ step_of self.old format number line.now }
    {
        let told = self
            .picture
            .line(format, number, line)
            .unwrap_or(Told::Open);
        let _ = self.picture.hand_out();
        self.sum = self.sum % 1000000 + value(told);
    }
}

// The lines of these numbers. Two lines are lent, one after the other: two fields in four take the first, the others the second.
#[unsafe(no_mangle)]
pub extern "C" fn bench_lines(format: u8, numbers: &[usize], lines: &[u8]) -> u32
    ensures { result ≡ (after_lines format numbers.now lines.now (length numbers.now)).sum }
{
    let mut a = After {
        picture: Picture::fresh(),
        sum: 0,
    };
    let half = lines.len() / 2;
    for (i, &number) in numbers.iter().enumerate() {
        let from = if i / 16 % 4 < 2 { 0 } else { half };
        a.step(format, number, &lines[from..from + half]);
    }
    a.sum
}
