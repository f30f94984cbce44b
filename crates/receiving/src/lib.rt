// A receiver of containers that come late and twice: it holds up to eight, and hands them out in the order of their counters (02, A12).
#![tactic(auto)]

ghost use Rattle.std.specs.Prelude.{◌≡◌, ◌≤◌, Some, length};
ghost use Rattle.laws.specs.Refusals.{number_in};
ghost use Rattle.receiving.specs.Slots.{slot_of, container_in, is_held};
ghost use Rattle.receiving.specs.Receiver.{fresh_of, slot_at, arrived, arrive_of, moved_on, asked, next_of, next_out};
ghost use Rattle.receiving.specs.Numbers.{ahead, place_number};

use laws::Refusal;

// A container that is held, at the front of its bytes: memory is fixed, so they stand in an array as long as the longest.
#[derive(Clone, Copy)]
pub struct Slot {
    size: u8,
    bytes: [u8; 255],
}

impl Slot {
    fn container(&self) -> &[u8]
        ensures { result.now ≡ container_in (Some self.now) }
    {
        &self.bytes[..usize::from(self.size)]
    }
}

// What is held stands in the place that is as far on as its counter is ahead of the expected one.
#[derive(Clone, Copy)]
pub struct Receiver {
    expected: u8,
    held: [Option<Slot>; 8],
}

fn slot_of(bytes: &[u8]) -> Slot
    requires { length bytes.now ≤ 255 }
    ensures { result ≡ slot_of bytes.now }
{
    let mut kept = [0u8; 255];
    laws::copy_at(bytes, &mut kept, 0);
    Slot {
        size: bytes.len() as u8,
        bytes: kept,
    }
}

// d: how far a counter is ahead of the expected one.
fn distance(counter: u8, expected: u8) -> usize
    ensures { result ≡ ahead counter expected }
{
    usize::from(counter.wrapping_sub(expected))
}

impl Receiver {
    // A receiver that holds nothing.
    pub fn fresh(expected: u8) -> Receiver
        ensures { result ≡ fresh_of expected }
    {
        Receiver {
            expected,
            held: [None; 8],
        }
    }

    // What refuses a container that is so far ahead: 70 to 72.
    fn check_place(&self, d: usize) -> Result<(), Refusal>
        ensures { number_in result ≡ place_number d (is_held (slot_at self.now d)) }
    {
        if 128 <= d {
            return Err(Refusal::Late);
        }
        if 8 <= d {
            return Err(Refusal::TooFar);
        }
        if self.held[d].is_some() {
            return Err(Refusal::AlreadyHeld);
        }
        Ok(())
    }

    // Arrival: 20 to 28, then 70 to 72.
    pub fn arrive(&mut self, bytes: &[u8]) -> Result<(), Refusal>
        ensures { arrived result self.new ≡ arrive_of self.old bytes.now }
    {
        let contents = container::read_container(bytes)?;
        let d = distance(contents.counter, self.expected);
        self.check_place(d)?;
        self.held[d] = Some(slot_of(bytes));
        Ok(())
    }

    // Moves on by one: what was expected is no longer held, and the rest is one place nearer.
    fn move_on(&mut self)
        ensures { self.new ≡ moved_on self.old }
    {
        self.held.rotate_left(1);
        self.held[7] = None;
        self.expected = self.expected.wrapping_add(1);
    }

    // Ask for the next: 73, then 12, which leaves it held.
    pub fn next(&mut self, out: &mut [u8]) -> Result<usize, Refusal>
        ensures answer { asked result self.new ≡ next_of self.old (length out.old) }
        ensures left { out.new ≡ next_out self.old out.old }
    {
        let Some(slot) = self.held[0] else {
            return Err(Refusal::NextNotHeld);
        };
        let bytes = slot.container();
        if out.len() < bytes.len() {
            return Err(Refusal::NoRoom);
        }
        laws::copy_at(bytes, out, 0);
        self.move_on();
        Ok(bytes.len())
    }

    // Give up: the next container is waited for no longer. Never refused.
    pub fn give_up(&mut self)
        ensures { self.new ≡ moved_on self.old }
    {
        self.move_on();
    }
}
