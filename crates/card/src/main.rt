// Reads a feed from standard input, makes its calls one after the other, and prints one line for each (FEED); on standard error it says why a record is bad.
#![tactic(auto)]

// The loop stands in `receive` too: one for both would be a public function that takes a closure by a `requires`, and tools/promises lets no public function have one.
fn main() {
    let mut bytes = [0; intake::LONGEST_RECORD];
    let mut line = [0; intake::LONGEST_LINE];
    let mut session = feed::open();
    let mut byte: u64 = 0;
    for number in 1..=u64::MAX {
        let read = intake::read_record(&mut bytes);
        let fed = feed::next(session, &bytes[..read], &mut line);
        io::write_all(1, &line[..fed.size]);
        if intake::stops(b"card", fed.answer, number, byte) {
            return;
        }
        session = fed.after;
        byte = byte.wrapping_add(read as u64);
    }
}
