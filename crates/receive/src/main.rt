// Reads records from standard input, makes the calls in them on one receiver, and prints one line for each (FEED; 02, A12); on standard error it says why a record is bad.
#![tactic(auto)]

// The loop stands in `card` too: one for both would be a public function that takes a closure by a `requires`, and tools/promises lets no public function have one.
fn main() {
    let mut bytes = [0; intake::LONGEST_RECORD];
    let mut line = [0; intake::LONGEST_LINE];
    let mut receiver = receive_feed::open();
    let mut byte: u64 = 0;
    for number in 1..=u64::MAX {
        let read = intake::read_record(&mut bytes);
        let fed = receive_feed::next(receiver, &bytes[..read], &mut line);
        io::write_all(1, &line[..fed.size]);
        if intake::stops(b"receive", fed.answer, number, byte) {
            return;
        }
        receiver = fed.after;
        byte = byte.wrapping_add(read as u64);
    }
}
