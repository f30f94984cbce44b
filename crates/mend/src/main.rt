// Reads a recording from standard input and reports what is kept of it and what is dropped (02, A8).
#![tactic(auto)]

fn main() {
    // a byte more than the longest recording has, by which a longer one is known
    let mut recording = [0; 65537];
    // the longest report: `upper_bound` of `report`
    let mut lines = [0; 163871];
    let n = io::read_full(0, &mut recording);
    let size = mending::tool::report(&recording[..n], &mut lines);
    io::write_all(1, &lines[..size]);
}
