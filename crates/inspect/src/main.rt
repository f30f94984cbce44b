// Takes up to 300 bytes from standard input, reads them as a container and prints one line (01, "Figures to check against").
#![tactic(auto)]

fn main() {
    let mut input = [0u8; 300];
    let n = io::read_full(0, &mut input);
    let mut line = [0u8; 192];
    let size = report::inspect(&input[..n], &mut line);
    io::write_all(1, &line[..size]);
}
