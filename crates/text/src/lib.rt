// Line writing: text put into a lent buffer piece after piece. Each function is given a place and answers the place after what it put.
// Bytes that the buffer has no place for are left out.
#![tactic(auto)]

ghost use Rattle.std.specs.Prelude.{◌≡◌, ◌<◌};
ghost use Rattle.text.specs.Spelling.{digit_of, digits_of, decimal_text, glyph_of, hex_of, hex_text};
ghost use Rattle.text.specs.Lines.{Put, item, refused_text};

pub fn put(piece: &[u8], out: &mut [u8], at: usize) -> usize
    ensures { Put out.old at piece.now out.new result }
{
    laws::copy_at(piece, out, at);
    at.saturating_add(piece.len())
}

fn put_digit(d: u64, out: &mut [u8], at: usize) -> usize
    requires { d < 10 }
    ensures { Put out.old at (digit_of d) out.new result }
{
    put(&[b'0' + d as u8], out, at)
}

// At most so many digits.
fn put_digits(most: usize, n: u64, out: &mut [u8], at: usize) -> usize
    ensures { Put out.old at (digits_of most n) out.new result }
{
    if most == 0 {
        return at;
    }
    if n < 10 {
        return put_digit(n, out, at);
    }
    let p = put_digits(most - 1, n / 10, out, at);
    put_digit(n % 10, out, p)
}

// A number in decimal, with no zero in front.
pub fn put_number(n: u64, out: &mut [u8], at: usize) -> usize
    ensures { Put out.old at (decimal_text n) out.new result }
{
    put_digits(20, n, out, at)
}

// A word and the number after it.
pub fn put_item(word: &[u8], n: u64, out: &mut [u8], at: usize) -> usize
    ensures { Put out.old at (item word.now n) out.new result }
{
    let p = put(word, out, at);
    put_number(n, out, p)
}

// A refusal as a line from the front on: `refused` and its number.
pub fn put_refused(number: u8, out: &mut [u8]) -> usize
    ensures { Put out.old 0 (refused_text number) out.new result }
{
    let a = put_item(b"refused ", number as u64, out, 0);
    put(b"\n", out, a)
}

// A byte in two lower-case hexadecimal digits.
fn hex(b: u8) -> [u8; 2]
    ensures { result ≡ hex_of b }
{
    [glyph(b / 16), glyph(b % 16)]
}

// The digit of a number below 16.
fn glyph(d: u8) -> u8
    requires { d < 16 }
    ensures { result ≡ glyph_of d }
{
    if d < 10 { b'0' + d } else { b'a' - 10 + d }
}

// Two hexadecimal digits a byte, no spaces.
pub fn put_hex(bytes: &[u8], out: &mut [u8], at: usize) -> usize
    ensures { Put out.old at (hex_text bytes.now) out.new result }
{
    let mut p = at;
    for byte in bytes {
        p = put(&hex(*byte), out, p);
    }
    p
}
