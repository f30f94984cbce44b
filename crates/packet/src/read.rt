// The refusals of a packet's own words, and the bytes that its user words carry.
ghost use Rattle.std.specs.Prelude.{◌≡◌, map, ◌*◌, ◌/◌, ◌≤◌, length};
ghost use Rattle.std.proofs.lemmas.List.Edits.{sets};
ghost use Rattle.laws.specs.Refusals.{number_in};
ghost use Rattle.packet.specs.Words.{words_of, low};
ghost use Rattle.packet.specs.Reading.{every, ten_bits, parity_right, count_of, start_right, names_right, body_number, frame_number};

use crate::words::{check_of, word_at, word_of};
use laws::Refusal;

// Whether no word is above 3FFh.
fn ten_bits(words: &[u8]) -> bool
    ensures { result ≡ every ten_bits (words_of words.now) }
{
    (0..words.len() / 2).all(|i| word_at(words, i) <= 0x3ff)
}

fn parity_right(w: u16) -> bool
    ensures { result ≡ parity_right w }
{
    w == word_of((w % 256) as u8)
}

// Whether every word's bits 8 and 9 are right. By `for`, since by `all`, as in `ten_bits`, this took `judge` three times the instructions.
fn parities_right(words: &[u8]) -> bool
    ensures { result ≡ every parity_right (words_of words.now) }
{
    for i in 0..words.len() / 2 {
        if !parity_right(word_at(words, i)) {
            return false;
        }
    }
    true
}

fn start_right(words: &[u8]) -> bool
    requires { 14 ≤ length words.now }
    ensures { result ≡ start_right (words_of words.now) }
{
    word_at(words, 0) == 0x000 && word_at(words, 1) == 0x3ff && word_at(words, 2) == 0x3ff
}

fn names_right(words: &[u8]) -> bool
    requires { 14 ≤ length words.now }
    ensures { result ≡ names_right (words_of words.now) }
{
    word_at(words, 3) == 0x241 && word_at(words, 4) == 0x10b
}

// The count: bits 7-0 of the sixth word.
pub(crate) fn count_of(words: &[u8]) -> usize
    requires { 14 ≤ length words.now }
    ensures { result ≡ count_of (words_of words.now) }
{
    usize::from(word_at(words, 5) % 256)
}

// The count, the user words and the checksum: 34 to 36.
fn check_body(words: &[u8]) -> Result<(), Refusal>
    requires { 14 ≤ length words.now }
    ensures { number_in result ≡ body_number (words_of words.now) }
{
    let n = count_of(words);
    if !parity_right(word_at(words, 5)) || words.len() / 2 != n + 7 {
        return Err(Refusal::PacketCount);
    }
    let end = 12 + 2 * n;
    if !parities_right(&words[12..end]) {
        return Err(Refusal::PacketParity);
    }
    if word_at(words, n + 6) != check_of(&words[6..end]) {
        return Err(Refusal::PacketChecksum);
    }
    Ok(())
}

// The packet's own words: 30 to 36.
pub(crate) fn check_frame(words: &[u8]) -> Result<(), Refusal>
    ensures { number_in result ≡ frame_number words.now }
{
    if words.len() % 2 != 0 || !ten_bits(words) {
        return Err(Refusal::NotTenBits);
    }
    if words.len() / 2 < 7 {
        return Err(Refusal::PacketTooShort);
    }
    if !start_right(words) {
        return Err(Refusal::PacketStart);
    }
    if !names_right(words) {
        return Err(Refusal::PacketNames);
    }
    check_body(words)
}

// Bits 7-0 of each word, from the start of out on.
pub(crate) fn low_bytes(words: &[u8], out: &mut [u8])
    requires { length words.now / 2 ≤ length out.old }
    ensures { out.new ≡ sets out.old 0 (map low (words_of words.now)) }
{
    for i in 0..words.len() / 2 {
        out[i] = (word_at(words, i) % 256) as u8;
    }
}
