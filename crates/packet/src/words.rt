// Words of ten bits, lent as two bytes, low byte first.
ghost use Rattle.std.specs.Prelude.{◌≡◌, ◌+◌, ◌*◌, ◌<◌, length, get_or};
ghost use Rattle.packet.specs.Words.{word_of, words_of, check_word};

// The word of a byte: bit 8 makes the number of ones in bits 8-0 even, bit 9 is the complement of bit 8.
pub(crate) fn word_of(b: u8) -> u16
    ensures { result ≡ word_of b }
{
    let bit8 = (b.count_ones() % 2) as u16;
    u16::from(b) + 256 * bit8 + 512 * (1 - bit8)
}

// Word k.
pub(crate) fn word_at(words: &[u8], k: usize) -> u16
    requires { 2 * k + 1 < length words.now }
    ensures { result ≡ get_or (words_of words.now) k 0 }
{
    u16::from_le_bytes([words[2 * k], words[2 * k + 1]])
}

// The checksum word: the sum of bits 8-0 modulo 512, bit 9 the complement of its bit 8.
pub(crate) fn check_of(words: &[u8]) -> u16
    ensures { result ≡ check_word (words_of words.now) }
{
    let mut sum = 0;
    for i in 0..words.len() / 2 {
        sum = (sum + word_at(words, i) % 512) % 512;
    }
    sum + 512 * (1 - sum / 256)
}
