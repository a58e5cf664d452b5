// The words of a draw, which a seed and some given words describe.
use crate::line_numbers::value_at;

// 2^31 - 1, the modulus of the seed's sequence.
const MODULUS: u64 = 0x7fff_ffff;

// What follows x in the sequence of a seed.
fn after(x: u64) -> u64 {
    48271 * (x % MODULUS) % MODULUS
}

// The low 32 bits of a number.
pub(crate) fn low_bits(x: u64) -> u32 {
    (x % 0x1_0000_0000) as u32
}

// The word of the two numbers after x, the high half first.
fn word_of(x: u64) -> u32 {
    let high = after(x);
    let low = after(high);
    low_bits(high % 0x1_0000 * 0x1_0000 + low % 0x1_0000)
}

// The word at an index: a given one, or that after x.
fn word_at(given: &[u64], i: usize, x: u64) -> u32 {
    if i < given.len() {
        low_bits(given[i])
    } else {
        word_of(x)
    }
}

// Where the sequence stands after the word at an index.
fn after_word(given: &[u64], i: usize, x: u64) -> u64 {
    if i < given.len() { x } else { after(after(x)) }
}

// Fills the words: first those given, and then those of the seed. Hands back whether each of the given ones has 32 bits.
pub(crate) fn fill_words(words: &mut [u32], given: &[u64], seed: u64) -> bool {
    let mut good = true;
    let mut x = seed;
    for i in 0..words.len() {
        good = good & (value_at(given, i) < 0x1_0000_0000);
        words[i] = word_at(given, i, x);
        x = after_word(given, i, x);
    }
    good
}
