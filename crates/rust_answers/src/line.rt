// The parts of a line. README.md states the format.
use crate::draw_words::low_bits;
use crate::line_numbers::{part, rest, size_at, value_at};
use crate::real::{fill_reals, is_real, real};
use crate::room::reals_room;

// A distribution as the calls name it, and whether it is well formed.
#[derive(Clone, Copy)]
pub(crate) struct Distr {
    pub kind: u32,
    pub a: usize,
    pub b: usize,
    pub p: f64,
    pub q: f64,
    pub good: bool,
}

// The distribution of a line: kind, a, b, p and q at the indices 1 to 7.
pub(crate) fn distr_of(values: &[u64]) -> Distr {
    Distr {
        kind: low_bits(value_at(values, 1)),
        a: size_at(values, 2),
        b: size_at(values, 3),
        p: real(value_at(values, 4), value_at(values, 5)),
        q: real(value_at(values, 6), value_at(values, 7)),
        good: (value_at(values, 1) < 0x1_0000_0000)
            & is_real(value_at(values, 4), value_at(values, 5))
            & is_real(value_at(values, 6), value_at(values, 7)),
    }
}

// Where the words begin in the line of a draw: after n, or n and the modulus, or the length, the coefficients and the moduli, of which
// there are 64 at most.
fn words_begin(values: &[u64]) -> usize {
    let tag = value_at(values, 0);
    if tag == 2 {
        return 9;
    }
    if tag == 3 {
        return 10;
    }
    let moduli = size_at(values, 10);
    if 64 < moduli {
        return values.len();
    }
    11 + moduli
}

// The moduli of a CRT draw.
pub(crate) fn moduli_of(values: &[u64]) -> &[u64] {
    part(values, 11, words_begin(values))
}

// The line of a draw from its words on: count, seed, given, so many given words, the place and the answer.
pub(crate) fn words_of(values: &[u64]) -> &[u64] {
    rest(values, words_begin(values))
}

// Whether a line is a table of at most 5,000 entries.
pub(crate) fn is_table(values: &[u64]) -> bool {
    let count = size_at(values, 1);
    if 5000 < count {
        return false;
    }
    if value_at(values, 0) < 7 {
        return values.len() == 2 + count;
    }
    let mut reals = reals_room();
    fill_reals(values, &mut reals) & (values.len() == 2 + 2 * count)
}
