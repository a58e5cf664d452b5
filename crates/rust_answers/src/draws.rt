// The calls that the lines ask for, and whether their answers agree.
use crate::compare::{agrees, same};
use crate::draw_words::fill_words;
use crate::line::{distr_of, moduli_of, words_of};
use crate::line_numbers::{
    ANSWER, BOUNDS, CURVE, ENDPOINTS, HEIGHTS, entries, kept, part, rest, size_at, value_at,
};
use crate::real::{fill_reals, reals_part};
use crate::room::{coefficients_room, reals_room, residues_room, words_room};
use gaussian_core::encode::magnitude;

// The most words and elements of an output that a line may ask for.
const WORDS: usize = 262144;

const LENGTH: usize = 131072;

// A line `1` DISTR number.
fn making(values: &[u64]) -> bool {
    let distr = distr_of(values);
    let numbers = [beside::beside_make(distr.kind, distr.a, distr.b, distr.p, distr.q) as u64];
    same(rest(values, 8), &numbers)
}

// A signed coefficient modulo 2^64; 0 past the end.
fn residue_at(coefficients: &[i64], i: usize) -> u64 {
    if coefficients.len() <= i {
        return 0;
    }
    let x = coefficients[i];
    if x < 0 {
        return std::num::wrapping_sub_u64(0, magnitude(x));
    }
    magnitude(x)
}

// Puts signed coefficients modulo 2^64 into an output.
fn put_residues(coefficients: &[i64], output: &mut [u64]) {
    for i in 0..output.len() {
        output[i] = residue_at(coefficients, i);
    }
}

// The number of a draw of signed coefficients, which are put into the output. One that is too long for the room is refused by 6.
fn signed(
    room: &[u64],
    heights: &[f64],
    curve: &[f64],
    words: &[u32],
    place: usize,
    output: &mut [u64],
    after: &mut usize,
    index: &mut usize,
    skipped_words: &mut u64,
    skipped_bytes: &mut u64,
) -> u32 {
    let n = output.len();
    if LENGTH < n {
        return 6;
    }
    let distr = distr_of(kept(room, ANSWER));
    let mut all = coefficients_room();
    let coefficients = &mut all[0..n];
    let number = beside::beside_signed(
        distr.kind,
        distr.a,
        distr.b,
        distr.p,
        distr.q,
        entries(room, BOUNDS),
        entries(room, ENDPOINTS),
        heights,
        curve,
        words,
        place,
        coefficients,
        after,
        index,
        skipped_words,
        skipped_bytes,
    );
    put_residues(coefficients, output);
    number
}

// The number of a draw of residues of one modulus, which stands at index 9.
fn encoded(
    room: &[u64],
    heights: &[f64],
    curve: &[f64],
    words: &[u32],
    place: usize,
    output: &mut [u64],
    after: &mut usize,
    index: &mut usize,
    skipped_words: &mut u64,
    skipped_bytes: &mut u64,
) -> u32 {
    let values = kept(room, ANSWER);
    let distr = distr_of(values);
    beside::beside_encoded(
        distr.kind,
        distr.a,
        distr.b,
        distr.p,
        distr.q,
        value_at(values, 9),
        entries(room, BOUNDS),
        entries(room, ENDPOINTS),
        heights,
        curve,
        words,
        place,
        output,
        after,
        index,
        skipped_words,
        skipped_bytes,
    )
}

// The number of a draw of residues of several moduli, with the coefficients at index 9.
fn crt(
    room: &[u64],
    heights: &[f64],
    curve: &[f64],
    words: &[u32],
    place: usize,
    output: &mut [u64],
    after: &mut usize,
    index: &mut usize,
    skipped_words: &mut u64,
    skipped_bytes: &mut u64,
) -> u32 {
    let values = kept(room, ANSWER);
    let distr = distr_of(values);
    beside::beside_crt(
        distr.kind,
        distr.a,
        distr.b,
        distr.p,
        distr.q,
        value_at(values, 9) as usize,
        moduli_of(values),
        entries(room, BOUNDS),
        entries(room, ENDPOINTS),
        heights,
        curve,
        words,
        place,
        output,
        after,
        index,
        skipped_words,
        skipped_bytes,
    )
}

// The number of a draw, by the line's tag.
fn by_tag(
    room: &[u64],
    heights: &[f64],
    curve: &[f64],
    words: &[u32],
    place: usize,
    output: &mut [u64],
    after: &mut usize,
    index: &mut usize,
    skipped_words: &mut u64,
    skipped_bytes: &mut u64,
) -> u32 {
    match value_at(room, ANSWER) {
        2 => signed(
            room,
            heights,
            curve,
            words,
            place,
            output,
            after,
            index,
            skipped_words,
            skipped_bytes,
        ),
        3 => encoded(
            room,
            heights,
            curve,
            words,
            place,
            output,
            after,
            index,
            skipped_words,
            skipped_bytes,
        ),
        0 | 1 | 4..=0xffff_ffff_ffff_ffff => crt(
            room,
            heights,
            curve,
            words,
            place,
            output,
            after,
            index,
            skipped_words,
            skipped_bytes,
        ),
    }
}

// Fills a room with the reals of a table that is kept. Hands back how many there are.
fn reals_of(room: &[u64], begin: usize, reals: &mut [f64; 5000]) -> usize {
    let values = kept(room, begin);
    fill_reals(values, reals);
    size_at(values, 1)
}

// The number of a draw by the tables that are kept.
fn number_of(
    room: &[u64],
    words: &[u32],
    place: usize,
    output: &mut [u64],
    after: &mut usize,
    index: &mut usize,
    skipped_words: &mut u64,
    skipped_bytes: &mut u64,
) -> u32 {
    let mut all_heights = reals_room();
    let mut all_curve = reals_room();
    let heights_count = reals_of(room, HEIGHTS, &mut all_heights);
    let curve_count = reals_of(room, CURVE, &mut all_curve);
    let heights = reals_part(&all_heights, heights_count);
    let curve = reals_part(&all_curve, curve_count);
    by_tag(
        room,
        heights,
        curve,
        words,
        place,
        output,
        after,
        index,
        skipped_words,
        skipped_bytes,
    )
}

// What a digest adds to each element: to a signed coefficient 4,096.
fn offset_of(tag: u64) -> u64 {
    if tag == 2 { 4096 } else { 0 }
}

// A draw by words. The length of the output stands at index 8; the place and then the answer follow the words. The index and
// the sums start at 9, so that those which a call does not write are noticed.
fn drawn(room: &[u64], words: &[u32], place: usize, stored: &[u64]) -> bool {
    let values = kept(room, ANSWER);
    let n = size_at(values, 8);
    if LENGTH < n {
        return false;
    }
    let mut residues = residues_room();
    let output = &mut residues[0..n];
    let mut after = 0;
    let mut index = 9;
    let mut skipped_words = 9;
    let mut skipped_bytes = 9;
    let number = number_of(
        room,
        words,
        place,
        output,
        &mut after,
        &mut index,
        &mut skipped_words,
        &mut skipped_bytes,
    );
    agrees(
        offset_of(value_at(values, 0)),
        stored,
        number,
        after,
        index,
        skipped_words,
        skipped_bytes,
        output,
    )
}

// A line of a draw.
fn draw(room: &[u64]) -> bool {
    let values = kept(room, ANSWER);
    let described = words_of(values);
    let count = size_at(described, 0);
    let given = size_at(described, 2);
    if WORDS < count {
        return false;
    }
    if count < given {
        return false;
    }
    let mut all = words_room();
    let words = &mut all[0..count];
    let answer = rest(described, 3 + given);
    let good = fill_words(words, part(described, 3, 3 + given), value_at(described, 1));
    good & drawn(room, words, size_at(answer, 0), rest(answer, 1))
}

// Whether the line of an answer that is kept is well formed and agrees.
pub(crate) fn is_answered(room: &[u64]) -> bool {
    let values = kept(room, ANSWER);
    if !distr_of(values).good {
        return false;
    }
    match value_at(values, 0) {
        1 => making(values),
        2..=4 => draw(room),
        _ => false,
    }
}
