// The library by example, through `primus_distr` alone. A line is a name, the number, the place after the draw and what the output holds, and of a
// report the number, the sums and the counts, of a polynomial the number and four coefficients, and of layer tables the number and the index; the file `stdout` is worked out by hand from documents 01 and 02. Every output is 9 throughout before its draw, so what a refusal leaves is seen.
#![tactic(auto)]

mod print;
mod refusals;

use primus_distr::{
    BlockOccupancy, CenteredBinomial, ErrorDistribution, ErrorSampler, SecretKeyDistr,
    SecretKeySampler, SignedDiscreteGaussian, TernarySampler, check_layer_tables, crt_row,
    crt_row_range, draw_question, number_of, residue_report, residues, sample_poly_cbd, signed,
};
use std::io;

// A sampler is made once and draws any number of keys, each from the place where the last one ended. The two-bit groups of the word 0xE4
// are 0, 1, 2, 3, lowest first, so a sparse ternary key is 0 0 1 -1; over 17 the -1 is 16. The distribution needs no tables.
fn keys(rt: &impl Print) -> io::Result<()> {
    let words = [0xe4, 0xe4];
    let made = SecretKeySampler::try_new(SecretKeyDistr::SparseTernary);
    let sampler = made.sampler;
    let mut key = [9i64; 4];
    let first = sampler.sample_signed_to(&mut key, &[], &[], &[], &[], &words, 0);
    print::signed_line(rt, b"key", first, &key)?;
    let mut residues = [9u64; 4];
    let place = first.place;
    let second = sampler.sample_encoded_to(&mut residues, 17, &[], &[], &[], &[], &words, place);
    print::line(rt, b"key over 17", second, &residues)
}

// Two errors of eta 2 over the moduli 5 and 7, a row for each modulus: the 64-bit words 12 and 7 give -2 and 1 (marked case 6), so
// the rows are 3 1 and 5 1 (marked case 11). The row of one modulus is that part of the output, from 2 up to 4.
fn errors(rt: &impl Print) -> io::Result<()> {
    let words = [12, 0, 7, 0];
    let made = ErrorSampler::try_new(ErrorDistribution::CenteredBinomial { eta: 2 });
    let sampler = made.sampler;
    let mut rows = [9u64; 4];
    let answer = sampler.sample_crt_to(&mut rows, 2, &[5, 7], &[], &[], &[], &[], &words, 0);
    print::line(rt, b"errors over 5 and 7", answer, &rows)?;
    let row = crt_row(&rows, 2, 2, 1);
    print::line(rt, b"the row of 7", answer, row)?;
    let range = crt_row_range(4, 2, 2, 1);
    print::line(
        rt,
        b"where it lies",
        answer,
        &[range.start as u64, range.end as u64],
    )
}

// One error of eta 2, without tables: the 64-bit word 7 gives 1 (marked case 6).
fn centered_binomial(rt: &impl Print) -> io::Result<()> {
    let made = CenteredBinomial::new(2);
    let sampler = made.sampler;
    let mut output = [9i64; 1];
    let answer = sampler.sample_to(&mut output, &[7, 0], 0);
    print::signed_line(rt, b"centered binomial", answer, &output)
}

// The deviation 0.7 has the support 8, so its table has ten bounds. The 64-bit words 5 and 8 have the magnitudes 1 and 2, the largest index
// whose bound is at most the word; 5 is odd, so positive.
fn gaussian(rt: &impl Print) -> io::Result<()> {
    let last = 0xffff_ffff_ffff_ffff;
    let bounds = [0, 4, 8, last, last, last, last, last, last, last];
    let words = [5, 0, 8, 0];
    let made = SignedDiscreteGaussian::new(0.7);
    let sampler = made.sampler;
    let mut output = [9i64; 2];
    let answer = sampler.sample_to(&mut output, &bounds, &[], &[], &[], &words, 0);
    print::signed_line(rt, b"gaussian", answer, &output)
}

// The deviation 64 has the support 768, and zeros in lists of 129, 129 and 769 are as many as 128 layers have: the last endpoint, at index 128, is the
// first that is wrong, since it is not 768. With 129 curve values the lengths do not fit: 13. A draw by the lists is refused by 30 with that index; one
// from a place past the words by 22, with index 0.
fn layers(rt: &impl Print, endpoints: &[u64], heights: &[f64], curve: &[f64]) -> io::Result<()> {
    let checked = check_layer_tables(768, endpoints, heights, curve);
    print::tables_line(rt, b"layers of zeros", checked)?;
    let fewer = check_layer_tables(768, endpoints, heights, heights);
    print::tables_line(rt, b"curve values too few", fewer)?;
    layered(rt, b"a draw by them", endpoints, heights, curve, 1)?;
    layered(rt, b"one from place 2", endpoints, heights, curve, 2)
}

// A draw by layers from a place of one word: its number and its index, then its number, its place and its output.
fn layered(
    rt: &impl Print,
    name: &[u8],
    endpoints: &[u64],
    heights: &[f64],
    curve: &[f64],
    place: usize,
) -> io::Result<()> {
    let sampler = SignedDiscreteGaussian::new(64.0).sampler;
    let mut output = [9i64; 2];
    let answer = sampler.sample_to(&mut output, &[], endpoints, heights, curve, &[5], place);
    print::index_line(rt, name, answer.number, answer.index)?;
    print::signed_line(rt, name, answer, &output)
}

// Lists of zeros.
fn layers_of_zeros(rt: &impl Print) -> io::Result<()> {
    layers(rt, &[0; 129], &[0.0; 129], &[0.0; 769])
}

// Probabilities of 1/4 have the ends 2^62 and 2^63: the 64-bit words 0, 2^62 and 2^63 give -1, 1 and 0.
fn ternary(rt: &impl Print) -> io::Result<()> {
    let words = [0, 0, 0, 0x4000_0000, 0, 0x8000_0000];
    let made = TernarySampler::try_new(0.25, 0.25);
    let sampler = made.sampler;
    let mut output = [9i64; 3];
    let answer = sampler.sample_signed_to(&mut output, &words, 0);
    print::signed_line(rt, b"ternary", answer, &output)
}

// Draws without a sampler: the word 5 as five base-3 digits (marked case 2), by the table of trits and, over 3, by division; and two blocks of 2 by the
// choices 1 and 0 (marked case 12).
fn at_once(rt: &impl Print) -> io::Result<()> {
    let mut digits = [9i64; 5];
    let answer = signed::sample_uniform_ternary_values_to(&mut digits, &[5], 0);
    print::signed_line(rt, b"uniform ternary", answer, &digits)?;
    let mut divided = [9u64; 5];
    let answer = residues::sample_uniform_ternary_values_by_division_to(&mut divided, 3, &[5], 0);
    print::line(rt, b"by division, over 3", answer, &divided)?;
    let mut blocks = [9u64; 4];
    let occupancy = BlockOccupancy::ExactlyOne;
    let answer = residues::sample_block_binary_values_to(&mut blocks, 2, 2, occupancy, &[1, 0], 0);
    print::line(rt, b"blocks over 2", answer, &blocks)
}

// What a draw skips is handed back beside the place: a key with one -1 and one 1 chooses among 2 and then among 3, and the second choice passes over
// the word 2^32-1 twice.
fn skipped(rt: &impl Print) -> io::Result<()> {
    let words = [0xffff_ffff, 0xffff_ffff, 0xffff_ffff, 0];
    let mut key = [9i64; 3];
    let answer = signed::sample_fixed_composition_ternary_values_to(&mut key, 1, 1, &words, 0);
    print::signed_line(rt, b"composition", answer, &key)?;
    print::line(
        rt,
        b"words and bytes skipped",
        answer,
        &[answer.skipped_words, answer.skipped_bytes],
    )
}

// Over 5 the residues 3, 4 and 1 are -2, -1 and 1: their sum is -2, that of their squares 6, and none of the magnitudes is 0, two are at most 1. 5 is no
// residue of 5: 26, with zero sums, and the counts are as they were.
fn reports(rt: &impl Print) -> io::Result<()> {
    let mut counts = [9u64; 2];
    let report = residue_report(&[3, 4, 1], 5, &[0, 1], &mut counts);
    print::report_line(rt, b"report over 5", report, &counts)?;
    let refused = residue_report(&[0, 5], 5, &[0, 1], &mut counts);
    print::report_line(rt, b"5 over 5", refused, &counts)
}

// A polynomial of ML-KEM from 128 bytes, of which its first and its last two coefficients are shown. With eta 2 each half of a byte is a coefficient, the low half
// first: 0xc7 has the halves 7 and 12, whose bits 1 1 1 0 and 0 0 1 1 give 2 - 1 and 0 - 2, so 1 and 3327. An eta other than 2 and 3 is refused by 27, and then
// the bytes of another eta by 28.
fn polynomial(rt: &impl Print, name: &[u8], eta: u32) -> io::Result<()> {
    let mut f = [9u64; 256];
    let number = number_of(sample_poly_cbd(&mut f, eta, &[0xc7; 128]));
    print::polynomial_line(rt, name, number, &[f[0], f[1], f[254], f[255]])
}

// A question by numbers, on the words 0 and 0xE4. Kind 2 is sparse ternary, so from place 1 it is 0 0 1 -1, and over 3329 the -1 is 3328. Kind 10 is none, which
// gives 14, and place 3 is past the words: 22.
fn question(rt: &impl Print, name: &[u8], kind: u32, modulus: u32, place: usize) -> io::Result<()> {
    let mut output = [9i64; 4];
    let answer = draw_question(kind, 0, 0, modulus, &mut output, &[0, 0xe4], place);
    print::signed_line(rt, name, answer, &output)
}

fn main(rt: HostRuntime) -> io::Result<()> {
    keys(&rt)?;
    errors(&rt)?;
    centered_binomial(&rt)?;
    gaussian(&rt)?;
    layers_of_zeros(&rt)?;
    ternary(&rt)?;
    at_once(&rt)?;
    skipped(&rt)?;
    reports(&rt)?;
    polynomial(&rt, b"128 bytes with eta 2", 2)?;
    polynomial(&rt, b"128 bytes with eta 3", 3)?;
    polynomial(&rt, b"128 bytes with eta 4", 4)?;
    question(&rt, b"kind 2", 2, 0, 1)?;
    question(&rt, b"kind 2 over 3329", 2, 3329, 1)?;
    question(&rt, b"kind 10", 10, 0, 1)?;
    question(&rt, b"kind 2 from place 3", 2, 0, 3)?;
    refusals::states(&rt)?;
    refusals::inputs(&rt)
}
