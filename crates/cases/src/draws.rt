// A draw for each case, and its line.
use crate::print;
use centered_binomial::CenteredBinomialParameters;
use common::signed;
use distr::refusal::Refusal;
use distr::secret_key_distr::BlockOccupancy;
use std::io;

// Uniform binary values over the output, from a place.
pub(crate) fn uniform_binary(
    rt: &impl Print,
    label: &[u8],
    output: &mut [i64],
    words: &[u32],
    place: usize,
) -> io::Result<()> {
    let answer = signed::sample_uniform_binary_values_to(output, words, place);
    print::line(rt, label, answer.number, answer.place, output)
}

// Uniform ternary values over the output.
pub(crate) fn uniform_ternary(
    rt: &impl Print,
    label: &[u8],
    output: &mut [i64],
    words: &[u32],
) -> io::Result<()> {
    let answer = signed::sample_uniform_ternary_values_to(output, words, 0);
    print::line(rt, label, answer.number, answer.place, output)
}

// One coefficient of the centered binomial of eta.
pub(crate) fn centered_binomial(
    rt: &impl Print,
    label: &[u8],
    eta: u32,
    words: &[u32],
) -> io::Result<()> {
    let mut output = [9i64; 1];
    let parameters = match CenteredBinomialParameters::new(eta) {
        Ok(parameters) => parameters,
        Err(why) => return print::line(rt, label, why.number(), 0, &output),
    };
    let encoding = output::Signed {};
    let answer = centered_binomial::draw::sample_binomial_to(
        &mut output,
        encoding,
        parameters,
        words,
        0,
    );
    print::line(rt, label, answer.number, answer.place, &output)
}

// A fixed composition over the output; the words are 0, 0.
pub(crate) fn composition(
    rt: &impl Print,
    label: &[u8],
    output: &mut [i64],
    minus_ones: usize,
    ones: usize,
) -> io::Result<()> {
    let words = [0u32; 2];
    let answer = signed::sample_fixed_composition_ternary_values_to(
        output, minus_ones, ones, &words, 0,
    );
    print::line(rt, label, answer.number, answer.place, output)
}

// Four binary values of a weight.
pub(crate) fn binary_weight(
    rt: &impl Print,
    label: &[u8],
    weight: usize,
    words: &[u32],
) -> io::Result<()> {
    let mut output = [9i64; 4];
    let answer = signed::sample_fixed_hamming_weight_binary_values_to(
        &mut output,
        weight,
        words,
        0,
    );
    print::line(rt, label, answer.number, answer.place, &output)
}

// Blocks of 2 over the output, each with exactly one 1.
pub(crate) fn blocks(
    rt: &impl Print,
    label: &[u8],
    output: &mut [i64],
    words: &[u32],
) -> io::Result<()> {
    let answer = signed::sample_block_binary_values_to(
        output,
        2,
        BlockOccupancy::ExactlyOne,
        words,
        0,
    );
    print::line(rt, label, answer.number, answer.place, output)
}

// Three binary values by the words 2^62-1, 2^62 and 3 × 2^62.
pub(crate) fn binary_probability(
    rt: &impl Print,
    label: &[u8],
    one_probability: f64,
) -> io::Result<()> {
    let words = [0xffff_ffff, 0x3fff_ffff, 0, 0x4000_0000, 0, 0xc000_0000];
    let mut output = [9i64; 3];
    let answer = signed::sample_binary_values_with_probability_to(
        &mut output,
        one_probability,
        &words,
        0,
    );
    print::line(rt, label, answer.number, answer.place, &output)
}

// Three ternary values by the same words.
pub(crate) fn ternary_probabilities(
    rt: &impl Print,
    label: &[u8],
    minus_one: f64,
    one: f64,
) -> io::Result<()> {
    let words = [0xffff_ffff, 0x3fff_ffff, 0, 0x4000_0000, 0, 0xc000_0000];
    let mut output = [9i64; 3];
    let answer = signed::sample_ternary_values_with_probabilities_to(
        &mut output,
        minus_one,
        one,
        &words,
        0,
    );
    print::line(rt, label, answer.number, answer.place, &output)
}

// A choice among 3, or a refusal for want of words at the place where it was asked.
pub(crate) fn choice(rt: &impl Print, label: &[u8], words: &[u32]) -> io::Result<()> {
    match words::uniform_below(words, 0, 3) {
        Some(taken) => {
            print::head(rt, label, 0, taken.place as u64)?;
            print::unsigned(rt, taken.value)?;
        }
        None => print::head(rt, label, Refusal::OutOfWords.number(), 0)?,
    }
    print::end(rt)
}

// Four coefficients by the cumulative rule, M 2.
pub(crate) fn cumulative(rt: &impl Print, label: &[u8], words: &[u32]) -> io::Result<()> {
    let bounds = [0u64, 4, 8, 0xffff_ffff_ffff_ffff];
    let mut output = [9i64; 4];
    let encoding = output::Signed {};
    let answer = cdt::sample_cdt_to(&mut output, encoding, 2, &bounds, words, 0);
    print::line(rt, label, answer.number, answer.place, &output)
}

// The even word 2 gives magnitude 0, which is 0 over 5 and not 5.
pub(crate) fn cumulative_residue(rt: &impl Print, label: &[u8]) -> io::Result<()> {
    let bounds = [0u64, 4, 8, 0xffff_ffff_ffff_ffff];
    let words = [2u32, 0];
    let mut output = [9u64; 1];
    let encoding = output::Residues { minus_one: 4 };
    let answer = cdt::sample_cdt_to(&mut output, encoding, 2, &bounds, &words, 0);
    print::head(rt, label, answer.number, answer.place as u64)?;
    print::unsigned(rt, output[0])?;
    print::end(rt)
}

// One coefficient of a CRT draw: with eta 2 the word 12 gives -2, drawn as a native residue into the last of two rows.
pub(crate) fn residues(rt: &impl Print, label: &[u8]) -> io::Result<()> {
    let words = [12u32, 0];
    let moduli = [5u64, 7];
    let mut last = [9u64; 1];
    let parameters = match CenteredBinomialParameters::new(2) {
        Ok(parameters) => parameters,
        Err(why) => return print::refused(rt, label, why),
    };
    let encoding = output::Residues {
        minus_one: 0xffff_ffff_ffff_ffff,
    };
    let drawn = centered_binomial::draw::sample_binomial_to(
        &mut last, encoding, parameters, &words, 0,
    );
    let mut output = [9, last[0]];
    let answer = crt::finish(&mut output, 1, &moduli, drawn);
    print::head(rt, label, answer.number, answer.place as u64)?;
    print::unsigned(rt, output[0])?;
    print::unsigned(rt, output[1])?;
    print::end(rt)
}
