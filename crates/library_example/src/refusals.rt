// Calls that are refused: the number says why, and neither the place nor the output changes.
use crate::print;
use primus_distr::{
    BlockOccupancy, GaussianParameters, SecretKeyDistr, SecretKeySampler, SignedDiscreteGaussian,
    TernaryEnds, TernarySampler, number_of, residues, signed,
};
use std::io;

// A Gaussian record that no deviation has.
fn gaussian(
    rt: &impl Print,
    name: &[u8],
    standard_deviation: f64,
    maximum_magnitude: u64,
) -> io::Result<()> {
    let sampler = SignedDiscreteGaussian {
        parameters: GaussianParameters {
            standard_deviation,
            maximum_magnitude,
        },
    };
    let last = 0xffff_ffff_ffff_ffff;
    let mut output = [9i64; 1];
    let answer = sampler.sample_to(&mut output, &[0, 4, last], &[], &[], &[], &[5, 0], 0);
    print::signed_line(rt, name, answer, &output)
}

// 21: ends that no two probabilities have, a deviation 3.2 whose support is 38 and not 1, a deviation that is no number, and the empty
// sampler of a refused deviation.
pub(crate) fn states(rt: &impl Print) -> io::Result<()> {
    let sampler = TernarySampler {
        negative_one_probability: 0.25,
        one_probability: 0.25,
        ends: TernaryEnds::General {
            negative_end: 5,
            nonzero_end: 3,
        },
    };
    let mut output = [9i64; 1];
    let answer = sampler.sample_signed_to(&mut output, &[4, 0], 0);
    print::signed_line(rt, b"ends 5 and 3", answer, &output)?;
    gaussian(rt, b"deviation 3.2 with support 1", 3.2, 1)?;
    gaussian(rt, b"deviation not a number", 0.0 / 0.0, 1)?;
    let made = SecretKeySampler::try_new(SecretKeyDistr::Gaussian {
        standard_deviation: 0.5,
    });
    let empty = made.sampler;
    let number = number_of(empty.validate_modulus(17));
    print::number_line(rt, b"modulus of an empty sampler", number)
}

// 2 for the deviation 0.5, 5 for blocks of 0, 9 for the modulus 1, 22 for a place past the words.
pub(crate) fn inputs(rt: &impl Print) -> io::Result<()> {
    let made = SignedDiscreteGaussian::new(0.5);
    let number = made.number;
    print::number_line(rt, b"deviation 0.5", number)?;
    let mut output = [9i64; 2];
    let answer = signed::sample_block_binary_values_to(
        &mut output,
        0,
        BlockOccupancy::AtMostOne,
        &[1],
        0,
    );
    print::signed_line(rt, b"blocks of 0", answer, &output)?;
    let mut residues = [9u64; 2];
    let answer = residues::sample_uniform_binary_values_to(&mut residues, 1, &[1], 0);
    print::line(rt, b"modulus 1", answer, &residues)?;
    let answer = signed::sample_uniform_binary_values_to(&mut output, &[1], 2);
    print::signed_line(rt, b"place 2 of one word", answer, &output)
}
