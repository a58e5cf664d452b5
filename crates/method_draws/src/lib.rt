// Inner crate of primus_distr: the branch by method, once before any loop over coefficients, for every type of output. A Gaussian is drawn by the cumulative
// table where that holds the support, by the layers above it. specs/ says what a method draws, and proofs/ has the law that it is what the distribution
// draws. Some draws have a shorter name here.
#![tactic(auto)]

ghost use Rattle.std.specs.Prelude.{◌≡◌, length, drop};
ghost use Rattle.distr.specs.Draw.{outcome};
ghost use Rattle.distr.specs.Answers.{sums, reported};
ghost use Rattle.signed_discrete_gaussian.specs.Lent.{lent};
ghost use Rattle.method_draws.specs.Drawing.{method_draw, method_skips};

use binary::draw::fill_binary;
use block_binary::draw::sample_block_binary_values_to as sample_block_binary;
use cdt::sample_cdt_to;
use centered_binomial::draw::sample_binomial_to as sample_binomial;
use distr::answer::{Answer, refused};
use distr::limits::CDT_MAX_MAGNITUDE;
use distr::refusal::Refusal;
use fixed_weights::fixed_composition::sample_fixed_composition_ternary_values_to as sample_composition;
use fixed_weights::fixed_weight::{
    sample_fixed_hamming_weight_binary_values_to as sample_binary_weight,
    sample_fixed_hamming_weight_ternary_values_to as sample_ternary_weight,
};
use methods::SamplingMethod;
use output::Output;
use packed::binary::sample_uniform_binary_values_to as sample_uniform_binary;
use packed::ternary::{
    sample_sparse_ternary_values_to as sample_sparse_ternary,
    sample_uniform_ternary_values_to as sample_uniform_ternary,
};
use ternary::draw::sample_to as fill_ternary;
use ziggurat::sample_ziggurat_to;

// Draws by the family of the method, held as the encoding says. No sampler that is made has the empty method.
#[tactic(auto, unfolding(crate::specs::Drawing::method_draw, crate::specs::Drawing::method_skips))]
pub fn sample_to_with<T: Output>(
    output: &mut [T],
    encoding: T::Encoding,
    method: SamplingMethod,
    bounds: &[u64],
    endpoints: &[u64],
    heights: &[f64],
    curve: &[f64],
    words: &[u32],
    place: usize,
) -> Answer
    ensures output_after { outcome result output.new ≡ method_draw (T.held encoding) method
        (lent bounds.now endpoints.now heights.now curve.now)
        words.now place output.old }
    ensures result_value { sums result ≡ reported result.number (method_skips method (lent bounds.now endpoints.now heights.now curve.now) (length output.old) (drop place words.now)) }
{
    match method {
        SamplingMethod::UniformBinary => sample_uniform_binary(output, encoding, words, place),
        SamplingMethod::Binary(limit) => fill_binary(output, encoding, limit, words, place),
        SamplingMethod::SparseTernary => sample_sparse_ternary(output, encoding, words, place),
        SamplingMethod::UniformTernary => sample_uniform_ternary(output, encoding, words, place),
        SamplingMethod::Ternary(ends) => fill_ternary(output, encoding, ends, words, place),
        SamplingMethod::FixedHammingWeightBinary { hamming_weight } => {
            sample_binary_weight(output, encoding, hamming_weight, words, place)
        }
        SamplingMethod::BlockBinary {
            block_size,
            occupancy,
        } => sample_block_binary(output, encoding, block_size, occupancy, words, place),
        SamplingMethod::FixedHammingWeightTernary { hamming_weight } => {
            sample_ternary_weight(output, encoding, hamming_weight, words, place)
        }
        SamplingMethod::FixedCompositionTernary {
            negative_one_weight: negatives,
            one_weight: ones,
        } => sample_composition(output, encoding, negatives, ones, words, place),
        SamplingMethod::Gaussian(p) => {
            if p.maximum_magnitude <= CDT_MAX_MAGNITUDE {
                let largest = p.maximum_magnitude;
                sample_cdt_to(output, encoding, largest, bounds, words, place)
            } else {
                sample_ziggurat_to(output, encoding, p, endpoints, heights, curve, words, place)
            }
        }
        SamplingMethod::CenteredBinomial(p) => sample_binomial(output, encoding, p, words, place),
        SamplingMethod::Empty => refused(Refusal::NeverMade, place),
    }
}
