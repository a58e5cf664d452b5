// Preparing the method of a distribution: its parameters are judged once, before any draw.
ghost use Rattle.std.specs.Prelude.{◌≡◌};
ghost use Rattle.distr.specs.Constants.{invalid_probabilities, invalid_block_size};
ghost use Rattle.distr.specs.Making.{bad_probabilities, bad_block, refuse, secret_number};
ghost use Rattle.distr.specs.Refusals.{number_of, Makes};
ghost use Rattle.distr.specs.Thresholds.{threshold};
ghost use Rattle.ternary.specs.Sampler.{sampler_of};
ghost use Rattle.secret_key_method.specs.Method.{prepared};

use distr::refusal::Refusal;
use distr::secret_key_distr::{BlockOccupancy, SecretKeyDistr};
use gaussian_core::parameters::new_parameters;
use methods::SamplingMethod;
use probability::{check_ternary_probabilities, threshold_of};
use ternary::ternary::{TernaryEnds, from_thresholds};

// The ends of two thresholds; 1 for what are no two probabilities.
pub fn ternary_ends(negative: f64, positive: f64) -> Result<TernaryEnds, Refusal>
    ensures { Makes (refuse (bad_probabilities negative positive) invalid_probabilities) (sampler_of (threshold negative) (threshold positive)) result }
{
    check_ternary_probabilities(negative, positive)?;
    let below = threshold_of(negative)?;
    let above = threshold_of(positive)?;
    Ok(from_thresholds(below, above))
}

// 5 for no blocks at all, and where the empty block makes one category more than a u64 can number.
fn check_block_size(block_size: usize, occupancy: BlockOccupancy) -> Result<(), Refusal>
    ensures { number_of result ≡ refuse (bad_block block_size occupancy) invalid_block_size }
{
    if block_size == 0 {
        return Err(Refusal::InvalidBlockSize);
    }
    match occupancy {
        BlockOccupancy::AtMostOne if block_size == usize::MAX => Err(Refusal::InvalidBlockSize),
        _ => Ok(()),
    }
}

// The method of a distribution, whose parameters are judged first: 1 for bad probabilities, 2 or 3 for a deviation, 5 for a block size.
#[tactic(auto, unfolding(distr::specs::Making::secret_number, crate::specs::Method::prepared))]
pub fn prepare(distr: SecretKeyDistr) -> Result<SamplingMethod, Refusal>
    ensures { Makes (secret_number distr) (prepared distr) result }
{
    match distr {
        SecretKeyDistr::UniformBinary => Ok(SamplingMethod::UniformBinary),
        SecretKeyDistr::Binary { one_probability } => {
            let threshold = threshold_of(one_probability)?;
            Ok(SamplingMethod::Binary(threshold))
        }
        SecretKeyDistr::SparseTernary => Ok(SamplingMethod::SparseTernary),
        SecretKeyDistr::UniformTernary => Ok(SamplingMethod::UniformTernary),
        SecretKeyDistr::Ternary {
            negative_one_probability,
            one_probability,
        } => {
            let ends = ternary_ends(negative_one_probability, one_probability)?;
            Ok(SamplingMethod::Ternary(ends))
        }
        SecretKeyDistr::FixedHammingWeightBinary { hamming_weight } => {
            Ok(SamplingMethod::FixedHammingWeightBinary { hamming_weight })
        }
        SecretKeyDistr::BlockBinary {
            block_size,
            occupancy,
        } => {
            check_block_size(block_size, occupancy)?;
            Ok(SamplingMethod::BlockBinary {
                block_size,
                occupancy,
            })
        }
        SecretKeyDistr::FixedHammingWeightTernary { hamming_weight } => {
            Ok(SamplingMethod::FixedHammingWeightTernary { hamming_weight })
        }
        SecretKeyDistr::FixedCompositionTernary {
            negative_one_weight,
            one_weight,
        } => Ok(SamplingMethod::FixedCompositionTernary {
            negative_one_weight,
            one_weight,
        }),
        SecretKeyDistr::Gaussian { standard_deviation } => {
            let parameters = new_parameters(standard_deviation)?;
            Ok(SamplingMethod::Gaussian(parameters))
        }
    }
}
