// Inner crate of primus_distr: the prepared state of both samplers. One type holds the method of any distribution; a method knows its largest
// magnitude and the lengths and moduli that it takes.
#![tactic(auto)]

pub mod key;

ghost use Rattle.std.specs.Prelude.{◌≡◌, not, [], ◌∷◌};
ghost use Rattle.distr.specs.Making.{refuse};
ghost use Rattle.distr.specs.Constants.{never_made};
ghost use Rattle.distr.specs.Numbers.{first_of, modulus_number};
ghost use Rattle.distr.specs.Refusals.{number_of, Makes};
ghost use Rattle.methods.specs.Method.{magnitude_of, length_of};

use centered_binomial::CenteredBinomialParameters;
use distr::gaussian_parameters::GaussianParameters;
use distr::refusal::Refusal;
use distr::secret_key_distr::BlockOccupancy;
use distr::threshold::Threshold;
use numbers::{check_blocks, check_weights};
use ternary::ternary::TernaryEnds;

// Prepared state for one algorithm; dispatch stays outside coefficient loops. Empty is the method of a sampler that was refused.
#[derive(Clone, Copy, Debug, PartialEq)]
pub enum SamplingMethod {
    UniformBinary,
    Binary(Threshold),
    SparseTernary,
    UniformTernary,
    Ternary(TernaryEnds),
    FixedHammingWeightBinary {
        hamming_weight: usize,
    },
    BlockBinary {
        block_size: usize,
        occupancy: BlockOccupancy,
    },
    FixedHammingWeightTernary {
        hamming_weight: usize,
    },
    FixedCompositionTernary {
        negative_one_weight: usize,
        one_weight: usize,
    },
    Gaussian(GaussianParameters),
    CenteredBinomial(CenteredBinomialParameters),
    Empty,
}

// What a sampler draws by: its method, or 21 where making never gives the sampler.
pub fn tested(made: bool, method: SamplingMethod) -> Result<SamplingMethod, Refusal>
    ensures { Makes (refuse (not made) never_made) method result }
{
    if made {
        Ok(method)
    } else {
        Err(Refusal::NeverMade)
    }
}

// An inclusive bound on every coefficient's magnitude: the Gaussian's support, the centered binomial's eta, else 1.
pub fn maximum_magnitude(method: SamplingMethod) -> u64
    ensures { result ≡ magnitude_of method }
{
    match method {
        SamplingMethod::Gaussian(parameters) => parameters.maximum_magnitude,
        SamplingMethod::CenteredBinomial(parameters) => parameters.eta as u64,
        _ => 1,
    }
}

// Refuses with 7 weights over the length, with 8 a length that is no whole number of blocks.
pub fn check_length(method: SamplingMethod, length: usize) -> Result<(), Refusal>
    ensures { number_of result ≡ length_of method length }
{
    match method {
        SamplingMethod::FixedHammingWeightBinary { hamming_weight }
        | SamplingMethod::FixedHammingWeightTernary { hamming_weight } => {
            check_weights(hamming_weight, 0, length)
        }
        SamplingMethod::FixedCompositionTernary {
            negative_one_weight,
            one_weight,
        } => check_weights(negative_one_weight, one_weight, length),
        SamplingMethod::BlockBinary {
            block_size,
            occupancy: _,
        } => check_blocks(block_size, length),
        _ => Ok(()),
    }
}

// Refuses with 9 a modulus that is not above the largest magnitude of a method.
pub fn check_modulus(largest: u64, modulus: u64) -> Result<(), Refusal>
    ensures { number_of result ≡ modulus_number largest modulus }
{
    if modulus <= largest {
        Err(Refusal::ModulusTooSmall)
    } else {
        Ok(())
    }
}

// What a sampler answers of a modulus: 21 where making never gives it, else what its largest magnitude says of the modulus.
#[tactic(auto, unfolding(distr::specs::Numbers::first_of))]
pub fn check_modulus_by(made: bool, largest: u64, modulus: u64) -> Result<(), Refusal>
    ensures { number_of result ≡ first_of (refuse (not made) never_made ∷ modulus_number largest modulus ∷ []) }
{
    if !made {
        return Err(Refusal::NeverMade);
    }
    check_modulus(largest, modulus)
}
