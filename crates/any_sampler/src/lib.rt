// Inner crate: a key's or an error's distribution as one type, as the definition `Distr` has it, for what selects one by a number; its sampler is made
// and tested in one call, and hands back the method that it draws by.
#![tactic(auto)]

ghost use Rattle.std.specs.Prelude.{◌≡◌, ◌≤◌};
ghost use Rattle.distr.specs.Distribution.{secret, error};
ghost use Rattle.distr.specs.Making.{making_number};
ghost use Rattle.distr.specs.Refusals.{number_of, Makes};
ghost use Rattle.method_draws.specs.Drawing.{prepared_method};
ghost use Rattle.any_sampler.specs.Either.{any_number, any_method};

use distr::error_distribution::ErrorDistribution;
use distr::refusal::Refusal;
use distr::secret_key_distr::SecretKeyDistr;
use error_sampler::ErrorSampler;
use methods::SamplingMethod;
use secret_key_sampler::SecretKeySampler;

// A distribution of either kind, or none: a number that names no distribution.
#[derive(Clone, Copy, Debug, PartialEq)]
pub enum AnyDistr {
    Secret(SecretKeyDistr),
    Error(ErrorDistribution),
    Unknown,
}

// Why making refuses, by the number that it hands back: 1 to 5, and 0 for a sampler.
fn check_making(number: u32) -> Result<(), Refusal>
    requires { number ≤ 5 }
    ensures { number_of result ≡ number }
{
    match number {
        0 => Ok(()),
        1 => Err(Refusal::InvalidProbabilities),
        2 => Err(Refusal::InvalidStandardDeviation),
        3 => Err(Refusal::MaximumMagnitudeTooLarge),
        4 => Err(Refusal::InvalidEta),
        5..=0xffff_ffff => Err(Refusal::InvalidBlockSize),
    }
}

// Makes the sampler of a key's distribution: why making refuses, or what the sampler draws by.
fn make_secret(distr: SecretKeyDistr) -> Result<SamplingMethod, Refusal>
    ensures { Makes (making_number (secret distr)) (prepared_method (secret distr)) result }
{
    let made = SecretKeySampler::try_new(distr);
    check_making(made.number)?;
    made.sampler.prepared()
}

// Makes the sampler of an error's distribution.
fn make_error(distribution: ErrorDistribution) -> Result<SamplingMethod, Refusal>
    ensures { Makes (making_number (error distribution)) (prepared_method (error distribution)) result }
{
    let made = ErrorSampler::try_new(distribution);
    check_making(made.number)?;
    made.sampler.prepared()
}

impl AnyDistr {
    // The method that a sampler of the distribution draws by, or why none is made; 14 where there is no distribution.
    #[tactic(auto, unfolding(crate::specs::Either::any_number, crate::specs::Either::any_method))]
    pub fn prepare(self) -> Result<SamplingMethod, Refusal>
        ensures { Makes (any_number self) (any_method self) result }
    {
        match self {
            AnyDistr::Secret(distr) => make_secret(distr),
            AnyDistr::Error(distribution) => make_error(distribution),
            AnyDistr::Unknown => Err(Refusal::InvalidSheet),
        }
    }
}
