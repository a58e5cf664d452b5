// Behind primus_distr, by which callers reach it: error coefficients from lent words, by a prepared sampler with signed, encoded and
// CRT output.
#![tactic(auto)]

mod draws;

ghost use Rattle.std.specs.Prelude.{◌≡◌, not, [], ◌∷◌};
ghost use Rattle.distr.specs.Distribution.{error};
ghost use Rattle.distr.specs.Making.{refuse, largest};
ghost use Rattle.distr.specs.Constants.{never_made};
ghost use Rattle.distr.specs.Numbers.{first_of, modulus_number};
ghost use Rattle.distr.specs.Refusals.{number_of, Makes};
ghost use Rattle.methods.specs.Method.{magnitude_of};
ghost use Rattle.error_sampler.specs.Sampler.{making, is_made, deviation_of};

use centered_binomial::deviation::standard_deviation as binomial_deviation;
use distr::error_distribution::ErrorDistribution;
use distr::refusal::Refusal;
use error_method::prepare;
use methods::key::same_method;
use methods::{SamplingMethod, check_modulus_by, tested};

// A prepared sampler. Its fields are public, so a draw judges first whether making gives it (21).
#[derive(Clone, Copy)]
pub struct ErrorSampler {
    pub distribution: ErrorDistribution,
    pub method: SamplingMethod,
}

// What making hands back: number 0 and the sampler, or the number that refuses and the empty sampler.
#[derive(Clone, Copy)]
pub struct MadeErrorSampler {
    pub number: u32,
    pub sampler: ErrorSampler,
}

impl ErrorSampler {
    // Prepares a distribution: 2 or 3 for a bad deviation, 4 for a bad eta, else the sampler.
    pub fn try_new(distribution: ErrorDistribution) -> MadeErrorSampler
        ensures { result ≡ making distribution }
    {
        match prepare(distribution) {
            Ok(method) => MadeErrorSampler {
                number: 0,
                sampler: ErrorSampler {
                    distribution,
                    method,
                },
            },
            Err(why) => MadeErrorSampler {
                number: why.number(),
                sampler: ErrorSampler {
                    distribution: ErrorDistribution::CenteredBinomial { eta: 0 },
                    method: SamplingMethod::Empty,
                },
            },
        }
    }

    // The distribution; of a sampler that making never gives, the one that it holds (the empty sampler holds a centered binomial of eta 0).
    pub fn distribution(self) -> ErrorDistribution
        ensures { result ≡ self.distribution }
    {
        self.distribution
    }

    // An inclusive bound on every coefficient's magnitude: the Gaussian's support or eta. For a sampler that making never
    // gives, the support or eta that its method holds, and 1 for the empty one: nothing is drawn by it.
    pub fn maximum_magnitude(self) -> u64
        ensures { result ≡ magnitude_of self.method }
    {
        let method = self.method;
        methods::maximum_magnitude(method)
    }

    // The Gaussian's deviation, or the f64 nearest to the centered binomial's, the root of eta / 2. The empty sampler has eta 0, and 0.0.
    pub fn standard_deviation(self) -> f64
        ensures { result ≡ deviation_of self.distribution }
    {
        let distribution = self.distribution;
        match distribution {
            ErrorDistribution::Gaussian { standard_deviation } => standard_deviation,
            ErrorDistribution::CenteredBinomial { eta } => binomial_deviation(eta),
        }
    }

    // Refuses with 21 a sampler that making never gives, with 9 a modulus that is not above the largest magnitude.
    pub fn validate_modulus(self, modulus: u64) -> Result<(), Refusal>
        ensures { number_of result ≡ first_of (refuse (not (is_made self)) 21 ∷ modulus_number (largest (error self.distribution)) modulus ∷ []) }
    {
        let made = is_made(self);
        let method = self.method;
        check_modulus_by(made, methods::maximum_magnitude(method), modulus)
    }

    // What the sampler draws by: its method, with 21 where making never gives the sampler.
    pub fn prepared(self) -> Result<SamplingMethod, Refusal>
        ensures { Makes (refuse (not (is_made self)) never_made) self.method result }
    {
        let made = is_made(self);
        let method = self.method;
        tested(made, method)
    }
}

// Whether making gives this sampler: its distribution is prepared again, and the methods are compared.
pub fn is_made(sampler: ErrorSampler) -> bool
    ensures { result ≡ is_made sampler }
{
    let distribution = sampler.distribution;
    let method = sampler.method;
    match prepare(distribution) {
        Ok(again) => same_method(method, again),
        Err(_) => false,
    }
}
