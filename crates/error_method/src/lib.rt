// Inner crate of primus_distr: how the method of an error distribution is prepared.
#![tactic(auto)]

ghost use Rattle.std.specs.Prelude.{◌≡◌};
ghost use Rattle.distr.specs.Making.{error_number};
ghost use Rattle.distr.specs.Refusals.{Makes};
ghost use Rattle.error_method.specs.Method.{prepared};

use centered_binomial::CenteredBinomialParameters;
use distr::error_distribution::ErrorDistribution;
use distr::refusal::Refusal;
use gaussian_core::parameters::new_parameters;
use methods::SamplingMethod;

// The method of a distribution, whose parameter is judged first: 2 or 3 for a deviation, 4 for an eta.
#[tactic(auto, unfolding(distr::specs::Making::error_number, crate::specs::Method::prepared))]
pub fn prepare(distribution: ErrorDistribution) -> Result<SamplingMethod, Refusal>
    ensures { Makes (error_number distribution) (prepared distribution) result }
{
    match distribution {
        ErrorDistribution::Gaussian { standard_deviation } => {
            let parameters = new_parameters(standard_deviation)?;
            Ok(SamplingMethod::Gaussian(parameters))
        }
        ErrorDistribution::CenteredBinomial { eta } => {
            let parameters = CenteredBinomialParameters::new(eta)?;
            Ok(SamplingMethod::CenteredBinomial(parameters))
        }
    }
}
