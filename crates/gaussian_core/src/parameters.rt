// Making a Gaussian's record: the deviation is judged, and its support derived, once.
ghost use Rattle.std.specs.Prelude.{◌≡◌, false};
ghost use Rattle.distr.specs.Making.{bad_deviation};
ghost use Rattle.gaussian_core.specs.Made.{made_support, made_parameters};

use distr::gaussian_parameters::GaussianParameters;
use distr::limits::{DEFAULT_TAIL_CUT, MAX_MAGNITUDE, MIN_STANDARD_DEVIATION};
use distr::refusal::Refusal;

// 2^64, the end of what a u64 holds.
const U64_RANGE_END_AS_F64: f64 = 18446744073709551616.0;

// Whether a deviation is refused: not finite, too small, or a variance or twice a variance that is not finite.
fn bad_deviation(standard_deviation: f64) -> bool
    ensures { result ≡ bad_deviation standard_deviation }
{
    let variance = standard_deviation * standard_deviation;
    !probability::is_finite(standard_deviation)
        | (standard_deviation < MIN_STANDARD_DEVIATION)
        | !probability::is_finite(variance)
        | !probability::is_finite(2.0 * variance)
}

// The largest magnitude of an accepted deviation, max(1, ⌊deviation × 12.0⌋) with the product rounded in f64. A support that a u64 does not hold is
// too large too.
fn support_of(standard_deviation: f64) -> Result<u64, Refusal>
    requires { bad_deviation standard_deviation ≡ false }
    ensures { result ≡ made_support standard_deviation }
{
    let product = standard_deviation * DEFAULT_TAIL_CUT;
    if !(product < U64_RANGE_END_AS_F64) {
        return Err(Refusal::MaximumMagnitudeTooLarge);
    }
    let maximum_magnitude = std::num::truncating_f64_to_u64(product).max(1);
    if MAX_MAGNITUDE < maximum_magnitude {
        return Err(Refusal::MaximumMagnitudeTooLarge);
    }
    Ok(maximum_magnitude)
}

// Judges the deviation and derives its record.
#[tactic(auto, unfolding(crate::specs::Made::made_parameters))]
pub fn new_parameters(standard_deviation: f64) -> Result<GaussianParameters, Refusal>
    ensures { result ≡ made_parameters standard_deviation }
{
    if bad_deviation(standard_deviation) {
        return Err(Refusal::InvalidStandardDeviation);
    }
    let maximum_magnitude = support_of(standard_deviation)?;
    Ok(GaussianParameters {
        standard_deviation,
        maximum_magnitude,
    })
}
