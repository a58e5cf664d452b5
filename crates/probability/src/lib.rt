// Inner crate of primus_distr: probabilities as f64, which ones a distribution takes, and the threshold of one among the 64-bit words.
#![tactic(auto)]

ghost use Rattle.std.specs.Prelude.{◌≡◌};
ghost use Rattle.std.specs.Float.Ieee.Scale.{finite};
ghost use Rattle.distr.specs.Constants.{invalid_probabilities};
ghost use Rattle.distr.specs.Making.{bad_probability, bad_probabilities, refuse};
ghost use Rattle.distr.specs.Refusals.{number_of};
ghost use Rattle.probability.specs.Made.{made_threshold};

use distr::refusal::Refusal;
use distr::threshold::Threshold;

// 2^64, which an f64 holds exactly.
const FULL_AS_F64: f64 = 18446744073709551616.0;

// Neither a NaN nor an infinity: by two comparisons, since the library's `is_finite`, which subtracts, makes the test of a draw's tables slower.
pub fn is_finite(x: f64) -> bool
    ensures { result ≡ finite x }
{
    (x < 1.0 / 0.0) & (-1.0 / 0.0 < x)
}

// Whether p is no probability: not finite, or not in 0..1, both ends in.
fn bad_probability(p: f64) -> bool
    ensures { result ≡ bad_probability p }
{
    !(is_finite(p) & ((0.0 <= p) & (p <= 1.0)))
}

// Refuses two probabilities of which one is none, or which exceed one, as `negative > 1.0 - positive` judges it.
pub fn check_ternary_probabilities(negative: f64, positive: f64) -> Result<(), Refusal>
    ensures { number_of result ≡ refuse (bad_probabilities negative positive) invalid_probabilities }
{
    if bad_probability(negative) | bad_probability(positive) | (negative > 1.0 - positive) {
        Err(Refusal::InvalidProbabilities)
    } else {
        Ok(())
    }
}

// The threshold ⌊p × 2^64⌋ of a probability. The product is exact, since it only moves the exponent, and below 2^64 for p below 1.
pub fn threshold_of(p: f64) -> Result<Threshold, Refusal>
    ensures { result ≡ made_threshold p }
{
    if bad_probability(p) {
        return Err(Refusal::InvalidProbabilities);
    }
    if p < 1.0 {
        let below = std::num::truncating_f64_to_u64(p * FULL_AS_F64);
        return Ok(Threshold { full: false, below });
    }
    Ok(Threshold {
        full: true,
        below: 0,
    })
}
