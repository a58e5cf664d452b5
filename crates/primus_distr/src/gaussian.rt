// The Gaussian over signed integers: a view of the error sampler of the distribution `Gaussian`.
ghost use Rattle.std.specs.Prelude.{◌≡◌, length, drop};
ghost use Rattle.distr.specs.Distribution.{error, skips_of};
ghost use Rattle.distr.specs.Draw.{outcome, signed_draw, encoded_draw};
ghost use Rattle.distr.specs.Answers.{sums, reported};
ghost use Rattle.error_sampler.specs.Sampler.{is_made};
ghost use Rattle.signed_discrete_gaussian.specs.Lent.{lent};
ghost use Rattle.primus_distr.specs.Views.{making_gaussian, as_error};

use distr::answer::Answer;
use distr::error_distribution::ErrorDistribution;
use distr::gaussian_parameters::GaussianParameters;
use error_sampler::ErrorSampler;
use gaussian_core::parameters::new_parameters;
use methods::SamplingMethod;

// The deviation and its support. The fields are public, so a draw judges them first (21).
#[derive(Clone, Copy)]
pub struct SignedDiscreteGaussian {
    pub parameters: GaussianParameters,
}

// What making hands back: number 0 and the sampler, or 2 or 3 and an empty one.
#[derive(Clone, Copy)]
pub struct MadeSignedDiscreteGaussian {
    pub number: u32,
    pub sampler: SignedDiscreteGaussian,
}

// The same sampler of errors.
fn as_error(sampler: SignedDiscreteGaussian) -> ErrorSampler
    ensures { result ≡ as_error sampler }
{
    let parameters = sampler.parameters;
    ErrorSampler {
        distribution: ErrorDistribution::Gaussian {
            standard_deviation: parameters.standard_deviation,
        },
        method: SamplingMethod::Gaussian(parameters),
    }
}

impl SignedDiscreteGaussian {
    // Prepares a sampler: 2 for a deviation that is refused, 3 for a support above 4,095.
    pub fn new(standard_deviation: f64) -> MadeSignedDiscreteGaussian
        ensures { result ≡ making_gaussian standard_deviation }
    {
        match new_parameters(standard_deviation) {
            Ok(parameters) => MadeSignedDiscreteGaussian {
                number: 0,
                sampler: SignedDiscreteGaussian { parameters },
            },
            Err(why) => MadeSignedDiscreteGaussian {
                number: why.number(),
                sampler: SignedDiscreteGaussian {
                    parameters: GaussianParameters {
                        standard_deviation: 0.0,
                        maximum_magnitude: 0,
                    },
                },
            },
        }
    }

    // The deviation.
    pub fn standard_deviation(self) -> f64
        ensures { result ≡ self.parameters.standard_deviation }
    {
        self.parameters.standard_deviation
    }

    // An inclusive bound on every coefficient's magnitude: the support.
    pub fn maximum_magnitude(self) -> u64
        ensures { result ≡ self.parameters.maximum_magnitude }
    {
        self.parameters.maximum_magnitude
    }

    // Draws signed coefficients over the whole output. Numbers in order: 21, 22, 6, 12 or 13, 23.
    pub fn sample_to(
        self,
        output: &mut [i64],
        bounds: &[u64],
        endpoints: &[u64],
        heights: &[f64],
        curve: &[f64],
        words: &[u32],
        place: usize,
    ) -> Answer
        ensures output_after { outcome result output.new ≡ signed_draw (is_made (as_error self)) (error (as_error self).distribution)
            (lent bounds.now endpoints.now heights.now curve.now)
            words.now place output.old }
        ensures result_value { sums result ≡ reported result.number (skips_of (error (as_error self).distribution) (length output.old) (lent bounds.now endpoints.now heights.now curve.now) (drop place words.now)) }
    {
        let sampler = as_error(self);
        sampler.sample_signed_to(output, bounds, endpoints, heights, curve, words, place)
    }

    // Draws residues of a modulus over the whole output. Numbers in order: 21, 22, 6, 9, 12 or 13, 23.
    pub fn sample_encoded_to(
        self,
        output: &mut [u64],
        modulus: u64,
        bounds: &[u64],
        endpoints: &[u64],
        heights: &[f64],
        curve: &[f64],
        words: &[u32],
        place: usize,
    ) -> Answer
        ensures output_after { outcome result output.new ≡ encoded_draw (is_made (as_error self)) (error (as_error self).distribution)
            (lent bounds.now endpoints.now heights.now curve.now) modulus
            words.now place output.old }
        ensures result_value { sums result ≡ reported result.number (skips_of (error (as_error self).distribution) (length output.old) (lent bounds.now endpoints.now heights.now curve.now) (drop place words.now)) }
    {
        let sampler = as_error(self);
        sampler.sample_encoded_to(
            output, modulus, bounds, endpoints, heights, curve, words, place,
        )
    }
}
