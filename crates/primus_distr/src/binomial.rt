// The centered binomial: a view of the error sampler of the distribution `CenteredBinomial`.
ghost use Rattle.std.specs.Prelude.{◌≡◌, length, drop};
ghost use Rattle.distr.specs.Distribution.{error, skips_of};
ghost use Rattle.distr.specs.Draw.{outcome, signed_draw, encoded_draw, no_tables};
ghost use Rattle.distr.specs.Answers.{sums, reported};
ghost use Rattle.error_sampler.specs.Sampler.{is_made};
ghost use Rattle.primus_distr.specs.Views.{making_binomial, as_binomial_error};

use centered_binomial::CenteredBinomialParameters;
use distr::answer::Answer;
use distr::error_distribution::ErrorDistribution;
use error_sampler::ErrorSampler;
use methods::SamplingMethod;

// Eta and its mask. The fields are public, so a draw judges them first (21).
#[derive(Clone, Copy)]
pub struct CenteredBinomial {
    pub parameters: CenteredBinomialParameters,
}

// What making hands back: number 0 and the sampler, or 4 and an empty one.
#[derive(Clone, Copy)]
pub struct MadeCenteredBinomial {
    pub number: u32,
    pub sampler: CenteredBinomial,
}

// The same sampler of errors.
fn as_error(sampler: CenteredBinomial) -> ErrorSampler
    ensures { result ≡ as_binomial_error sampler }
{
    let parameters = sampler.parameters;
    ErrorSampler {
        distribution: ErrorDistribution::CenteredBinomial {
            eta: parameters.eta,
        },
        method: SamplingMethod::CenteredBinomial(parameters),
    }
}

impl CenteredBinomial {
    // Prepares a sampler: 4 for an eta outside 1 to 32.
    #[tactic(auto, unfolding(distr::specs::Making::error_number))]
    pub fn new(eta: u32) -> MadeCenteredBinomial
        ensures { result ≡ making_binomial eta }
    {
        match CenteredBinomialParameters::new(eta) {
            Ok(parameters) => MadeCenteredBinomial {
                number: 0,
                sampler: CenteredBinomial { parameters },
            },
            Err(why) => MadeCenteredBinomial {
                number: why.number(),
                sampler: CenteredBinomial {
                    parameters: CenteredBinomialParameters { eta: 0, mask: 0 },
                },
            },
        }
    }

    // The parameter, which is also the largest magnitude.
    pub fn eta(self) -> u32
        ensures { result ≡ self.parameters.eta }
    {
        self.parameters.eta
    }

    // Draws signed coefficients over the whole output. Numbers in order: 21, 22, 6, 23.
    pub fn sample_to(self, output: &mut [i64], words: &[u32], place: usize) -> Answer
        ensures output_after { outcome result output.new ≡ signed_draw (is_made (as_binomial_error self)) (error (as_binomial_error self).distribution) no_tables
            words.now place output.old }
        ensures result_value { sums result ≡ reported result.number (skips_of (error (as_binomial_error self).distribution) (length output.old) no_tables (drop place words.now)) }
    {
        let sampler = as_error(self);
        sampler.sample_signed_to(output, &[], &[], &[], &[], words, place)
    }

    // Draws residues of a modulus over the whole output. Numbers in order: 21, 22, 6, 10, 9, 23.
    pub fn sample_encoded_to(
        self,
        output: &mut [u64],
        modulus: u64,
        words: &[u32],
        place: usize,
    ) -> Answer
        ensures output_after { outcome result output.new ≡ encoded_draw (is_made (as_binomial_error self)) (error (as_binomial_error self).distribution) no_tables modulus
            words.now place output.old }
        ensures result_value { sums result ≡ reported result.number (skips_of (error (as_binomial_error self).distribution) (length output.old) no_tables (drop place words.now)) }
    {
        let sampler = as_error(self);
        sampler.sample_encoded_to(output, modulus, &[], &[], &[], &[], words, place)
    }
}
