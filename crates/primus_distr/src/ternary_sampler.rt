// The ternary sampler of two probabilities: a view of the secret-key sampler of the distribution `Ternary`.
ghost use Rattle.std.specs.Prelude.{◌≡◌, length, drop};
ghost use Rattle.distr.specs.Distribution.{secret, skips_of};
ghost use Rattle.distr.specs.Draw.{outcome, signed_draw, encoded_draw, no_tables};
ghost use Rattle.distr.specs.Answers.{sums, reported};
ghost use Rattle.secret_key_sampler.specs.Sampler.{is_made};
ghost use Rattle.primus_distr.specs.Views.{making_ternary, as_key};

use distr::answer::Answer;
use distr::secret_key_distr::SecretKeyDistr;
use methods::SamplingMethod;
use secret_key_method::prepare::ternary_ends;
use secret_key_sampler::SecretKeySampler;
use ternary::ternary::TernaryEnds;

// The probabilities of -1 and 1, and the ends that making finds for them. The fields are public, so a draw judges them first (21).
#[derive(Clone, Copy)]
pub struct TernarySampler {
    pub negative_one_probability: f64,
    pub one_probability: f64,
    pub ends: TernaryEnds,
}

// What making hands back: number 0 and the sampler, or 1 and an empty one.
#[derive(Clone, Copy)]
pub struct MadeTernarySampler {
    pub number: u32,
    pub sampler: TernarySampler,
}

// The same sampler of secret keys.
fn as_key(sampler: TernarySampler) -> SecretKeySampler
    ensures { result ≡ as_key sampler }
{
    let ends = sampler.ends;
    SecretKeySampler {
        distr: SecretKeyDistr::Ternary {
            negative_one_probability: sampler.negative_one_probability,
            one_probability: sampler.one_probability,
        },
        method: SamplingMethod::Ternary(ends),
    }
}

impl TernarySampler {
    // Prepares a sampler: 1 where a probability is refused or the two exceed one. The empty sampler has other ends than its probabilities.
    pub fn try_new(negative_one_probability: f64, one_probability: f64) -> MadeTernarySampler
        ensures { result ≡ making_ternary negative_one_probability one_probability }
    {
        match ternary_ends(negative_one_probability, one_probability) {
            Ok(ends) => MadeTernarySampler {
                number: 0,
                sampler: TernarySampler {
                    negative_one_probability,
                    one_probability,
                    ends,
                },
            },
            Err(why) => MadeTernarySampler {
                number: why.number(),
                sampler: TernarySampler {
                    negative_one_probability: 0.0,
                    one_probability: 0.0,
                    ends: TernaryEnds::General {
                        negative_end: 0,
                        nonzero_end: 0,
                    },
                },
            },
        }
    }

    // Draws signed coefficients over the whole output. Numbers in order: 21, 22, 6, 23.
    pub fn sample_signed_to(self, output: &mut [i64], words: &[u32], place: usize) -> Answer
        ensures output_after { outcome result output.new ≡ signed_draw (is_made (as_key self)) (secret (as_key self).distr) no_tables
            words.now place output.old }
        ensures result_value { sums result ≡ reported result.number (skips_of (secret (as_key self).distr) (length output.old) no_tables (drop place words.now)) }
    {
        let sampler = as_key(self);
        sampler.sample_signed_to(output, &[], &[], &[], &[], words, place)
    }

    // Draws residues of a modulus over the whole output. Numbers in order: 21, 22, 6, 9, 23.
    pub fn sample_encoded_to(
        self,
        output: &mut [u64],
        modulus: u64,
        words: &[u32],
        place: usize,
    ) -> Answer
        ensures output_after { outcome result output.new ≡ encoded_draw (is_made (as_key self)) (secret (as_key self).distr) no_tables modulus
            words.now place output.old }
        ensures result_value { sums result ≡ reported result.number (skips_of (secret (as_key self).distr) (length output.old) no_tables (drop place words.now)) }
    {
        let sampler = as_key(self);
        sampler.sample_encoded_to(output, modulus, &[], &[], &[], &[], words, place)
    }
}
