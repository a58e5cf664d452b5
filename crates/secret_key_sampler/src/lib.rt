// Behind primus_distr, by which callers reach it: whole keys from lent words, by a prepared sampler with signed, encoded and CRT output.
#![tactic(auto)]

mod draws;

ghost use Rattle.std.specs.Prelude.{◌≡◌, not, [], ◌∷◌};
ghost use Rattle.distr.specs.Distribution.{secret};
ghost use Rattle.distr.specs.Making.{refuse, largest};
ghost use Rattle.distr.specs.Constants.{never_made};
ghost use Rattle.distr.specs.Numbers.{first_of, length_number, modulus_number};
ghost use Rattle.distr.specs.Refusals.{number_of, Makes};
ghost use Rattle.methods.specs.Method.{magnitude_of};
ghost use Rattle.secret_key_sampler.specs.Sampler.{making, is_made};

use distr::refusal::Refusal;
use distr::secret_key_distr::SecretKeyDistr;
use methods::key::same_method;
use methods::{SamplingMethod, check_length, check_modulus_by, tested};
pub use secret_key_method::family::{is_binary, is_ternary};
use secret_key_method::prepare;

// A prepared sampler. Its fields are public, so a draw judges first whether making gives it (21).
#[derive(Clone, Copy)]
pub struct SecretKeySampler {
    pub distr: SecretKeyDistr,
    pub method: SamplingMethod,
}

// What making hands back: number 0 and the sampler, or the number that refuses and the empty sampler.
#[derive(Clone, Copy)]
pub struct MadeSecretKeySampler {
    pub number: u32,
    pub sampler: SecretKeySampler,
}

impl SecretKeySampler {
    // Prepares a distribution: 1 for bad probabilities, 2 or 3 for a bad deviation, 5 for a bad block size, else the sampler.
    pub fn try_new(distr: SecretKeyDistr) -> MadeSecretKeySampler
        ensures { result ≡ making distr }
    {
        match prepare::prepare(distr) {
            Ok(method) => MadeSecretKeySampler {
                number: 0,
                sampler: SecretKeySampler { distr, method },
            },
            Err(why) => MadeSecretKeySampler {
                number: why.number(),
                sampler: SecretKeySampler {
                    distr: SecretKeyDistr::UniformBinary,
                    method: SamplingMethod::Empty,
                },
            },
        }
    }

    // Refuses with 21 a sampler that making never gives, with 7 weights over the length, with 8 a length that is no whole number of blocks.
    pub fn validate_length(self, length: usize) -> Result<(), Refusal>
        ensures { number_of result ≡ first_of (refuse (not (is_made self)) 21 ∷ length_number (secret self.distr) length ∷ []) }
    {
        if !is_made(self) {
            return Err(Refusal::NeverMade);
        }
        let method = self.method;
        check_length(method, length)
    }

    // Refuses with 21 a sampler that making never gives, with 9 a modulus that is not above the largest magnitude.
    pub fn validate_modulus(self, modulus: u64) -> Result<(), Refusal>
        ensures { number_of result ≡ first_of (refuse (not (is_made self)) 21 ∷ modulus_number (largest (secret self.distr)) modulus ∷ []) }
    {
        let made = is_made(self);
        let method = self.method;
        check_modulus_by(made, methods::maximum_magnitude(method), modulus)
    }

    // The distribution; of a sampler that making never gives, the one that it holds (the empty sampler holds UniformBinary).
    pub fn distr(self) -> SecretKeyDistr
        ensures { result ≡ self.distr }
    {
        self.distr
    }

    // An inclusive bound on every coefficient's magnitude: the Gaussian's support, else 1. For a sampler that making never
    // gives, the support that its method holds, or 1: nothing is drawn by it.
    pub fn maximum_magnitude(self) -> u64
        ensures { result ≡ magnitude_of self.method }
    {
        let method = self.method;
        methods::maximum_magnitude(method)
    }

    // What the sampler draws by: its method, with 21 where making never gives the sampler.
    pub fn prepared(self) -> Result<SamplingMethod, Refusal>
        ensures { Makes (refuse (not (is_made self)) never_made) self.method result }
    {
        let made = is_made(self);
        let method = self.method;
        tested(made, method)
    }
}

// Whether making gives this sampler: its distribution is prepared again, and the methods are compared.
pub fn is_made(sampler: SecretKeySampler) -> bool
    ensures { result ≡ is_made sampler }
{
    let distr = sampler.distr;
    let method = sampler.method;
    match prepare::prepare(distr) {
        Ok(again) => same_method(method, again),
        Err(_) => false,
    }
}
