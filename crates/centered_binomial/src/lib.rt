// Inner crate of primus_distr: the centered binomial of FIPS 203, Algorithm 8, its prepared state, how a word's ones are counted, and its draws over
// every output. A coefficient is the ones of eta bits minus the ones of the next eta bits, a 64-bit word for each.
#![tactic(auto)]

pub mod deviation;
pub mod draw;
mod store;

ghost use Rattle.std.specs.Prelude.{◌≡◌, cond};
ghost use Rattle.std.specs.Int.Bits.{bit_and};
ghost use Rattle.std.specs.Int.Count.{ones};
ghost use Rattle.centered_binomial.specs.Binomial.{making, is_made_binomial, upper_mask};

use distr::limits::MAX_ETA;
use distr::refusal::Refusal;

// What making prepares: eta, and a mask of eta ones.
#[derive(Clone, Copy, Debug, PartialEq, Eq)]
pub struct CenteredBinomialParameters {
    pub eta: u32,
    pub mask: u64,
}

// The ones of the low eta bits of a word, and those of the next eta bits.
#[derive(Clone, Copy, Debug, PartialEq, Eq)]
pub struct Ones {
    pub first: u32,
    pub second: u32,
}

impl CenteredBinomialParameters {
    // Prepares an eta of 1 to 32, so that both parts fit one 64-bit word.
    #[tactic(auto, using(crate::proofs::Made::one_up), unfolding(distr::specs::Making::error_number))]
    pub fn new(eta: u32) -> Result<CenteredBinomialParameters, Refusal>
        ensures { result ≡ making eta }
    {
        if (1 <= eta) & (eta <= MAX_ETA) {
            Ok(CenteredBinomialParameters {
                eta,
                mask: (1u64 << eta) - 1,
            })
        } else {
            Err(Refusal::InvalidEta)
        }
    }
}

// Whether making gives these parameters: the fields are public, so a caller can write any values there.
pub fn is_made(parameters: CenteredBinomialParameters) -> bool
    ensures { result ≡ is_made_binomial parameters }
{
    match CenteredBinomialParameters::new(parameters.eta) {
        Ok(made) => parameters == made,
        Err(_) => false,
    }
}

// The mask of the eta bits above those of the mask, or 0 for parameters that making never gives.
#[tactic(auto, using(crate::proofs::Counting::upper_fits))]
pub fn upper_mask(parameters: CenteredBinomialParameters) -> u64
    ensures { result ≡ cond (is_made_binomial parameters) (upper_mask parameters) 0 }
{
    if !is_made(parameters) {
        return 0;
    }
    parameters.mask << parameters.eta
}

// The ones of the two parts of a word. The word is not moved: the mask of the upper part stands above the first, and the
// caller makes it once for all its words.
pub fn ones_of(parameters: CenteredBinomialParameters, upper: u64, word: u64) -> Ones
    ensures { (result.first ≡ ones (bit_and word parameters.mask)) × (result.second ≡ ones (bit_and word upper)) }
{
    let low = parameters.mask;
    let first = u64::count_ones(word & low);
    let second = u64::count_ones(word & upper);
    Ones { first, second }
}
