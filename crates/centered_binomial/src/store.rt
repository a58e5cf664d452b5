// The loop that stores.
ghost use Rattle.std.specs.Prelude.{◌≡◌, ◌+◌, ◌*◌, length, drop};
ghost use Rattle.distr.specs.CenteredBinomial.{binomial_value};
ghost use Rattle.distr.specs.Words.{got};
ghost use Rattle.numbers.specs.Answering.{wide_read};
ghost use Rattle.centered_binomial.specs.Binomial.{Ready};

use crate::{CenteredBinomialParameters, ones_of, upper_mask};
use output::Output;
use words::wide_word;

// Writes coefficients over the whole output, whose words are known to be there.
pub(crate) fn fill<T: Output>(
    output: &mut [T],
    encoding: T::Encoding,
    parameters: CenteredBinomialParameters,
    words: &[u32],
    place: usize,
)
    requires { Ready parameters (length output.old) (length words.now) place }
    ensures { wide_read (λ w. T.held_one encoding (binomial_value parameters.eta w)) (length output.old) (drop place words.now) ≡
        got output.new (drop (place + 2 * length output.old) words.now) }
{
    let n = output.len();
    let upper = upper_mask(parameters);
    for i in 0..n {
        let at = place + 2 * i;
        let word = wide_word(words[at], words[at + 1]);
        let ones = ones_of(parameters, upper, word);
        output[i] = T::difference(encoding, ones.first, ones.second);
    }
}
