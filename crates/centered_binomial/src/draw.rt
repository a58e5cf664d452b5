// The centered binomial of FIPS 203, Algorithm 8, over a whole output, a 64-bit word for each coefficient.
ghost use Rattle.std.specs.Prelude.{◌≡◌, length, drop};
ghost use Rattle.distr.specs.Draw.{outcome};
ghost use Rattle.distr.specs.Answers.{sums, reported};
ghost use Rattle.distr.specs.CenteredBinomial.{centered_binomial};
ghost use Rattle.centered_binomial.specs.Binomial.{binomial_draw};

use crate::{CenteredBinomialParameters, is_made, store};
use distr::answer::{Answer, refused, succeeded};
use distr::refusal::Refusal;
use numbers::wide_words;
use output::{Output, refuse};

// Draws coefficients over the whole output. Whether the encoding has room for eta is judged before it is called.
pub fn sample_binomial_to<T: Output>(
    output: &mut [T],
    encoding: T::Encoding,
    parameters: CenteredBinomialParameters,
    words: &[u32],
    place: usize,
) -> Answer
    ensures output_after { outcome result output.new ≡ binomial_draw (T.held encoding) parameters words.now place output.old }
    ensures result_value { sums result ≡ reported result.number ((centered_binomial parameters.eta (length output.old)).skips (drop place words.now)) }
{
    if !is_made(parameters) {
        return refused(Refusal::NeverMade, place);
    }
    match wide_words::place_after(Ok(()), true, words.len(), place, output.len()) {
        Ok(after) => {
            store::fill(output, encoding, parameters, words, place);
            succeeded(after)
        }
        Err(why) => refuse(output, why, place),
    }
}
