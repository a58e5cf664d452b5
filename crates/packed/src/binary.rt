// Binary values straight from the words.
ghost use Rattle.std.specs.Prelude.{◌≡◌, length, drop};
ghost use Rattle.distr.specs.Packed.{uniform_binary};
ghost use Rattle.distr.specs.Draw.{outcome, rule_draw};
ghost use Rattle.distr.specs.Answers.{sums, reported};

use crate::width::Width;
use crate::{draws, needed, pairs};
use distr::answer::Answer;
use output::Output;

// Uniform binary values: 32 bits a word, lowest first. A word more is read after the whole ones, also where no bit of it is used.
#[tactic(auto, using(distr::proofs::Skipping::reports_nothing))]
pub fn sample_uniform_binary_values_to<T: Output>(
    output: &mut [T],
    encoding: T::Encoding,
    words: &[u32],
    place: usize,
) -> Answer
    ensures output_after { outcome result output.new ≡ rule_draw (T.held encoding) 0 (uniform_binary (length output.old)) words.now place output.old }
    ensures result_value { sums result ≡ reported result.number ((uniform_binary (length output.old)).skips (drop place words.now)) }
{
    let pairs = pairs::bits(T::natural(0), T::natural(1));
    let words_needed = needed::binary_words(output.len());
    draws::draw(output, &pairs, Width::Bits, words_needed, words, place)
}
