// Draws packed into words, by a table of pairs: refused, short of words, or filled. What the digits stand for is the caller's.
ghost use Rattle.std.specs.Prelude.{◌≡◌, ◌*◌, ◌≤◌, length};
ghost use Rattle.distr.specs.Draw.{outcome};
ghost use Rattle.distr.specs.Answers.{sums};
ghost use Rattle.distr.specs.Skipped.{nothing};
ghost use Rattle.packed.specs.Pairs.{digit_value, Paired};
ghost use Rattle.packed.specs.Cutting.{digit_base, digits_aWord};
ghost use Rattle.packed.specs.Tabled.{DrawsByTable};

use crate::stores;
use crate::width::Width;
use distr::answer::{Answer, refused, succeeded};
use distr::refusal::Refusal;
use numbers::check_draw;
use output::{Output, clear};

// `words_needed` words are read, which hold digits enough.
#[tactic(auto, using(numbers::proofs::Refusing::number_passed))]
pub(crate) fn draw<T: Output>(
    output: &mut [T],
    pairs: &[T],
    width: Width,
    words_needed: usize,
    words: &[u32],
    place: usize,
) -> Answer
    requires { Paired (digit_base width) (T.natural 0) pairs.now × (length output.old ≤ words_needed * digits_aWord width) }
    ensures draws_by_table { DrawsByTable (T.natural 0) (digit_value (T.natural 0) pairs.now) (digit_base width) (digits_aWord width) words_needed
        words.now place output.old (outcome result output.new) }
    ensures result_value { sums result ≡ nothing }
{
    let count = words.len();
    if let Err(why) = check_draw(count, place, output.len(), Ok(())) {
        return refused(why, place);
    }
    if count - place < words_needed {
        clear(output);
        return refused(Refusal::OutOfWords, place);
    }
    stores::fill_words(output, pairs, width, words, place);
    succeeded(place + words_needed)
}
