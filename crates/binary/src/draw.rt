// `Binary`: ones and zeros by one threshold of 64-bit words.
ghost use Rattle.std.specs.Prelude.{◌≡◌, length, drop};
ghost use Rattle.distr.specs.Draw.{outcome, rule_draw};
ghost use Rattle.distr.specs.Thresholds.{binary};
ghost use Rattle.distr.specs.Answers.{sums, reported};
ghost use Rattle.words.specs.Reading.{threshold_value};

use crate::store;
use distr::answer::{Answer, succeeded};
use distr::threshold::Threshold;
use numbers::wide_words;
use output::{Output, fill, refuse};

// 1 for a 64-bit word below the threshold, else 0; a full threshold gives ones and reads nothing.
pub fn fill_binary<T: Output>(
    output: &mut [T],
    encoding: T::Encoding,
    threshold: Threshold,
    words: &[u32],
    place: usize,
) -> Answer
    ensures output_after { outcome result output.new ≡
        rule_draw (T.held encoding) 0 (binary (threshold_value threshold) (length output.old)) words.now place output.old }
    ensures result_value { sums result ≡ reported result.number ((binary (threshold_value threshold) (length output.old)).skips (drop place words.now)) }
{
    match wide_words::place_after(Ok(()), !threshold.full, words.len(), place, output.len()) {
        Ok(after) => {
            if threshold.full {
                fill(output, T::natural(1));
                return succeeded(after);
            }
            store::fill(output, encoding, threshold.below, words, place);
            succeeded(after)
        }
        Err(why) => refuse(output, why, place),
    }
}
