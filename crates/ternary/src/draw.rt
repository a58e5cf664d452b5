// `Ternary`: -1, 0 and 1 by two thresholds.
ghost use Rattle.std.specs.Prelude.{◌≡◌, length, drop};
ghost use Rattle.distr.specs.Draw.{outcome};
ghost use Rattle.distr.specs.Answers.{sums, reported};
ghost use Rattle.ternary.specs.Sampler.{value_of, sampler_draw, sampler_rule};

use crate::ends;
use crate::ternary::{Plan, TernaryEnds, TernaryValue, plan_of};
use distr::answer::{Answer, succeeded};
use numbers::wide_words;
use output::{Output, fill, refuse};

// A value as the output holds it.
pub fn encoded<T: Output>(encoding: T::Encoding, value: TernaryValue) -> T
    ensures { result ≡ T.held_one encoding (value_of value) }
{
    match value {
        TernaryValue::MinusOne => T::minus_one(encoding),
        TernaryValue::Zero => T::natural(0),
        TernaryValue::One => T::natural(1),
    }
}

// Draws every coefficient by the ends; a constant reads nothing.
pub fn sample_to<T: Output>(
    output: &mut [T],
    encoding: T::Encoding,
    ends: TernaryEnds,
    words: &[u32],
    place: usize,
) -> Answer
    ensures output_after { outcome result output.new ≡
        sampler_draw (T.held encoding) ends words.now place output.old }
    ensures result_value { sums result ≡ reported result.number ((sampler_rule ends (length output.old)).skips (drop place words.now)) }
{
    let plan = plan_of(ends);
    match wide_words::place_after(Ok(()), plan.reads(), words.len(), place, output.len()) {
        Ok(after) => {
            match plan {
                Plan::Constant(value) => fill(output, encoded(encoding, value)),
                Plan::Read(by_word) => ends::fill(output, encoding, by_word, words, place),
            }
            succeeded(after)
        }
        Err(why) => refuse(output, why, place),
    }
}
