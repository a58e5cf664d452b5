// Exactly so many nonzero values at chosen places.
ghost use Rattle.std.specs.Prelude.{◌≡◌, length, drop};
ghost use Rattle.distr.specs.Numbers.{bad_weight};
ghost use Rattle.distr.specs.Insertion.{fixed_binary_weight, fixed_ternary_weight};
ghost use Rattle.distr.specs.Draw.{outcome, rule_draw};
ghost use Rattle.distr.specs.Answers.{sums, reported};

use crate::{insertion, plans};
use distr::answer::{Answer, refused};
use output::Output;
use packed::ternary::sample_signs_to;

// Exactly hamming_weight ones, the rest zeros.
#[tactic(auto, using(crate::proofs::Judging::number_there, crate::proofs::Judging::number_limited, crate::proofs::Planning::plan_room, crate::proofs::Planning::plan_skips, crate::proofs::PlanRules::binary_planned))]
pub fn sample_fixed_hamming_weight_binary_values_to<T: Output>(
    output: &mut [T],
    encoding: T::Encoding,
    hamming_weight: usize,
    words: &[u32],
    place: usize,
) -> Answer
    ensures output_after { outcome result output.new ≡
        rule_draw (T.held encoding) (bad_weight hamming_weight (length output.old))
        (fixed_binary_weight hamming_weight (length output.old)) words.now place output.old }
    ensures result_value { sums result ≡ reported result.number ((fixed_binary_weight hamming_weight (length output.old)).skips (drop place words.now)) }
{
    match plans::binary_plan(words.len(), place, output.len(), hamming_weight) {
        Ok(plan) => insertion::insert_random_values(output, encoding, plan, words, place),
        Err(why) => refused(why, place),
    }
}

// Exactly hamming_weight values that are not 0, each with a sign of its own; where all are, only signs are read. The
// encoding says how -1 is held.
#[tactic(auto, using(crate::proofs::Weighing::weight_light, crate::proofs::Weighing::weight_there, crate::proofs::Weighing::weight_limited, crate::proofs::Weighing::signs_draw, crate::proofs::Weighing::all_signs_draw, crate::proofs::Weighing::all_signs_skip, crate::proofs::Weighing::signs_skip))]
pub fn sample_fixed_hamming_weight_ternary_values_to<T: Output>(
    output: &mut [T],
    encoding: T::Encoding,
    hamming_weight: usize,
    words: &[u32],
    place: usize,
) -> Answer
    ensures output_after { outcome result output.new ≡ rule_draw (T.held encoding) (bad_weight hamming_weight (length output.old))
        (fixed_ternary_weight hamming_weight (length output.old)) words.now place output.old }
    ensures result_value { sums result ≡ reported result.number ((fixed_ternary_weight hamming_weight (length output.old)).skips (drop place words.now)) }
{
    let n = output.len();
    if let Err(why) = plans::check_weights(words.len(), place, n, hamming_weight, 0) {
        return refused(why, place);
    }
    if hamming_weight == n {
        return sample_signs_to(output, encoding, words, place);
    }
    insertion::insert_random_signs(output, encoding, hamming_weight, words, place)
}
