// Exactly so many -1 and so many 1 at chosen places; the encoding says how -1 is held.
ghost use Rattle.std.specs.Prelude.{◌≡◌, ◌+◌, length, drop};
ghost use Rattle.distr.specs.Numbers.{bad_weight};
ghost use Rattle.distr.specs.Insertion.{fixed_composition};
ghost use Rattle.distr.specs.Draw.{outcome, rule_draw};
ghost use Rattle.distr.specs.Answers.{sums, reported};

use crate::{insertion, plans};
use distr::answer::{Answer, refused};
use output::Output;

// Exactly minus_one_weight times -1 and one_weight times 1, the rest zeros.
#[tactic(auto, using(crate::proofs::Judging::number_there, crate::proofs::Judging::number_limited, crate::proofs::Planning::plan_skips, crate::proofs::PlanRules::composition_planned))]
pub fn sample_fixed_composition_ternary_values_to<T: Output>(
    output: &mut [T],
    encoding: T::Encoding,
    minus_one_weight: usize,
    one_weight: usize,
    words: &[u32],
    place: usize,
) -> Answer
    ensures output_after { outcome result output.new ≡ rule_draw (T.held encoding) (bad_weight (minus_one_weight + one_weight) (length output.old)) (fixed_composition minus_one_weight one_weight (length output.old)) words.now place output.old }
    ensures result_value { sums result ≡ reported result.number ((fixed_composition minus_one_weight one_weight (length output.old)).skips (drop place words.now)) }
{
    let n = output.len();
    match plans::composition_plan(words.len(), place, n, minus_one_weight, one_weight) {
        Ok(plan) => insertion::insert_random_values(output, encoding, plan, words, place),
        Err(why) => refused(why, place),
    }
}
