// Values inserted at chosen places, as the Rust's insert_random_values has it. A plan says what fills and what is inserted.
ghost use Rattle.std.specs.Prelude.{◌≡◌, ◌+◌, ◌-◌, ◌≤◌, ◌<◌, IfSome, map, length, get_or, take, drop, set, replicate};
ghost use Rattle.distr.specs.Constants.{output_limit};
ghost use Rattle.distr.specs.Words.{map_read};
ghost use Rattle.distr.specs.Rule.{read_by};
ghost use Rattle.distr.specs.Draw.{outcome, settled};
ghost use Rattle.distr.specs.Answers.{sums, reported};
ghost use Rattle.distr.specs.Insertion.{signed_insertion};
ghost use Rattle.fixed_weights.specs.Inserting.{insert_all, stopped};
ghost use Rattle.fixed_weights.specs.Plans.{plan_rule, planned};

use crate::choices;
use crate::choices::Signs;
use crate::plans::Plan;
use distr::answer::{Answer, refused, succeeded_after};
use distr::refusal::Refusal;
use output::{Output, clear, fill};
use ternary::draw::encoded;

// Copies place s to the index i and puts the value at s.
fn insert_at<T: Copy>(output: &mut [T], i: usize, s: usize, value: T)
    requires { (i < length output.old) × (s < length output.old) }
    ensures { output.new ≡ set (set output.old i (get_or output.old s value)) s value }
{
    output[i] = output[s];
    output[s] = value;
}

// Inserts the value at each index from `start` to `end`, at a place chosen among those up to it, and hands back the place after the words taken.
// The cast of the index tells the compiler that a choice is among at most 65,536, so that the choice's size needs no test.
#[tactic(auto, using(crate::proofs::Turns::copying_first, crate::proofs::Turns::copying_done, crate::proofs::Turns::copying_short, crate::proofs::Turns::copying_place, crate::proofs::Turns::copying_next))]
fn insert_copies<T: Copy>(
    output: &mut [T],
    start: usize,
    end: usize,
    value: T,
    words: &[u32],
    place: usize,
) -> Option<usize>
    requires range { (start ≤ end) × (end ≤ length output.old) }
    requires limited { length output.old ≤ output_limit }
    requires there { place ≤ length words.now }
    ensures keeps_length { length output.new ≡ length output.old }
    ensures within { IfSome result (λ next. next ≤ length words.now) }
    ensures inserts { stopped result (take end output.new) words.now ≡
        insert_all (replicate (end - start) value) (take start output.old) (drop place words.now) }
{
    let mut next = place;
    for i in start..end {
        let chosen = words::uniform_below(words, next, i as u16 as u64 + 1)?;
        insert_at(output, i, chosen.value as usize, value);
        next = chosen.place;
    }
    Some(next)
}

// Fills the output, then inserts by the plan at each index from the first that is left. Hands back the place after the words taken.
fn insert_plan<T: Output>(
    output: &mut [T],
    encoding: T::Encoding,
    plan: Plan,
    words: &[u32],
) -> Option<usize>
    requires room { planned plan ≤ length output.old }
    requires limited { length output.old ≤ output_limit }
    ensures keeps_length { length output.new ≡ length output.old }
    ensures within { IfSome result (λ next. next ≤ length words.now) }
    ensures inserts { stopped result output.new words.now ≡
        map_read (T.held encoding) (read_by (plan_rule plan (length output.old)) words.now) }
{
    let n = output.len();
    let split = n - plan.seconds;
    fill(output, encoded(encoding, plan.fill));
    let first = encoded(encoding, plan.first);
    let next = insert_copies(output, split - plan.firsts, split, first, words, 0)?;
    let second = encoded(encoding, plan.second);
    insert_copies(output, split, n, second, words, next)
}

// The draw by a plan. The words from the place on are a slice of their own, which the compiler keeps at hand in the loop. Of the words taken one was
// used for each value inserted; the choices passed over the others.
#[tactic(auto, using(crate::proofs::Settling::settled_some, crate::proofs::Settling::plan_used, crate::proofs::Settling::plan_reports, crate::proofs::Settling::short_reports))]
pub(crate) fn insert_random_values<T: Output>(
    output: &mut [T],
    encoding: T::Encoding,
    plan: Plan,
    words: &[u32],
    place: usize,
) -> Answer
    requires room { planned plan ≤ length output.old }
    requires limited { length output.old ≤ output_limit }
    requires there { place ≤ length words.now }
    ensures output_after { outcome result output.new ≡
        settled (T.held encoding) (length words.now) place (length output.old) (read_by (plan_rule plan (length output.old)) (drop place words.now)) }
    ensures result_value { sums result ≡ reported result.number ((plan_rule plan (length output.old)).skips (drop place words.now)) }
{
    let used = plan.firsts + plan.seconds;
    match insert_plan(output, encoding, plan, &words[place..]) {
        Some(next) => succeeded_after(place + next, (next - used) as u64, 0),
        None => {
            clear(output);
            refused(Refusal::OutOfWords, place)
        }
    }
}

// Fills the output with zeros, then inserts `hamming_weight` signs, each at a place chosen among those up to its index. Hands back the place after the
// words taken. A sign's value is looked up by its bit, with no branch on what is drawn.
#[tactic(auto, using(crate::proofs::SignTurns::signs_done, crate::proofs::SignTurns::signs_short, crate::proofs::SignTurns::sign_bit, crate::proofs::SignTurns::sign_place))]
fn insert_signs<T: Output>(
    output: &mut [T],
    encoding: T::Encoding,
    hamming_weight: usize,
    words: &[u32],
) -> Option<usize>
    requires room { hamming_weight ≤ length output.old }
    requires limited { length output.old ≤ output_limit }
    ensures keeps_length { length output.new ≡ length output.old }
    ensures within { IfSome result (λ next. next ≤ length words.now) }
    ensures inserts { stopped result output.new words.now ≡
        map_read (T.held encoding) (read_by (signed_insertion hamming_weight (length output.old)) words.now) }
{
    let n = output.len();
    let values = [T::minus_one(encoding), T::natural(1)];
    fill(output, T::natural(0));
    let mut next = 0;
    let mut signs = Signs { word: 0, left: 0 };
    for i in n - hamming_weight..n {
        let chosen = choices::sign_and_place(words, next, signs, i as u16 as u64 + 1)?;
        insert_at(output, i, chosen.selected, values[chosen.bit]);
        signs = chosen.signs;
        next = chosen.place;
    }
    Some(next)
}

// The draw of signs. The slice of the words is as above; of the words taken one was used for each choice and one for each 32 signs.
#[tactic(auto, using(crate::proofs::Settling::settled_some, crate::proofs::Settling::signs_used, crate::proofs::Settling::signs_reports, crate::proofs::Settling::short_reports))]
pub(crate) fn insert_random_signs<T: Output>(
    output: &mut [T],
    encoding: T::Encoding,
    hamming_weight: usize,
    words: &[u32],
    place: usize,
) -> Answer
    requires room { hamming_weight ≤ length output.old }
    requires limited { length output.old ≤ output_limit }
    requires there { place ≤ length words.now }
    ensures output_after { outcome result output.new ≡
        settled (T.held encoding) (length words.now) place (length output.old)
        (read_by (signed_insertion hamming_weight (length output.old)) (drop place words.now)) }
    ensures result_value { sums result ≡ reported result.number ((signed_insertion hamming_weight (length output.old)).skips (drop place words.now)) }
{
    let used = hamming_weight + (hamming_weight + 31) / 32;
    match insert_signs(output, encoding, hamming_weight, &words[place..]) {
        Some(at) => succeeded_after(place + at, (at - used) as u64, 0),
        None => {
            clear(output);
            refused(Refusal::OutOfWords, place)
        }
    }
}
