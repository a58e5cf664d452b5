// The loops over 64-bit words by two ends.
ghost use Rattle.std.specs.Prelude.{◌≡◌, ◌+◌, ◌*◌, ◌^◌, ◌<◌, ◌≤◌, length, get_or, drop};
ghost use Rattle.distr.specs.Words.{got};
ghost use Rattle.numbers.specs.Answering.{wide_read};
ghost use Rattle.ternary.specs.Sampler.{plan_value};

use crate::ternary::WordPlan;
use output::Output;
use words::wide_word;

// What the plan gives for the 64-bit word at a place, as the output holds it: a choice of two and a sum, and no branch on the word.
fn element<T: Output>(encoding: T::Encoding, plan: WordPlan, words: &[u32], at: usize) -> T
    requires { at + 1 < length words.now }
    ensures { result ≡ T.held_one encoding (plan_value plan (get_or words.now at 0 + get_or words.now (at + 1) 0 * 2 ^ 32)) }
{
    let word = wide_word(words[at], words[at + 1]);
    if word < plan.first_end {
        T::minus_one(encoding)
    } else {
        T::natural(plan.above as u64 + (word < plan.second_end) as u64)
    }
}

// Each element by its 64-bit word, one a turn.
fn fill_rest<T: Output>(
    output: &mut [T],
    encoding: T::Encoding,
    plan: WordPlan,
    words: &[u32],
    place: usize,
)
    requires { place + 2 * length output.old ≤ length words.now }
    ensures { wide_read (λ w. T.held_one encoding (plan_value plan w)) (length output.old) (drop place words.now) ≡
        got output.new (drop (place + 2 * length output.old) words.now) }
{
    let n = output.len();
    for i in 0..n {
        output[i] = element(encoding, plan, words, place + 2 * i);
    }
}

// The same, four a turn: their words are read before anything is stored, since for all the compiler knows a store may change a word. The
// words are there, so nothing is tested on the way. Where the last four end is worked out beforehand, so that a turn has one index to keep. At most
// three elements are left, and are lent on.
pub(crate) fn fill<T: Output>(
    output: &mut [T],
    encoding: T::Encoding,
    plan: WordPlan,
    words: &[u32],
    place: usize,
)
    requires { place + 2 * length output.old ≤ length words.now }
    ensures { wide_read (λ w. T.held_one encoding (plan_value plan w)) (length output.old) (drop place words.now) ≡
        got output.new (drop (place + 2 * length output.old) words.now) }
{
    let n = output.len();
    let end = n - n % 4;
    let mut i: usize = 0;
    let mut at = place;
    // A `while`: a turn moves `i` on by four and `at` by eight.
    while i < end {
        let first = element(encoding, plan, words, at);
        let second = element(encoding, plan, words, at + 2);
        let third = element(encoding, plan, words, at + 4);
        let fourth = element(encoding, plan, words, at + 6);
        output[i] = first;
        output[i + 1] = second;
        output[i + 2] = third;
        output[i + 3] = fourth;
        i += 4;
        at += 8;
    }
    fill_rest(&mut output[i..], encoding, plan, words, at);
}
