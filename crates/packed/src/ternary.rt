// Ternary values straight from the words; the encoding says how −1 is held.
ghost use Rattle.std.specs.Prelude.{◌≡◌, length, drop};
ghost use Rattle.distr.specs.Packed.{sparse_ternary, signs_alone};
ghost use Rattle.distr.specs.UniformTernary.{uniform_ternary};
ghost use Rattle.distr.specs.Draw.{outcome, rule_draw};
ghost use Rattle.distr.specs.Answers.{sums, reported};

use crate::bytes::rejected_bytes;
use crate::tables::Tables;
use crate::trits::{TritsBy, trit_table};
use crate::width::Width;
use crate::{draws, needed, pairs, stores};
use distr::answer::{Answer, refused, succeeded, succeeded_after};
use distr::refusal::Refusal;
use numbers::check_draw;
use output::{Output, clear};

// Sparse ternary values: 16 two-bit groups a word, lowest first, standing for 0, 0, 1 and −1.
#[tactic(auto, using(distr::proofs::Skipping::reports_nothing))]
pub fn sample_sparse_ternary_values_to<T: Output>(
    output: &mut [T],
    encoding: T::Encoding,
    words: &[u32],
    place: usize,
) -> Answer
    ensures output_after { outcome result output.new ≡ rule_draw (T.held encoding) 0 (sparse_ternary (length output.old)) words.now place output.old }
    ensures result_value { sums result ≡ reported result.number ((sparse_ternary (length output.old)).skips (drop place words.now)) }
{
    let zero = T::natural(0);
    let pairs = pairs::groups(zero, zero, T::natural(1), T::minus_one(encoding));
    let words_needed = needed::sparse_words(output.len());
    draws::draw(output, &pairs, Width::Groups, words_needed, words, place)
}

// Uniform ternary values: a byte below 243 holds five base-3 digits, lowest first, standing for −1, 0 and 1; others are rejected. How many
// follows from the words taken, the bytes left and those accepted, so nothing is counted on the way. For no values no table is made.
#[tactic(auto, using(crate::proofs::TritLoop::taken_rejected, crate::proofs::Deciding::none_rejected), unfolding(distr::specs::Answers::reported))]
fn draw_uniform_ternary<T: Output>(
    output: &mut [T],
    encoding: T::Encoding,
    by: TritsBy,
    words: &[u32],
    place: usize,
) -> Answer
    ensures output_after { outcome result output.new ≡ rule_draw (T.held encoding) 0 (uniform_ternary (length output.old)) words.now place output.old }
    ensures result_value { sums result ≡ reported result.number ((uniform_ternary (length output.old)).skips (drop place words.now)) }
{
    let n = output.len();
    if let Err(why) = check_draw(words.len(), place, n, Ok(())) {
        return refused(why, place);
    }
    if n == 0 {
        return succeeded(place);
    }
    let pairs = pairs::trits(T::minus_one(encoding), T::natural(0), T::natural(1));
    let groups = trit_table();
    let tables = Tables {
        pairs: &pairs,
        groups: &groups,
        by,
    };
    let Some(ended) = stores::fill_trits(output, &tables, words, place) else {
        clear(output);
        return refused(Refusal::OutOfWords, place);
    };
    let rejected = rejected_bytes(ended.place - place, ended.left + (n + 4) / 5);
    succeeded_after(ended.place, 0, rejected)
}

// Uniform ternary values by the table of trits: the engine's way.
pub fn sample_uniform_ternary_values_to<T: Output>(
    output: &mut [T],
    encoding: T::Encoding,
    words: &[u32],
    place: usize,
) -> Answer
    ensures output_after { outcome result output.new ≡ rule_draw (T.held encoding) 0 (uniform_ternary (length output.old)) words.now place output.old }
    ensures result_value { sums result ≡ reported result.number ((uniform_ternary (length output.old)).skips (drop place words.now)) }
{
    draw_uniform_ternary(output, encoding, TritsBy::Table, words, place)
}

// The same by division, as the Rust has it.
pub fn sample_uniform_ternary_values_by_division_to<T: Output>(
    output: &mut [T],
    encoding: T::Encoding,
    words: &[u32],
    place: usize,
) -> Answer
    ensures output_after { outcome result output.new ≡ rule_draw (T.held encoding) 0 (uniform_ternary (length output.old)) words.now place output.old }
    ensures result_value { sums result ≡ reported result.number ((uniform_ternary (length output.old)).skips (drop place words.now)) }
{
    draw_uniform_ternary(output, encoding, TritsBy::Division, words, place)
}

// Signs alone, for a key without a 0: 32 bits a word, lowest first, 1 for 1 and 0 for −1.
#[tactic(auto, using(distr::proofs::Skipping::reports_nothing))]
pub fn sample_signs_to<T: Output>(
    output: &mut [T],
    encoding: T::Encoding,
    words: &[u32],
    place: usize,
) -> Answer
    ensures output_after { outcome result output.new ≡ rule_draw (T.held encoding) 0 (signs_alone (length output.old)) words.now place output.old }
    ensures result_value { sums result ≡ reported result.number ((signs_alone (length output.old)).skips (drop place words.now)) }
{
    let pairs = pairs::bits(T::minus_one(encoding), T::natural(1));
    let words_needed = needed::sign_words(output.len());
    draws::draw(output, &pairs, Width::Bits, words_needed, words, place)
}
