// Inner crate of primus_distr: what refuses a draw by its place and its length, before it looks at a word; and where a draw that reads one 64-bit word for
// each coefficient ends.
#![tactic(auto)]

ghost use Rattle.std.specs.Prelude.{◌≡◌, [], ◌∷◌, ◌+◌};
ghost use Rattle.distr.specs.Numbers.{first_of, past_end, too_long, bad_weight, bad_blocks};
ghost use Rattle.distr.specs.Refusals.{number, number_of};

use distr::limits::MAX_OUTPUT;
use distr::refusal::Refusal;

pub mod wide_words;

// Tests a draw of n coefficients from `place` in `count` words: 22 past the end of the words, 6 too long, or what the draw itself says of a length, a
// weight or a table.
#[tactic(auto, unfolding(distr::specs::Numbers::first_of))]
pub fn check_draw(
    count: usize,
    place: usize,
    n: usize,
    own: Result<(), Refusal>,
) -> Result<(), Refusal>
    ensures { number_of result ≡ first_of (past_end count place ∷ too_long n ∷ number_of own ∷ []) }
{
    if count < place {
        return Err(Refusal::PastEnd);
    }
    if MAX_OUTPUT < n {
        return Err(Refusal::OutputTooLong);
    }
    own
}

// The same by numbers: 22, 6, or the draw's own number, 0 where that is good.
#[tactic(auto, unfolding(distr::specs::Numbers::first_of))]
pub fn draw_number(count: usize, place: usize, n: usize, own: u32) -> u32
    ensures { result ≡ first_of (past_end count place ∷ too_long n ∷ own ∷ []) }
{
    match check_draw(count, place, n, Ok(())) {
        Ok(()) => own,
        Err(why) => why.number(),
    }
}

// What refuses a draw that the draw itself refuses: 22 and 6 come before its own.
#[tactic(auto, unfolding(distr::specs::Numbers::first_of))]
pub fn first_refusal(count: usize, place: usize, n: usize, own: Refusal) -> Refusal
    ensures { number result ≡ first_of (past_end count place ∷ too_long n ∷ number own ∷ []) }
{
    match check_draw(count, place, n, Err(own)) {
        Err(why) => why,
        Ok(()) => own,
    }
}

// 7 where the sum of two weights is over the length, also where a u64 does not hold it.
pub fn check_weights(first: usize, second: usize, length: usize) -> Result<(), Refusal>
    ensures { number_of result ≡ bad_weight (first + second) length }
{
    if length < first {
        Err(Refusal::InvalidWeight)
    } else if length - first < second {
        Err(Refusal::InvalidWeight)
    } else {
        Ok(())
    }
}

// 8 for the length 0 and for one that is no multiple of the block size.
pub fn check_blocks(block_size: usize, length: usize) -> Result<(), Refusal>
    ensures { number_of result ≡ bad_blocks block_size length }
{
    if length == 0 {
        Err(Refusal::InvalidBlockLength)
    } else if block_size == 0 {
        Err(Refusal::InvalidBlockLength)
    } else if length % block_size == 0 {
        Ok(())
    } else {
        Err(Refusal::InvalidBlockLength)
    }
}
