// Draws of one 64-bit word a coefficient. Where a draw ends, or what refuses it, is known before its words are looked at, whatever its output holds.
ghost use Rattle.std.specs.Prelude.{◌≡◌};
ghost use Rattle.distr.specs.Refusals.{number_of};
ghost use Rattle.numbers.specs.Answering.{answer_of, answered};

use distr::refusal::Refusal;

// The place after a draw of n coefficients from `place` in `count` words, which reads two words for each or none at all; 22, 6, what the draw itself
// says, or 23 where a word is missing.
#[tactic(auto, unfolding(distr::specs::Numbers::first_of, crate::specs::Answering::number_of))]
pub fn place_after(
    own: Result<(), Refusal>,
    reads: bool,
    count: usize,
    place: usize,
    n: usize,
) -> Result<usize, Refusal>
    ensures { answered place result ≡ answer_of (number_of own) reads count place n }
{
    crate::check_draw(count, place, n, own)?;
    if !reads {
        return Ok(place);
    }
    if count - place < 2 * n {
        return Err(Refusal::OutOfWords);
    }
    Ok(place + 2 * n)
}
