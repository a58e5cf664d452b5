// The call that draws signed coefficients.
ghost use Rattle.std.specs.Prelude.{true, ◌≡◌, length, drop};
ghost use Rattle.distr.specs.Answers.{reported};
ghost use Rattle.distr.specs.Distribution.{Distr, skips_of};
ghost use Rattle.distr.specs.Draw.{signed_draw};
ghost use Rattle.signed_discrete_gaussian.specs.Lent.{lent};
ghost use Rattle.any_sampler.specs.Either.{any_at_once, any_skips};
ghost use Rattle.beside.specs.Calls.{answered, named, written};

use crate::kind::by_kind;
use prepared_draws::signed::sample_signed_to;

// A draw of signed coefficients.
pub fn beside_signed(
    kind: u32,
    a: usize,
    b: usize,
    p: f64,
    q: f64,
    bounds: &[u64],
    endpoints: &[u64],
    heights: &[f64],
    curve: &[f64],
    words: &[u32],
    place: usize,
    output: &mut [i64],
    new_place: &mut usize,
    index: &mut usize,
    skipped_words: &mut u64,
    skipped_bytes: &mut u64,
) -> u32
    ensures output_after { answered result new_place.new index.new output.new ≡ any_at_once (named kind a b p q) place output.old (λ (d : Distr). signed_draw true d
        (lent bounds.now endpoints.now heights.now curve.now)
        words.now place output.old) }
    ensures skipped_bytes_after { written skipped_words.new skipped_bytes.new ≡ reported result (any_skips (named kind a b p q) (λ (d : Distr). skips_of d (length output.old) (lent bounds.now endpoints.now heights.now curve.now) (drop place words.now))) }
{
    let by = by_kind(kind, a, b, p, q).prepare();
    let answer = sample_signed_to(output, by, bounds, endpoints, heights, curve, words, place);
    *new_place = answer.place;
    *index = answer.index;
    *skipped_words = answer.skipped_words;
    *skipped_bytes = answer.skipped_bytes;
    answer.number
}
