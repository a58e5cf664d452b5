// The call that draws residues of one modulus.
ghost use Rattle.std.specs.Prelude.{true, ◌≡◌, length, drop};
ghost use Rattle.distr.specs.Answers.{reported};
ghost use Rattle.distr.specs.Distribution.{Distr, skips_of};
ghost use Rattle.distr.specs.Draw.{encoded_draw};
ghost use Rattle.signed_discrete_gaussian.specs.Lent.{lent};
ghost use Rattle.any_sampler.specs.Either.{any_at_once, any_skips};
ghost use Rattle.beside.specs.Calls.{answered, named, written};

use crate::kind::by_kind;
use prepared_draws::encoded::{ResidueMethod, sample_encoded_to};

// A draw of residues of one modulus.
pub fn beside_encoded(
    kind: u32,
    a: usize,
    b: usize,
    p: f64,
    q: f64,
    modulus: u64,
    bounds: &[u64],
    endpoints: &[u64],
    heights: &[f64],
    curve: &[f64],
    words: &[u32],
    place: usize,
    output: &mut [u64],
    new_place: &mut usize,
    index: &mut usize,
    skipped_words: &mut u64,
    skipped_bytes: &mut u64,
) -> u32
    ensures output_after { answered result new_place.new index.new output.new ≡ any_at_once (named kind a b p q) place output.old (λ (d : Distr). encoded_draw true d
        (lent bounds.now endpoints.now heights.now curve.now)
        modulus words.now place output.old) }
    ensures skipped_bytes_after { written skipped_words.new skipped_bytes.new ≡ reported result (any_skips (named kind a b p q) (λ (d : Distr). skips_of d (length output.old) (lent bounds.now endpoints.now heights.now curve.now) (drop place words.now))) }
{
    let prepared = by_kind(kind, a, b, p, q).prepare();
    let by = ResidueMethod { prepared, modulus };
    let answer = sample_encoded_to(output, by, bounds, endpoints, heights, curve, words, place);
    *new_place = answer.place;
    *index = answer.index;
    *skipped_words = answer.skipped_words;
    *skipped_bytes = answer.skipped_bytes;
    answer.number
}
