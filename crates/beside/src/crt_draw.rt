// The call that draws residues of several moduli.
ghost use Rattle.std.specs.Prelude.{true, ◌≡◌, length, drop};
ghost use Rattle.distr.specs.Distribution.{Distr};
ghost use Rattle.distr.specs.Answers.{reported};
ghost use Rattle.distr.specs.Draw.{crt_draw, crt_skips};
ghost use Rattle.signed_discrete_gaussian.specs.Lent.{lent};
ghost use Rattle.any_sampler.specs.Either.{any_at_once, any_skips};
ghost use Rattle.beside.specs.Calls.{answered, named, written};

use crate::kind::by_kind;
use prepared_draws::crt_draw::sample_crt_to;

// A draw of residues of several moduli.
pub fn beside_crt(
    kind: u32,
    a: usize,
    b: usize,
    p: f64,
    q: f64,
    coefficient_count: usize,
    moduli: &[u64],
    bounds: &[u64],
    endpoints: &[u64],
    heights: &[f64],
    curve: &[f64],
    words: &[u32],
    place: usize,
    output: &mut [u64],
    new_place: &mut usize,
    index: &mut usize,
    skipped_words: &mut u64,
    skipped_bytes: &mut u64,
) -> u32
    ensures output_after { answered result new_place.new index.new output.new ≡ any_at_once (named kind a b p q) place output.old (λ (d : Distr). crt_draw true d
        (lent bounds.now endpoints.now heights.now curve.now)
        coefficient_count moduli.now words.now place output.old) }
    ensures skipped_bytes_after { written skipped_words.new skipped_bytes.new ≡ reported result (any_skips (named kind a b p q) (λ (d : Distr). crt_skips d coefficient_count (lent bounds.now endpoints.now heights.now curve.now) (length output.old) (drop place words.now))) }
{
    let answer = sample_crt_to(
        output,
        by_kind(kind, a, b, p, q).prepare(),
        coefficient_count,
        moduli,
        bounds,
        endpoints,
        heights,
        curve,
        words,
        place,
    );
    *new_place = answer.place;
    *index = answer.index;
    *skipped_words = answer.skipped_words;
    *skipped_bytes = answer.skipped_bytes;
    answer.number
}
