// The draw of residues of one modulus by a prepared method, and what it asks of the length and the modulus.
ghost use Rattle.std.specs.Prelude.{◌≡◌, length, drop};
ghost use Rattle.distr.specs.Numbers.{first_of};
ghost use Rattle.distr.specs.Refusals.{number_of};
ghost use Rattle.distr.specs.Draw.{outcome};
ghost use Rattle.distr.specs.Answers.{sums, reported};
ghost use Rattle.method_draws.specs.Drawing.{method_skips};
ghost use Rattle.methods.specs.declared.SamplingMethod.{SamplingMethod};
ghost use Rattle.signed_discrete_gaussian.specs.Lent.{lent};
ghost use Rattle.prepared_draws.specs.Drawing.{prepared_draw_by, prepared_skips, residue_numbers, encoded_by};

use distr::answer::{Answer, refused};
use distr::refusal::{Reason, Refusal};
use method_draws::sample_to_with;
use methods::key::is_binomial;
use methods::{SamplingMethod, check_length, check_modulus, maximum_magnitude};
use numbers::first_refusal;
use output::Residues;

// A prepared method, or what refuses it, with the modulus of its residues.
#[derive(Clone, Copy, Debug, PartialEq)]
pub struct ResidueMethod<R = Refusal> {
    pub prepared: Result<SamplingMethod, R>,
    pub modulus: u64,
}

// Tests what is asked of so many residues of a modulus: 7 or 8 for the length, 10 for a centered binomial's of 0, then 9 for a modulus that is not above
// the largest magnitude.
#[tactic(auto, unfolding(distr::specs::Numbers::first_of))]
pub fn check_residues(method: SamplingMethod, length: usize, modulus: u64) -> Result<(), Refusal>
    ensures { number_of result ≡ first_of (residue_numbers method length modulus) }
{
    check_length(method, length)?;
    if is_binomial(method) & (modulus == 0) {
        return Err(Refusal::ModulusZero);
    }
    check_modulus(maximum_magnitude(method), modulus)
}

// Draws residues over the whole output. The modulus is judged after the length and before the tables: 22, 6, 7 or 8, 10, 9, the tables', 23. A centered
// binomial's draw is a CRT draw of one row, so a modulus of 0 gives 10 there.
pub fn sample_encoded_to<R: Reason>(
    output: &mut [u64],
    by: ResidueMethod<R>,
    bounds: &[u64],
    endpoints: &[u64],
    heights: &[f64],
    curve: &[f64],
    words: &[u32],
    place: usize,
) -> Answer
    ensures output_after { outcome result output.new ≡ prepared_draw_by R.refusing by.prepared place output.old (λ (m : SamplingMethod). encoded_by m
        (lent bounds.now endpoints.now heights.now curve.now)
        by.modulus words.now place output.old) }
    ensures result_value { sums result ≡ reported result.number (prepared_skips by.prepared (λ (m : SamplingMethod). method_skips m (lent bounds.now endpoints.now heights.now curve.now) (length output.old) (drop place words.now))) }
{
    let modulus = by.modulus;
    let method = match by.prepared {
        Ok(method) => method,
        Err(why) => return refused(why, place),
    };
    if let Err(why) = check_residues(method, output.len(), modulus) {
        let first = first_refusal(words.len(), place, output.len(), why);
        return refused(first, place);
    }
    let minus_one = modulus - 1;
    sample_to_with(
        output,
        Residues { minus_one },
        method,
        bounds,
        endpoints,
        heights,
        curve,
        words,
        place,
    )
}
