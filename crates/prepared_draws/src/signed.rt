// The signed draw by a prepared method.
ghost use Rattle.std.specs.Prelude.{◌≡◌, length, drop};
ghost use Rattle.distr.specs.Draw.{outcome};
ghost use Rattle.distr.specs.Answers.{sums, reported};
ghost use Rattle.methods.specs.declared.SamplingMethod.{SamplingMethod};
ghost use Rattle.method_draws.specs.Drawing.{method_draw, method_skips};
ghost use Rattle.signed_discrete_gaussian.specs.Lent.{lent};
ghost use Rattle.prepared_draws.specs.Drawing.{prepared_draw_by, prepared_skips};

use distr::answer::{Answer, refused};
use distr::refusal::Reason;
use method_draws::sample_to_with;
use methods::SamplingMethod;
use output::Signed;

// Draws signed coefficients over the whole output. The family is chosen once, before any coefficient is drawn.
pub fn sample_signed_to<R: Reason>(
    output: &mut [i64],
    prepared: Result<SamplingMethod, R>,
    bounds: &[u64],
    endpoints: &[u64],
    heights: &[f64],
    curve: &[f64],
    words: &[u32],
    place: usize,
) -> Answer
    ensures output_after { outcome result output.new ≡ prepared_draw_by R.refusing prepared place output.old (λ (m : SamplingMethod). method_draw (λ cs. cs) m
        (lent bounds.now endpoints.now heights.now curve.now)
        words.now place output.old) }
    ensures result_value { sums result ≡ reported result.number (prepared_skips prepared (λ (m : SamplingMethod). method_skips m (lent bounds.now endpoints.now heights.now curve.now) (length output.old) (drop place words.now))) }
{
    let method = match prepared {
        Ok(method) => method,
        Err(why) => return refused(why, place),
    };
    sample_to_with(
        output,
        Signed {},
        method,
        bounds,
        endpoints,
        heights,
        curve,
        words,
        place,
    )
}
