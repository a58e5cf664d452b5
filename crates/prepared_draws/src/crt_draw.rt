// The CRT draw by a prepared method. The coefficients are drawn once, as native residues, into the last row, and every row is made from it.
ghost use Rattle.std.specs.Prelude.{◌≡◌, length, drop};
ghost use Rattle.distr.specs.Draw.{outcome};
ghost use Rattle.distr.specs.Answers.{sums, reported};
ghost use Rattle.distr.specs.Refusals.{number_of};
ghost use Rattle.method_draws.specs.Drawing.{method_skips};
ghost use Rattle.methods.specs.declared.SamplingMethod.{SamplingMethod};
ghost use Rattle.signed_discrete_gaussian.specs.Lent.{lent};
ghost use Rattle.prepared_draws.specs.Drawing.{prepared_draw_by, prepared_skips, crt_number, row_draw, crt_by, crt_skips_by};

use cdt::sample_cdt_to;
use centered_binomial::draw::sample_binomial_to as sample_binomial;
use distr::answer::{Answer, refused};
use distr::limits::CDT_MAX_MAGNITUDE;
use distr::refusal::{Reason, Refusal};
use methods::key::is_served;
use methods::{SamplingMethod, maximum_magnitude};
use output::Residues;
use ziggurat::sample_ziggurat_to;

// Tests a draw into n elements by a method: 21 for one that is not served, 22, 11, 6, then modulus by modulus 10 before 9.
fn check_crt_draw(
    method: SamplingMethod,
    words: usize,
    place: usize,
    n: usize,
    coefficient_count: usize,
    moduli: &[u64],
) -> Result<(), Refusal>
    ensures { number_of result ≡ crt_number method words place n coefficient_count moduli.now }
{
    if !is_served(method) {
        return Err(Refusal::NeverMade);
    }
    let largest = maximum_magnitude(method);
    crt::check_crt(words, place, n, coefficient_count, moduli, largest)
}

// Draws one row of native residues: -m is 2^64 - m, a constant that the loops are compiled with. A method that CRT draws do not serve gives 21.
fn draw_row(
    output: &mut [u64],
    method: SamplingMethod,
    bounds: &[u64],
    endpoints: &[u64],
    heights: &[f64],
    curve: &[f64],
    words: &[u32],
    place: usize,
) -> Answer
    ensures output_after { outcome result output.new ≡
        row_draw method (lent bounds.now endpoints.now heights.now curve.now)
        words.now place output.old }
    ensures result_value { sums result ≡ reported result.number (method_skips method (lent bounds.now endpoints.now heights.now curve.now) (length output.old) (drop place words.now)) }
{
    let native = Residues {
        minus_one: 0xffff_ffff_ffff_ffff,
    };
    match method {
        SamplingMethod::Gaussian(p) => {
            if p.maximum_magnitude <= CDT_MAX_MAGNITUDE {
                let largest = p.maximum_magnitude;
                sample_cdt_to(output, native, largest, bounds, words, place)
            } else {
                sample_ziggurat_to(output, native, p, endpoints, heights, curve, words, place)
            }
        }
        SamplingMethod::CenteredBinomial(p) => sample_binomial(output, native, p, words, place),
        _ => refused(Refusal::NeverMade, place),
    }
}

// Draws each coefficient once and writes its residue for every modulus, one row after the other. A refused table leaves the output as it
// was. An empty output is drawn the same way, which reads nothing: its tables are judged.
pub fn sample_crt_to<R: Reason>(
    output: &mut [u64],
    prepared: Result<SamplingMethod, R>,
    coefficient_count: usize,
    moduli: &[u64],
    bounds: &[u64],
    endpoints: &[u64],
    heights: &[f64],
    curve: &[f64],
    words: &[u32],
    place: usize,
) -> Answer
    ensures output_after { outcome result output.new ≡ prepared_draw_by R.refusing prepared place output.old (λ (m : SamplingMethod). crt_by m
        (lent bounds.now endpoints.now heights.now curve.now)
        coefficient_count moduli.now words.now place output.old) }
    ensures result_value { sums result ≡ reported result.number (prepared_skips prepared (λ (m : SamplingMethod). crt_skips_by m (lent bounds.now endpoints.now heights.now curve.now) coefficient_count (length output.old) (drop place words.now))) }
{
    let method = match prepared {
        Ok(method) => method,
        Err(why) => return refused(why, place),
    };
    let n = output.len();
    if let Err(why) = check_crt_draw(method, words.len(), place, n, coefficient_count, moduli) {
        return refused(why, place);
    }
    let last = crt::last_row(n, coefficient_count);
    let answer = draw_row(
        &mut output[last..],
        method,
        bounds,
        endpoints,
        heights,
        curve,
        words,
        place,
    );
    crt::finish(output, coefficient_count, moduli, answer)
}
