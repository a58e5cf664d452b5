// The draws by a prepared sampler: signed, of residues of one modulus, and of several, a row for each. Each is the draw by the sampler's method, with 21
// where making never gives the sampler; the family is chosen once, before any coefficient is drawn.
ghost use Rattle.std.specs.Prelude.{◌≡◌, length, drop};
ghost use Rattle.distr.specs.Distribution.{error, skips_of};
ghost use Rattle.distr.specs.Draw.{outcome, Meets, encoded_draw, crt_draw, crt_skips};
ghost use Rattle.distr.specs.Answers.{sums, reported};
ghost use Rattle.signed_discrete_gaussian.specs.Lent.{lent};
ghost use Rattle.error_sampler.specs.Sampler.{is_made};

use crate::ErrorSampler;
use distr::answer::Answer;
use prepared_draws::encoded::ResidueMethod;
use prepared_draws::{crt_draw, encoded, signed};

impl ErrorSampler {
    // Draws signed coefficients over the whole output. The numbers come in the order 21, 22, 6, 12 or 13, 23.
    pub fn sample_signed_to(
        self,
        output: &mut [i64],
        bounds: &[u64],
        endpoints: &[u64],
        heights: &[f64],
        curve: &[f64],
        words: &[u32],
        place: usize,
    ) -> Answer
        ensures meets { Meets (is_made self) (error self.distribution)
            (lent bounds.now endpoints.now heights.now curve.now)
            words.now place output.old (outcome result output.new) }
        ensures result_value { sums result ≡ reported result.number (skips_of (error self.distribution) (length output.old) (lent bounds.now endpoints.now heights.now curve.now) (drop place words.now)) }
    {
        let by = self.prepared();
        signed::sample_signed_to(output, by, bounds, endpoints, heights, curve, words, place)
    }

    // Draws residues of one modulus: 21, 22, 6, 9, 12 or 13, 23. A centered binomial's is a CRT draw of one row, so a modulus of 0 gives 10 there.
    pub fn sample_encoded_to(
        self,
        output: &mut [u64],
        modulus: u64,
        bounds: &[u64],
        endpoints: &[u64],
        heights: &[f64],
        curve: &[f64],
        words: &[u32],
        place: usize,
    ) -> Answer
        ensures output_after { outcome result output.new ≡ encoded_draw (is_made self) (error self.distribution)
            (lent bounds.now endpoints.now heights.now curve.now)
            modulus words.now place output.old }
        ensures result_value { sums result ≡ reported result.number (skips_of (error self.distribution) (length output.old) (lent bounds.now endpoints.now heights.now curve.now) (drop place words.now)) }
    {
        let prepared = self.prepared();
        let by = ResidueMethod { prepared, modulus };
        encoded::sample_encoded_to(output, by, bounds, endpoints, heights, curve, words, place)
    }

    // Draws each coefficient once and writes its residue for every modulus, one row after the other.
    pub fn sample_crt_to(
        self,
        output: &mut [u64],
        coefficient_count: usize,
        moduli: &[u64],
        bounds: &[u64],
        endpoints: &[u64],
        heights: &[f64],
        curve: &[f64],
        words: &[u32],
        place: usize,
    ) -> Answer
        ensures output_after { outcome result output.new ≡
            crt_draw (is_made self) (error self.distribution)
            (lent bounds.now endpoints.now heights.now curve.now)
            coefficient_count moduli.now words.now place output.old }
        ensures result_value { sums result ≡ reported result.number (crt_skips (error self.distribution) coefficient_count (lent bounds.now endpoints.now heights.now curve.now) (length output.old) (drop place words.now)) }
    {
        crt_draw::sample_crt_to(
            output,
            self.prepared(),
            coefficient_count,
            moduli,
            bounds,
            endpoints,
            heights,
            curve,
            words,
            place,
        )
    }
}
