// The draws by a prepared sampler: signed, of residues of one modulus, and of several, a row for each. Each is the draw by the sampler's method, with 21
// where making never gives the sampler; the family is chosen once, before any coefficient is drawn.
ghost use Rattle.std.specs.Prelude.{◌≡◌, length, drop};
ghost use Rattle.distr.specs.Distribution.{secret, skips_of};
ghost use Rattle.distr.specs.Draw.{outcome, Meets, encoded_draw, crt_draw, crt_skips};
ghost use Rattle.distr.specs.Answers.{sums, reported};
ghost use Rattle.signed_discrete_gaussian.specs.Lent.{lent};
ghost use Rattle.secret_key_sampler.specs.Sampler.{is_made};

use crate::SecretKeySampler;
use distr::answer::Answer;
use prepared_draws::encoded::ResidueMethod;
use prepared_draws::{crt_draw, encoded, signed};

impl SecretKeySampler {
    // Draws a whole key of signed coefficients. The numbers come in the order 21, 22, 6, 7 or 8, 12 or 13, 23.
    pub fn sample_signed_to(
        self,
        output: &mut [i64],
        bounds: &[u64],
        endpoints: &[u64],
        heights: &[f64],
        curve: &[f64],
        words: &[u32],
        place: usize,
    ) -> Answer
        ensures meets { Meets (is_made self) (secret self.distr)
            (lent bounds.now endpoints.now heights.now curve.now)
            words.now place output.old (outcome result output.new) }
        ensures result_value { sums result ≡ reported result.number (skips_of (secret self.distr) (length output.old) (lent bounds.now endpoints.now heights.now curve.now) (drop place words.now)) }
    {
        let by = self.prepared();
        signed::sample_signed_to(output, by, bounds, endpoints, heights, curve, words, place)
    }

    // Draws a whole key of residues. The modulus is judged after the length and before the tables: 21, 22, 6, 7 or 8, 9, 12 or 13, 23.
    pub fn sample_encoded_to(
        self,
        output: &mut [u64],
        modulus: u64,
        bounds: &[u64],
        endpoints: &[u64],
        heights: &[f64],
        curve: &[f64],
        words: &[u32],
        place: usize,
    ) -> Answer
        ensures output_after { outcome result output.new ≡ encoded_draw (is_made self) (secret self.distr)
            (lent bounds.now endpoints.now heights.now curve.now)
            modulus words.now place output.old }
        ensures result_value { sums result ≡ reported result.number (skips_of (secret self.distr) (length output.old) (lent bounds.now endpoints.now heights.now curve.now) (drop place words.now)) }
    {
        let prepared = self.prepared();
        let by = ResidueMethod { prepared, modulus };
        encoded::sample_encoded_to(output, by, bounds, endpoints, heights, curve, words, place)
    }

    // Draws a Gaussian key and writes its residues for every modulus, one row after the other. Another key gives 21.
    pub fn sample_crt_to(
        self,
        output: &mut [u64],
        coefficient_count: usize,
        moduli: &[u64],
        bounds: &[u64],
        endpoints: &[u64],
        heights: &[f64],
        curve: &[f64],
        words: &[u32],
        place: usize,
    ) -> Answer
        ensures output_after { outcome result output.new ≡
            crt_draw (is_made self) (secret self.distr)
            (lent bounds.now endpoints.now heights.now curve.now)
            coefficient_count moduli.now words.now place output.old }
        ensures result_value { sums result ≡ reported result.number (crt_skips (secret self.distr) coefficient_count (lent bounds.now endpoints.now heights.now curve.now) (length output.old) (drop place words.now)) }
    {
        crt_draw::sample_crt_to(
            output,
            self.prepared(),
            coefficient_count,
            moduli,
            bounds,
            endpoints,
            heights,
            curve,
            words,
            place,
        )
    }
}
