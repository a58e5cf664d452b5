// Residues of a modulus, -1 as modulus - 1. Numbers in order: 22, 6, 9, 23.
ghost use Rattle.std.specs.Prelude.{◌≡◌, length, drop};
ghost use Rattle.distr.specs.declared.secret_key_distr.SecretKeyDistr.TheVariants.{UniformTernary};
ghost use Rattle.distr.specs.Distribution.{secret, skips_of};
ghost use Rattle.distr.specs.Draw.{outcome, encoded_at_once, no_tables};
ghost use Rattle.distr.specs.Answers.{sums, reported};

use distr::answer::{Answer, refused};
use methods::SamplingMethod;
use numbers::first_refusal;
use output::Residues;
use packed::ternary;
use prepared_draws::encoded::check_residues;

// -1, 0 and 1 with probability 1/3 each, by division.
pub fn sample_uniform_ternary_values_by_division_to(
    output: &mut [u64],
    modulus: u64,
    words: &[u32],
    place: usize,
) -> Answer
    ensures output_after { outcome result output.new ≡ encoded_at_once (secret UniformTernary) modulus words.now place output.old }
    ensures result_value { sums result ≡ reported result.number (skips_of (secret UniformTernary) (length output.old) no_tables (drop place words.now)) }
{
    let method = SamplingMethod::UniformTernary;
    if let Err(why) = check_residues(method, output.len(), modulus) {
        let first = first_refusal(words.len(), place, output.len(), why);
        return refused(first, place);
    }
    let minus_one = modulus - 1;
    let encoding = Residues { minus_one };
    ternary::sample_uniform_ternary_values_by_division_to(output, encoding, words, place)
}
