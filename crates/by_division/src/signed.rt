// Signed coefficients, -1 as itself. Numbers in order: 22, 6, 23.
ghost use Rattle.std.specs.Prelude.{◌≡◌, length, drop};
ghost use Rattle.distr.specs.declared.secret_key_distr.SecretKeyDistr.TheVariants.{UniformTernary};
ghost use Rattle.distr.specs.Distribution.{secret, skips_of};
ghost use Rattle.distr.specs.Draw.{outcome, signed_at_once, no_tables};
ghost use Rattle.distr.specs.Answers.{sums, reported};

use distr::answer::Answer;
use output::Signed;
use packed::ternary;

// -1, 0 and 1 with probability 1/3 each, by division.
pub fn sample_uniform_ternary_values_by_division_to(
    output: &mut [i64],
    words: &[u32],
    place: usize,
) -> Answer
    ensures output_after { outcome result output.new ≡ signed_at_once (secret UniformTernary) words.now place output.old }
    ensures result_value { sums result ≡ reported result.number (skips_of (secret UniformTernary) (length output.old) no_tables (drop place words.now)) }
{
    let encoding = Signed {};
    ternary::sample_uniform_ternary_values_by_division_to(output, encoding, words, place)
}
