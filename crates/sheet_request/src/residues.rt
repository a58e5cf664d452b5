// Residues of one modulus in an output of signed numbers: the coefficients are drawn there, and then each becomes the value of its residue.
ghost use Rattle.std.specs.Prelude.{◌≡◌, true, map, length, drop, replicate, ℤ, pos};
ghost use Rattle.distr.specs.Answers.{sums, reported};
ghost use Rattle.distr.specs.Distribution.{Distr, skips_of};
ghost use Rattle.distr.specs.Encoding.{encode};
ghost use Rattle.distr.specs.Draw.{outcome, no_tables, encoded_draw};
ghost use Rattle.any_sampler.specs.Either.{any_at_once, any_skips};
ghost use Rattle.sheet_request.specs.Request.{as_values};

use any_sampler::AnyDistr;
use distr::answer::{Answer, refused};
use gaussian_core::encode::magnitude;
use numbers::first_refusal;
use prepared_draws::encoded::check_residues;
use prepared_draws::signed::sample_signed_to;

// The residue of a coefficient: -m is modulus - m, and zero stays 0. One below -modulus, which number 9 keeps from being drawn, gives 0.
fn residue(c: i64, modulus: u32) -> i64
    ensures { result ≡ pos (encode modulus c) }
{
    if 0 <= c {
        return c;
    }
    let size = magnitude(c);
    let q = modulus as u64;
    if q < size {
        return 0;
    }
    (q - size) as i64
}

// Every coefficient becomes its residue.
fn encode_all(output: &mut [i64], modulus: u32)
    ensures { output.new ≡ map (λ (c : ℤ). pos (encode modulus c)) output.old }
{
    for element in output.iter_mut() {
        *element = residue(*element, modulus);
    }
}

// Draws residues over the whole output: the numbers are those of an encoded draw, so the modulus is judged after the length and before the words are
// read.
pub(crate) fn draw_residues(
    output: &mut [i64],
    found: AnyDistr,
    modulus: u32,
    words: &[u32],
    place: usize,
) -> Answer
    ensures output_after { outcome result output.new ≡ any_at_once found place output.old (λ (d : Distr). as_values output.old
        (encoded_draw true d no_tables modulus words.now place (replicate (length output.old) 0))) }
    ensures result_value { sums result ≡ reported result.number
        (any_skips found (λ (d : Distr). skips_of d (length output.old) no_tables (drop place words.now))) }
{
    let prepared = found.prepare();
    let method = match prepared {
        Ok(method) => method,
        Err(why) => return refused(why, place),
    };
    if let Err(why) = check_residues(method, output.len(), modulus as u64) {
        let first = first_refusal(words.len(), place, output.len(), why);
        return refused(first, place);
    }
    let answer = sample_signed_to(output, prepared, &[], &[], &[], &[], words, place);
    if answer.number == 0 {
        encode_all(output, modulus);
    }
    answer
}
