// Residues of a modulus, -1 as modulus - 1. Numbers in order: those of making (1 or 5), then 22, 6, 7 or 8, 9, 23.
// Uniform ternary by division, beside the draw by the table of trits below (02 [5]).
ghost use Rattle.std.specs.Prelude.{◌≡◌, length, drop};
ghost use Rattle.distr.specs.declared.secret_key_distr.SecretKeyDistr.TheVariants.{UniformBinary, Binary, SparseTernary, UniformTernary, Ternary, FixedHammingWeightBinary, BlockBinary, FixedHammingWeightTernary, FixedCompositionTernary};
ghost use Rattle.distr.specs.Distribution.{secret, skips_of};
ghost use Rattle.distr.specs.Draw.{outcome, encoded_at_once, no_tables};
ghost use Rattle.distr.specs.Answers.{sums, reported};

pub use by_division::residues::sample_uniform_ternary_values_by_division_to;
use distr::answer::Answer;
use distr::secret_key_distr::{BlockOccupancy, SecretKeyDistr};
use prepared_draws::encoded;
use prepared_draws::encoded::ResidueMethod;
use secret_key_method::prepare::prepare;

// Prepares the method of a distribution and draws residues by it; the number of making comes before those of the draw.
fn sample_at_once(
    output: &mut [u64],
    modulus: u64,
    distr: SecretKeyDistr,
    words: &[u32],
    place: usize,
) -> Answer
    ensures output_after { outcome result output.new ≡ encoded_at_once (secret distr) modulus words.now place output.old }
    ensures result_value { sums result ≡ reported result.number (skips_of (secret distr) (length output.old) no_tables (drop place words.now)) }
{
    let prepared = prepare(distr);
    let by = ResidueMethod { prepared, modulus };
    encoded::sample_encoded_to(output, by, &[], &[], &[], &[], words, place)
}

// 0 and 1, each with probability 1/2.
pub fn sample_uniform_binary_values_to(
    output: &mut [u64],
    modulus: u64,
    words: &[u32],
    place: usize,
) -> Answer
    ensures output_after { outcome result output.new ≡ encoded_at_once (secret UniformBinary) modulus words.now place output.old }
    ensures result_value { sums result ≡ reported result.number (skips_of (secret UniformBinary) (length output.old) no_tables (drop place words.now)) }
{
    sample_at_once(output, modulus, SecretKeyDistr::UniformBinary, words, place)
}

// 1 with the given probability, else 0. What is no probability gives 1.
pub fn sample_binary_values_with_probability_to(
    output: &mut [u64],
    modulus: u64,
    one_probability: f64,
    words: &[u32],
    place: usize,
) -> Answer
    ensures output_after { outcome result output.new ≡ encoded_at_once (secret (Binary one_probability)) modulus words.now place output.old }
    ensures result_value { sums result ≡ reported result.number (skips_of (secret (Binary one_probability)) (length output.old) no_tables (drop place words.now)) }
{
    let distr = SecretKeyDistr::Binary { one_probability };
    sample_at_once(output, modulus, distr, words, place)
}

// Exactly hamming_weight ones. A weight over the length gives 7.
pub fn sample_fixed_hamming_weight_binary_values_to(
    output: &mut [u64],
    modulus: u64,
    hamming_weight: usize,
    words: &[u32],
    place: usize,
) -> Answer
    ensures output_after { outcome result output.new ≡ encoded_at_once (secret (FixedHammingWeightBinary hamming_weight)) modulus words.now place output.old }
    ensures result_value { sums result ≡ reported result.number (skips_of (secret (FixedHammingWeightBinary hamming_weight)) (length output.old) no_tables (drop place words.now)) }
{
    let distr = SecretKeyDistr::FixedHammingWeightBinary { hamming_weight };
    sample_at_once(output, modulus, distr, words, place)
}

// Blocks with a one at a chosen place, or with none where the occupancy allows it. A bad block size gives 5, a bad length 8.
pub fn sample_block_binary_values_to(
    output: &mut [u64],
    modulus: u64,
    block_size: usize,
    occupancy: BlockOccupancy,
    words: &[u32],
    place: usize,
) -> Answer
    ensures output_after { outcome result output.new ≡ encoded_at_once (secret (BlockBinary block_size occupancy)) modulus words.now place output.old }
    ensures result_value { sums result ≡ reported result.number (skips_of (secret (BlockBinary block_size occupancy)) (length output.old) no_tables (drop place words.now)) }
{
    let distr = SecretKeyDistr::BlockBinary {
        block_size,
        occupancy,
    };
    sample_at_once(output, modulus, distr, words, place)
}

// 0 with probability 1/2, 1 and -1 with 1/4 each.
pub fn sample_sparse_ternary_values_to(
    output: &mut [u64],
    modulus: u64,
    words: &[u32],
    place: usize,
) -> Answer
    ensures output_after { outcome result output.new ≡ encoded_at_once (secret SparseTernary) modulus words.now place output.old }
    ensures result_value { sums result ≡ reported result.number (skips_of (secret SparseTernary) (length output.old) no_tables (drop place words.now)) }
{
    sample_at_once(output, modulus, SecretKeyDistr::SparseTernary, words, place)
}

// -1, 0 and 1 with probability 1/3 each.
pub fn sample_uniform_ternary_values_to(
    output: &mut [u64],
    modulus: u64,
    words: &[u32],
    place: usize,
) -> Answer
    ensures output_after { outcome result output.new ≡ encoded_at_once (secret UniformTernary) modulus words.now place output.old }
    ensures result_value { sums result ≡ reported result.number (skips_of (secret UniformTernary) (length output.old) no_tables (drop place words.now)) }
{
    let distr = SecretKeyDistr::UniformTernary;
    sample_at_once(output, modulus, distr, words, place)
}

// -1 and 1 with the given probabilities, else 0. Bad probabilities give 1.
pub fn sample_ternary_values_with_probabilities_to(
    output: &mut [u64],
    modulus: u64,
    minus_one_probability: f64,
    one_probability: f64,
    words: &[u32],
    place: usize,
) -> Answer
    ensures output_after { outcome result output.new ≡ encoded_at_once (secret (Ternary minus_one_probability one_probability)) modulus words.now place output.old }
    ensures result_value { sums result ≡ reported result.number (skips_of (secret (Ternary minus_one_probability one_probability)) (length output.old) no_tables (drop place words.now)) }
{
    let distr = SecretKeyDistr::Ternary {
        negative_one_probability: minus_one_probability,
        one_probability,
    };
    sample_at_once(output, modulus, distr, words, place)
}

// Exactly hamming_weight coefficients that are not 0, each with a sign of its own. A weight over the length gives 7.
pub fn sample_fixed_hamming_weight_ternary_values_to(
    output: &mut [u64],
    modulus: u64,
    hamming_weight: usize,
    words: &[u32],
    place: usize,
) -> Answer
    ensures output_after { outcome result output.new ≡ encoded_at_once (secret (FixedHammingWeightTernary hamming_weight)) modulus words.now place output.old }
    ensures result_value { sums result ≡ reported result.number (skips_of (secret (FixedHammingWeightTernary hamming_weight)) (length output.old) no_tables (drop place words.now)) }
{
    let distr = SecretKeyDistr::FixedHammingWeightTernary { hamming_weight };
    sample_at_once(output, modulus, distr, words, place)
}

// Exactly so many -1 and so many 1. Weights over the length give 7.
pub fn sample_fixed_composition_ternary_values_to(
    output: &mut [u64],
    modulus: u64,
    minus_one_weight: usize,
    one_weight: usize,
    words: &[u32],
    place: usize,
) -> Answer
    ensures output_after { outcome result output.new ≡ encoded_at_once (secret (FixedCompositionTernary minus_one_weight one_weight)) modulus words.now place output.old }
    ensures result_value { sums result ≡ reported result.number (skips_of (secret (FixedCompositionTernary minus_one_weight one_weight)) (length output.old) no_tables (drop place words.now)) }
{
    let distr = SecretKeyDistr::FixedCompositionTernary {
        negative_one_weight: minus_one_weight,
        one_weight,
    };
    sample_at_once(output, modulus, distr, words, place)
}
