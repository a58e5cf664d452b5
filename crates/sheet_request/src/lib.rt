// Inner crate: a question by numbers, whose kind selects the distribution, which is made and drawn once from a place of the words into a lent output.
// The library hands it out, and the sheet and the desk draw by it.
#![tactic(auto)]

mod residues;

ghost use Rattle.std.specs.Prelude.{◌≡◌, length};
ghost use Rattle.distr.specs.Draw.{outcome};
ghost use Rattle.distr.specs.Answers.{sums, reported};
ghost use Rattle.sheet_request.specs.Request.{selected, question, question_skips};

use any_sampler::AnyDistr;
use distr::answer::Answer;
use distr::error_distribution::ErrorDistribution;
use distr::secret_key_distr::{BlockOccupancy, SecretKeyDistr};
use prepared_draws::signed;

// The distribution of a kind, or 14. Unused parameters are ignored.
fn select(kind: u32, a: u32, b: u32) -> AnyDistr
    ensures { result ≡ selected kind a b }
{
    match kind {
        1 => AnyDistr::Secret(SecretKeyDistr::UniformBinary),
        2 => AnyDistr::Secret(SecretKeyDistr::SparseTernary),
        3 => AnyDistr::Secret(SecretKeyDistr::UniformTernary),
        4 => AnyDistr::Secret(SecretKeyDistr::FixedHammingWeightBinary {
            hamming_weight: a as usize,
        }),
        5 => AnyDistr::Secret(SecretKeyDistr::BlockBinary {
            block_size: a as usize,
            occupancy: BlockOccupancy::AtMostOne,
        }),
        6 => AnyDistr::Secret(SecretKeyDistr::BlockBinary {
            block_size: a as usize,
            occupancy: BlockOccupancy::ExactlyOne,
        }),
        7 => AnyDistr::Secret(SecretKeyDistr::FixedHammingWeightTernary {
            hamming_weight: a as usize,
        }),
        8 => AnyDistr::Secret(SecretKeyDistr::FixedCompositionTernary {
            negative_one_weight: a as usize,
            one_weight: b as usize,
        }),
        9 => AnyDistr::Error(ErrorDistribution::CenteredBinomial { eta: a }),
        0 | 10..=0xffff_ffff => AnyDistr::Unknown,
    }
}

// Draws what a kind with its A and B asks for: signed coefficients where the modulus is 0, else residues as their value. 14 for a kind that is
// none, then the numbers of making, then those of the draw. No kind uses a table, so none is lent.
pub fn draw_question(
    kind: u32,
    a: u32,
    b: u32,
    modulus: u32,
    output: &mut [i64],
    words: &[u32],
    place: usize,
) -> Answer
    ensures output_after { outcome result output.new ≡ question kind a b modulus words.now place output.old }
    ensures result_value { sums result ≡ reported result.number (question_skips kind a b (length output.old) words.now place) }
{
    let found = select(kind, a, b);
    if modulus == 0 {
        let by = found.prepare();
        return signed::sample_signed_to(output, by, &[], &[], &[], &[], words, place);
    }
    residues::draw_residues(output, found, modulus, words, place)
}
