// Block-binary values: the output is cut into blocks of one size, each with a single one at a chosen place, or none where the occupancy
// allows it.
ghost use Rattle.std.specs.Prelude.{◌≡◌, length, drop};
ghost use Rattle.distr.specs.Blocks.{block_binary};
ghost use Rattle.distr.specs.Numbers.{bad_blocks};
ghost use Rattle.distr.specs.Draw.{outcome, rule_draw};
ghost use Rattle.distr.specs.Answers.{sums, reported};

use crate::blocks::draw_blocks;
use distr::answer::{Answer, refused};
use distr::secret_key_distr::BlockOccupancy;
use numbers::{check_blocks, check_draw};
use output::Output;

// Block-binary values from the words at `place` on, one choice for each block: among its places, and with `AtMostOne` one more, which leaves it zero.
#[tactic(auto, using(crate::proofs::Refusals::accepted, crate::proofs::Refusals::refused, crate::proofs::Refusals::drawn))]
pub fn sample_block_binary_values_to<T: Output>(
    output: &mut [T],
    encoding: T::Encoding,
    block_size: usize,
    occupancy: BlockOccupancy,
    words: &[u32],
    place: usize,
) -> Answer
    ensures output_after { let n = length output.old in outcome result output.new ≡ rule_draw (T.held encoding)
        (bad_blocks block_size n) (block_binary block_size occupancy n)
        words.now place output.old }
    ensures result_value { sums result ≡ reported result.number ((block_binary block_size occupancy (length output.old)).skips (drop place words.now)) }
{
    let own = check_blocks(block_size, output.len());
    if let Err(why) = check_draw(words.len(), place, output.len(), own) {
        return refused(why, place);
    }
    let size = block_size as u32;
    match occupancy {
        BlockOccupancy::ExactlyOne => {
            draw_blocks(output, encoding, block_size, true, size, words, place)
        }
        BlockOccupancy::AtMostOne => {
            draw_blocks(output, encoding, block_size, false, size + 1, words, place)
        }
    }
}
