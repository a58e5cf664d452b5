// Blocks of the output, each filled in its own part.
ghost use Rattle.std.specs.Prelude.{◌≡◌, true, ◌%◌, ◌/◌, ◌≤◌, ◌<◌, length, drop, set, replicate};
ghost use Rattle.distr.specs.Words.{map_read, choose_each};
ghost use Rattle.distr.specs.Blocks.{blocks_of};
ghost use Rattle.distr.specs.Draw.{outcome, settled};
ghost use Rattle.distr.specs.Answers.{sums, reported};
ghost use Rattle.distr.specs.Skipped.{skipped_words, passed_each};

use distr::answer::{Answer, refused, succeeded_after};
use distr::refusal::Refusal;
use output::{Output, clear, fill};

// The longest block that a loop of its own clears; a longer one is cleared by the library's call for that.
const SHORT: usize = 32;

// Writes zeros over a block. What is written over a short one is 0 by what is asked, not by the text: a loop over a plain 0 would be compiled to that
// call too, which costs a short block more than its stores.
fn blank<T: Output>(block: &mut [T], nothing: usize)
    requires { nothing ≡ 0 }
    ensures { block.new ≡ replicate (length block.old) (T.natural 0) }
{
    if block.len() <= SHORT {
        fill(block, T::natural(nothing as u64));
    } else {
        clear(block);
    }
}

// Fills one block, which is lent as a part of the output: zeros, and a one at the position, unless that is past the block. Where every choice is a
// place of the block (`full`) nothing is tested. Else a position past it writes a zero at the first place, so that nothing branches on what was drawn.
fn fill_block<T: Output>(block: &mut [T], position: usize, full: bool, nothing: usize)
    requires { (0 < length block.old) × (nothing ≡ 0) × (full ≡ true → position < length block.old) }
    ensures { block.new ≡ set (replicate (length block.old) (T.natural 0)) position (T.natural 1) }
{
    let size = block.len();
    blank(block, nothing);
    if full {
        block[position] = T::natural(1);
    } else {
        let inside = (position < size) as usize;
        block[position * inside] = T::natural(inside as u64);
    }
}

// Fills the output block by block, each by one choice among `choices`. A turn looks at one word: it gives the next block, or is passed over, where its
// run of so many, from word - left on, does not end at 2^32 or below. Where a word is missing the output is cleared.
// Of the words taken one was used for each block; the others were passed over.
pub(crate) fn draw_blocks<T: Output>(
    output: &mut [T],
    encoding: T::Encoding,
    block_size: usize,
    full: bool,
    choices: u32,
    words: &[u32],
    place: usize,
) -> Answer
    requires sizes { (0 < block_size) × (length output.old % block_size ≡ 0) × (place ≤ length words.now) × (block_size ≤ 65536) }
    requires choices_nonzero { (0 < choices) × (full ≡ true → choices ≤ block_size) }
    ensures output_after { let n = length output.old in
        outcome result output.new
        ≡ settled (T.held encoding) (length words.now) place n
        (map_read (blocks_of block_size) (choose_each (replicate (n / block_size) choices) (drop place words.now))) }
    ensures result_value { sums result ≡ reported result.number (skipped_words (passed_each (replicate (length output.old / block_size) choices) (drop place words.now))) }
{
    let n = output.len();
    let nothing = block_size / 65537;
    let lent = &words[place..];
    let mut start = 0;
    let mut at = 0;
    // A turn takes one word, and moves to the next block or not: no range counts either.
    while start < n {
        if lent.len() <= at {
            clear(output);
            return refused(Refusal::OutOfWords, place);
        }
        let word = lent[at];
        let left = word % choices;
        at += 1;
        if (word - left) as u64 + choices as u64 <= 0x1_0000_0000 {
            let end = start + block_size;
            fill_block(&mut output[start..end], left as usize, full, nothing);
            start = end;
        }
    }
    succeeded_after(place + at, (at - n / block_size) as u64, 0)
}
