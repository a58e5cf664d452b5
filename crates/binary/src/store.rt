// The loop of ones and zeros over 64-bit words by one end.
ghost use Rattle.std.specs.Prelude.{◌≡◌, ◌+◌, ◌*◌, ◌≤◌, length, drop};
ghost use Rattle.distr.specs.Words.{got};
ghost use Rattle.distr.specs.Thresholds.{binary_value};
ghost use Rattle.numbers.specs.Answering.{wide_read};
ghost use Rattle.binary.specs.Below.{end_of};

use crate::below::one_below;
use output::Output;
use words::wide_word;

// Each element is 1 where its 64-bit word is below the end, else 0. The words are there, so nothing is tested on the way.
fn fill_by<T: Output>(
    output: &mut [T],
    encoding: T::Encoding,
    below: u64,
    odd: bool,
    words: &[u32],
    place: usize,
)
    requires { place + 2 * length output.old ≤ length words.now }
    ensures { wide_read (λ w. T.held_one encoding (binary_value (end_of below odd) w)) (length output.old) (drop place words.now)
        ≡ got output.new (drop (place + 2 * length output.old) words.now) }
{
    let mut at = place;
    for element in output.iter_mut() {
        let word = wide_word(words[at], words[at + 1]);
        *element = T::natural(one_below(word, below, odd));
        at += 2;
    }
}

// By the end's last bit, which is asked once, so that the loop has it as a constant: for an even end, which nearly every probability has,
// half of a word tells, and its last bit is not looked at.
pub(crate) fn fill<T: Output>(
    output: &mut [T],
    encoding: T::Encoding,
    below: u64,
    words: &[u32],
    place: usize,
)
    requires { place + 2 * length output.old ≤ length words.now }
    ensures { wide_read (λ w. T.held_one encoding (binary_value below w)) (length output.old) (drop place words.now) ≡
        got output.new (drop (place + 2 * length output.old) words.now) }
{
    if below % 2 == 0 {
        fill_by(output, encoding, below, false, words, place);
    } else {
        fill_by(output, encoding, below, true, words, place);
    }
}
