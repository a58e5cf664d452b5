// The loop that stores.
ghost use Rattle.std.specs.Prelude.{◌≡◌, ◌+◌, ◌*◌, ◌≤◌, IsTrue, length, drop};
ghost use Rattle.distr.specs.Gaussian.{cumulative_table, cumulative_value};
ghost use Rattle.distr.specs.Words.{got};
ghost use Rattle.numbers.specs.Answering.{wide_read};

use crate::index::{make_guide, sample_magnitude};
use output::Output;
use words::wide_word;

// Each element by a 64-bit word, as the encoding holds it. The caller has counted the words.
pub(crate) fn fill<T: Output>(
    output: &mut [T],
    encoding: T::Encoding,
    top: usize,
    bounds: &[u64],
    words: &[u32],
    place: usize,
)
    requires { IsTrue (cumulative_table top bounds.now) × (place + 2 * length output.old ≤ length words.now) }
    ensures { wide_read (λ w. T.held_one encoding (cumulative_value top bounds.now w)) (length output.old) (drop place words.now) ≡
        got output.new (drop (place + 2 * length output.old) words.now) }
{
    let last = top + 1;
    let ends = &bounds[1..last];
    let guide = make_guide(ends);
    for i in 0..output.len() {
        let at = place + 2 * i;
        let word = wide_word(words[at], words[at + 1]);
        let sampled = sample_magnitude(ends, &guide, word);
        output[i] = T::coefficient(encoding, sampled.positive, sampled.magnitude);
    }
}
