// What is counted of the draws from a list, and a sum over all that they hand back.
ghost use Rattle.std.specs.Prelude.{◌≡◌, ◌+◌, ◌*◌, ◌%◌};

use primus_distr::Answer;

// The number of draws, and of those that are the same by the table and by division; of each number how many draws answered it, 0 for a draw that
// succeeded, 9 for a refused modulus, 22 for a place past the words, 23 for too few words; and the sum.
#[derive(Clone, Copy)]
pub(crate) struct Tally {
    pub draws: u64,
    pub same: u64,
    pub succeeded: u64,
    pub refused_modulus: u64,
    pub past_words: u64,
    pub short_of_words: u64,
    pub sum: u64,
}

// The tally before any draw.
pub(crate) fn none() -> Tally {
    Tally {
        draws: 0,
        same: 0,
        succeeded: 0,
        refused_modulus: 0,
        past_words: 0,
        short_of_words: 0,
        sum: 0,
    }
}

// A count with one more where a test holds.
fn counted(count: u64, holds: bool) -> u64 {
    count.wrapping_add(holds as u64)
}

// The sum with a value more. It depends on the order of the values.
fn added(sum: u64, value: u64) -> u64
    ensures { result ≡ (sum * 31 + value) % 4294967296 }
{
    (sum % 0x1_0000_0000 * 31 + value % 0x1_0000_0000) % 0x1_0000_0000
}

// The sum with an answer more: its number, place, and words and bytes skipped.
fn added_answer(sum: u64, answer: Answer) -> u64 {
    let with_number = added(sum, answer.number as u64);
    let with_place = added(with_number, answer.place as u64);
    let with_words = added(with_place, answer.skipped_words);
    added(with_words, answer.skipped_bytes)
}

// What a signed element adds: 1 more than it is, so that -1 adds 0. Beside -1, 0 and 1 it can be the 7 of before the draw; any other, which no draw here
// should leave, adds what none of these does.
fn plus_one(element: i64) -> u64 {
    match element {
        -1 => 0,
        0 => 1,
        1 => 2,
        7 => 8,
        _ => 9999,
    }
}

// The sum with an output of signed values more.
pub(crate) fn added_signed(sum: u64, output: &[i64]) -> u64 {
    let mut all = sum;
    for element in output {
        all = added(all, plus_one(*element));
    }
    all
}

// The sum with an output of residues more, each plus 1.
pub(crate) fn added_residues(sum: u64, output: &[u64]) -> u64 {
    let mut all = sum;
    for residue in output {
        all = added(all, residue.wrapping_add(1));
    }
    all
}

// The tally with a draw more, before its output is added to the sum. A number that no draw here should answer is counted nowhere.
pub(crate) fn with_draw(tally: Tally, answer: Answer, same: bool) -> Tally {
    let number = answer.number;
    Tally {
        draws: counted(tally.draws, true),
        same: counted(tally.same, same),
        succeeded: counted(tally.succeeded, number == 0),
        refused_modulus: counted(tally.refused_modulus, number == 9),
        past_words: counted(tally.past_words, number == 22),
        short_of_words: counted(tally.short_of_words, number == 23),
        sum: added_answer(tally.sum, answer),
    }
}
