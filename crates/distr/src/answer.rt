// What a draw hands back beside its output: the number (0 is success), the place in the words, the index that goes with the number of a bad layer list
// (30 to 32; 0 with every other), and how many words its choices passed over and how many bytes uniform ternary rejected. Every answer is made by one of
// the functions below.
ghost use Rattle.std.specs.Prelude.{◌≡◌};
ghost use Rattle.distr.specs.Answers.{refusal, refusal_at, success, success_after};

use crate::refusal::Reason;

#[derive(Clone, Copy, Debug, PartialEq, Eq)]
pub struct Answer {
    pub number: u32,
    pub place: usize,
    pub index: usize,
    pub skipped_words: u64,
    pub skipped_bytes: u64,
}

// A refused draw: its number, or that of its refusal, the place as it was, and the index that goes with the number. It reports nothing skipped.
pub fn refused_at<R: Reason>(why: R, place: usize, index: usize) -> Answer
    ensures { result ≡ refusal_at (R.refusing why) place index }
{
    Answer {
        number: why.refusing(),
        place,
        index,
        skipped_words: 0,
        skipped_bytes: 0,
    }
}

// A draw refused by a number that names no index.
pub fn refused<R: Reason>(why: R, place: usize) -> Answer
    ensures { result ≡ refusal (R.refusing why) place }
{
    refused_at(why, place, 0)
}

// A draw that succeeded after skipping so many words and bytes: number 0 and the new place.
pub fn succeeded_after(place: usize, skipped_words: u64, skipped_bytes: u64) -> Answer
    ensures { result ≡ success_after place (record { words = skipped_words; bytes = skipped_bytes }) }
{
    Answer {
        number: 0,
        place,
        index: 0,
        skipped_words,
        skipped_bytes,
    }
}

// A draw that succeeded and skipped nothing.
pub fn succeeded(place: usize) -> Answer
    ensures { result ≡ success place }
{
    succeeded_after(place, 0, 0)
}
