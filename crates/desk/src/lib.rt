// The entry of the exam desk (02 [4]): a question by numbers, with words and coefficients as little-endian bytes, for a program in C. What it must keep,
// since no contract can ask it of a foreign caller, stands in include/desk.h: every pointer, that of an empty slice too, is not null and aligned for its
// elements, and valid for its length; and what is written overlaps nothing else that the call is lent.
#![tactic(auto)]

ghost use Rattle.std.specs.Prelude.{◌≡◌, ◌/◌, ◌%◌, ◌≤◌, length, replicate, pos};
ghost use Rattle.distr.specs.Constants.{desk_coefficients, desk_words};
ghost use Rattle.distr.specs.Refusals.{number_of};
ghost use Rattle.little_endian.specs.LittleEndian.{words_in};
ghost use Rattle.desk.specs.Desk.{desk_number, desk_answer, drawn_answer, desk_draw};

use distr::answer::Answer;
use distr::limits::{MAX_DESK_COEFFICIENTS, MAX_DESK_WORDS};
use distr::refusal::Refusal;
use little_endian::coefficients::write_coefficients;
use little_endian::words::read_words;
use sheet_request::draw_question;

// Room for the words of a request.
fn words_room() -> [u32; 8192]
    ensures { length result ≡ desk_words }
{
    [0; 8192]
}

// Room for its coefficients.
fn coefficients_room() -> [i64; 4096]
    ensures { result ≡ replicate desk_coefficients (pos 0) }
{
    [0; 4096]
}

// Tests a request by the bytes of its words and its output: 29 for too many items, or for bytes that are no whole number of them.
#[tactic(auto, unfolding(crate::specs::Desk::desk_number))]
fn check_desk(word_bytes: usize, output_bytes: usize) -> Result<(), Refusal>
    ensures { number_of result ≡ desk_number word_bytes output_bytes }
{
    if (MAX_DESK_COEFFICIENTS < output_bytes / 8)
        | (MAX_DESK_WORDS < word_bytes / 4)
        | (output_bytes % 8 != 0)
        | (word_bytes % 4 != 0)
    {
        return Err(Refusal::InvalidDeskRequest);
    }
    Ok(())
}

// Draws the question into room of its own, and writes the coefficients as bytes, with 0 and with 23 alone.
fn draw(
    kind: u32,
    a: u32,
    b: u32,
    modulus: u32,
    words: &[u32],
    output: &mut [u8],
    place: usize,
) -> Answer
    requires { (length output.old / 8 ≤ desk_coefficients) × (length output.old % 8 ≡ 0) }
    ensures { desk_answer result.number result.place result.skipped_words result.skipped_bytes output.new
        ≡ drawn_answer kind a b modulus words.now place output.old }
{
    let n = output.len() / 8;
    let mut room = coefficients_room();
    let coefficients = &mut room[..n];
    let answer = draw_question(kind, a, b, modulus, coefficients, words, place);
    let number = answer.number;
    if (number == 0) | (number == Refusal::OutOfWords.number()) {
        write_coefficients(output, coefficients);
    }
    answer
}

// Draws a request that 29 does not refuse, on the words that stand in its bytes.
fn draw_bytes(
    kind: u32,
    a: u32,
    b: u32,
    modulus: u32,
    words: &[u8],
    output: &mut [u8],
    place: usize,
) -> Answer
    requires { desk_number (length words.now) (length output.old) ≡ 0 }
    ensures { desk_answer result.number result.place result.skipped_words result.skipped_bytes output.new
        ≡ drawn_answer kind a b modulus (words_in words.now) place output.old }
{
    let count = words.len() / 4;
    let mut store = words_room();
    let lent = &mut store[..count];
    read_words(lent, words);
    draw(kind, a, b, modulus, lent, output, place)
}

// Draws the question of a kind with its A, B and modulus from the words, which are bytes, from a place on into the output's bytes. The number is handed back;
// a success moves the place and reports the words and the bytes skipped. Any other number leaves the place and reports zeros; 23 writes zeros over the
// output, and every other refusal leaves it.
#[tactic(auto, unfolding(crate::specs::Desk::desk_draw))]
pub fn desk_draw(
    kind: u32,
    a: u32,
    b: u32,
    modulus: u32,
    words: &[u8],
    output: &mut [u8],
    place: &mut usize,
    skipped_words: &mut u64,
    skipped_bytes: &mut u64,
) -> u32
    ensures { desk_answer result place.new skipped_words.new skipped_bytes.new output.new
        ≡ desk_draw kind a b modulus words.now place.old output.old }
{
    *skipped_words = 0;
    *skipped_bytes = 0;
    if let Err(why) = check_desk(words.len(), output.len()) {
        return why.number();
    }
    let answer = draw_bytes(kind, a, b, modulus, words, output, *place);
    *place = answer.place;
    *skipped_words = answer.skipped_words;
    *skipped_bytes = answer.skipped_bytes;
    answer.number
}
