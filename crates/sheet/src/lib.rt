// Serves the program keysheet: a sheet's fields and words, and the text that answers it.
#![tactic(auto)]

mod answer;
pub mod argument;
mod fields;
mod reply;
mod text;

ghost use Rattle.std.specs.Prelude.{◌≡◌, false, cond, ◌≤◌, length, take};
ghost use Rattle.distr.specs.Constants.{sheet_words};
ghost use Rattle.sheet.specs.Sheet.{malformed, sheet_text_as, text_limit, answered, answered_with_skipped};
ghost use Rattle.sheet.specs.Written.{Written};

use distr::refusal::Refusal;
use little_endian::words::read_words;

// Bytes that hold every answer.
const TEXT_LIMIT: usize = 98304;

// Room for the words of a sheet.
fn words_room() -> [u32; 8192]
    ensures { length result ≡ sheet_words }
{
    [0; 8192]
}

// Answers a sheet that is not malformed: the draw that its fields ask for, on its words, with the third line where `skipped` asks for it.
fn answer_well_formed(sheet: &[u8], text: &mut [u8], skipped: bool) -> usize
    requires { (text_limit ≤ length text.old) × (malformed sheet.now ≡ false) }
    ensures { Written text.old 0 (sheet_text_as skipped sheet.now) text.new result }
{
    let f = fields::read_fields(sheet);
    let count = f.count as usize;
    let offset = f.offset as usize;
    let mut room = words_room();
    let words = &mut room[..count];
    let end = offset + 4 * count;
    read_words(words, &sheet[offset..end]);
    reply::reply(f, words, text, skipped)
}

// Answers a sheet, in a text that is long enough, with the third line where `skipped` asks for it.
fn answer_as(sheet: &[u8], text: &mut [u8], skipped: bool) -> usize
    ensures text_after { (result, text.new) ≡
        cond skipped (answered_with_skipped sheet.now text.old) (answered sheet.now text.old) }
    ensures upper_bound { result ≤ length text.new }
    ensures value { result ≡ length (take result text.new) }
{
    if text.len() < TEXT_LIMIT {
        return 0;
    }
    if fields::is_malformed(sheet) {
        return answer::write_refusal(text, Refusal::InvalidSheet.number());
    }
    answer_well_formed(sheet, text, skipped)
}

// Answers a sheet. The text's length is handed back; it stands at the start of `text`, which must have 98,304 bytes, or it is left as it was.
pub fn answer_sheet(sheet: &[u8], text: &mut [u8]) -> usize
    ensures text_after { (result, text.new) ≡ answered sheet.now text.old }
    ensures upper_bound { result ≤ length text.new }
    ensures value { result ≡ length (take result text.new) }
{
    answer_as(sheet, text, false)
}

// Answers a sheet like `answer_sheet`, and where the draw is not refused adds a third line: the words and the bytes that it skipped.
pub fn answer_sheet_with_skipped(sheet: &[u8], text: &mut [u8]) -> usize
    ensures text_after { (result, text.new) ≡ answered_with_skipped sheet.now text.old }
    ensures upper_bound { result ≤ length text.new }
    ensures value { result ≡ length (take result text.new) }
{
    answer_as(sheet, text, true)
}
