// The answer to fields that are good: a draw into room of its own, and its text.
ghost use Rattle.std.specs.Prelude.{◌≡◌, true, ◌≤◌, length, replicate, pos};
ghost use Rattle.distr.specs.Answers.{sums};
ghost use Rattle.distr.specs.Draw.{outcome};
ghost use Rattle.distr.specs.Constants.{sheet_coefficients};
ghost use Rattle.sheet_request.specs.Request.{known_kind};
ghost use Rattle.little_endian.specs.Patterns.{values_of};
ghost use Rattle.sheet.specs.Sheet.{text_limit, fields_draw, fields_skipped, fields_text_as};
ghost use Rattle.sheet.specs.Written.{Written};

use crate::answer;
use crate::fields::Fields;
use distr::answer::Answer;
use little_endian::coefficients::pattern;
use sheet_request::draw_question;

// Room for coefficients.
fn coefficients_room() -> [i64; 4096]
    ensures { result ≡ replicate sheet_coefficients (pos 0) }
{
    [0; 4096]
}

// Room for them as bits.
fn values_room() -> [u64; 4096]
    ensures { length result ≡ sheet_coefficients }
{
    [0; 4096]
}

// The coefficients as bits.
fn copy_patterns(values: &mut [u64], coefficients: &[i64])
    requires { length values.old ≡ length coefficients.now }
    ensures { values_of true values.new ≡ coefficients.now }
{
    let n = values.len();
    let mut i = 0;
    while i < n {
        values[i] = pattern(coefficients[i]);
        i += 1;
    }
}

// Draws what the fields ask for, signed coefficients or residues as their value, and hands it out as bits.
fn draw(values: &mut [u64], f: Fields, words: &[u32]) -> Answer
    requires { (f.n ≤ sheet_coefficients) × (known_kind f.kind ≡ true) × (length values.old ≡ f.n) }
    ensures values_after { outcome result (values_of true values.new) ≡ fields_draw f words.now }
    ensures result_value { sums result ≡ fields_skipped f words.now }
{
    let kind = f.kind;
    let n = f.n as usize;
    let a = f.a;
    let b = f.b;
    let modulus = f.modulus;
    let mut room = coefficients_room();
    let output = &mut room[..n];
    let drawn = draw_question(kind, a, b, modulus, output, words, 0);
    copy_patterns(values, output);
    drawn
}

// The answer of the fields on the words, with the third line where `skipped` asks for it.
pub(crate) fn reply(f: Fields, words: &[u32], text: &mut [u8], skipped: bool) -> usize
    requires { (text_limit ≤ length text.old) × (f.n ≤ sheet_coefficients) × (known_kind f.kind ≡ true) }
    ensures { Written text.old 0 (fields_text_as skipped f words.now) text.new result }
{
    let n = f.n as usize;
    let mut room = values_room();
    let values = &mut room[..n];
    let drawn = draw(values, f, words);
    let number = drawn.number;
    if number != 0 {
        return answer::write_refusal(text, number);
    }
    let end = answer::write_success(text, drawn.place, values);
    answer::write_skipped(text, end, skipped, drawn.skipped_words, drawn.skipped_bytes)
}
