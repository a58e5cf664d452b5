// The two lines of an answer, or the one of a refusal, and the third line.
ghost use Rattle.std.specs.Prelude.{true, [], ◌∷◌, ◌+◌, ◌*◌, ◌<◌, ◌≤◌, length, pos};
ghost use Rattle.distr.specs.Constants.{sheet_coefficients};
ghost use Rattle.sheet.specs.Text.{line, answer_text, skipped_line, line_if};
ghost use Rattle.little_endian.specs.Patterns.{values_of};
ghost use Rattle.sheet.specs.Sheet.{text_limit};
ghost use Rattle.sheet.specs.Written.{Written};

use crate::text;

// The first line: number, words used, n.
fn write_head(text: &mut [u8], number: u64, used: u64, n: u64) -> usize
    requires { 67 ≤ length text.old }
    ensures written { Written text.old 0 (line (pos number ∷ pos used ∷ pos n ∷ [])) text.new result }
    ensures upper_bound { result ≤ 67 }
{
    let numbers: [u64; 3] = [number, used, n];
    text::write_line(text, 0, &numbers, false)
}

// A refusal: its number, 0, 0.
pub(crate) fn write_refusal(text: &mut [u8], number: u32) -> usize
    requires { (67 ≤ length text.old) × (0 < number) }
    ensures { Written text.old 0 (answer_text number 0 0 []) text.new result }
{
    write_head(text, number as u64, 0, 0)
}

// A success: the words used, the number of values, and the values, each the bits of a coefficient.
pub(crate) fn write_success(text: &mut [u8], used: usize, values: &[u64]) -> usize
    requires { (text_limit ≤ length text.old) × (length values.now ≤ sheet_coefficients) }
    ensures written { Written text.old 0 (answer_text 0 used (length values.now) (values_of true values.now)) text.new result }
    ensures upper_bound { result ≤ 68 + 22 * length values.now }
{
    let n = values.len();
    let at = write_head(text, 0, used as u64, n as u64);
    text::write_line(text, at, values, true)
}

// The third line where it is wanted: the words and the bytes skipped.
pub(crate) fn write_skipped(
    text: &mut [u8],
    at: usize,
    wanted: bool,
    words: u64,
    bytes: u64,
) -> usize
    requires { at + 45 ≤ length text.old }
    ensures { Written text.old at (line_if wanted (skipped_line (record { words = words; bytes = bytes }))) text.new result }
{
    if wanted {
        let sums: [u64; 2] = [words, bytes];
        return text::write_line(text, at, &sums, false);
    }
    at
}
