// An inner crate of the library primus_distr: the CRT layout, a row of residues for each modulus, one row after the other. The
// coefficients are drawn once, as native residues (-m is 2^64 - m), into the last row; each row is then made from the last one.
#![tactic(auto)]

ghost use Rattle.std.specs.Prelude.{◌≡◌, ◌-◌, ◌*◌, ◌≤◌, ◌∷◌, map, length, drop, ◌==◌};
ghost use Rattle.std.proofs.Math.Seq.{paste};
ghost use Rattle.distr.specs.Numbers.{first_of, past_end, shape_number, too_long, moduli_numbers};
ghost use Rattle.distr.specs.Draw.{outcome};
ghost use Rattle.distr.specs.Refusals.{number_of};
ghost use Rattle.crt.specs.Rows.{from_native, spread, finished};
ghost use Rattle.crt.specs.Parts.{row_range, IsRow};

use distr::answer::Answer;
use distr::refusal::Refusal;
use numbers::check_draw;

// Whether n is coefficient_count * rows. Asked by division, since the product may not fit.
fn has_shape(n: usize, coefficient_count: usize, rows: usize) -> bool
    ensures { result ≡ (n == coefficient_count * rows) }
{
    if rows == 0 {
        return n == 0;
    }
    (n / rows == coefficient_count) & (n % rows == 0)
}

// Refuses moduli, modulus by modulus: 10 for a modulus of 0, 9 for one that does not exceed the largest magnitude.
fn check_moduli(moduli: &[u64], largest: u64) -> Result<(), Refusal>
    ensures { number_of result ≡ first_of (moduli_numbers largest moduli.now) }
{
    for modulus in moduli {
        if *modulus == 0 {
            return Err(Refusal::ModulusZero);
        }
        if *modulus <= largest {
            return Err(Refusal::ModulusTooSmall);
        }
    }
    Ok(())
}

// Refuses a CRT draw of `coefficient_count` coefficients into n elements, from `place` in `words` words: 22, 11 the shape, 6, then 10 and 9
// of the moduli. A bad shape is judged before the length, so the length is not looked at then.
pub fn check_crt(
    words: usize,
    place: usize,
    n: usize,
    coefficient_count: usize,
    moduli: &[u64],
    largest: u64,
) -> Result<(), Refusal>
    ensures { number_of result ≡ first_of (past_end words place ∷ shape_number n coefficient_count (length moduli.now) ∷ too_long n
        ∷ moduli_numbers largest moduli.now) }
{
    if has_shape(n, coefficient_count, moduli.len()) {
        return check_draw(words, place, n, check_moduli(moduli, largest));
    }
    check_draw(words, place, 0, Err(Refusal::InvalidCrtShape))
}

// The residue of a native one: the modulus is added, wrapping, where the top bit is set. No branch, since the sign is random.
fn from_native(modulus: u64, word: u64) -> u64
    ensures { result ≡ from_native modulus word }
{
    let negative = word / 0x8000_0000_0000_0000;
    std::num::wrapping_add_u64(word, modulus * negative)
}

// Makes the row that starts at `at` from the one that starts at `last` and ends the output. A row that is `last` itself is made in
// place: an element is read before it is written.
fn make_row(output: &mut [u64], at: usize, last: usize, modulus: u64)
    requires { (at ≤ last) × (last ≤ length output.old) }
    ensures { output.new ≡ paste output.old at (map (from_native modulus) (drop last output.old)) (length output.old - last) }
{
    let count = output.len() - last;
    for c in 0..count {
        let word = output[last + c];
        output[at + c] = from_native(modulus, word);
    }
}

// Makes each row from the last one, the last in place. An output of another shape is left as it is.
pub fn spread_rows(output: &mut [u64], coefficient_count: usize, moduli: &[u64])
    ensures { output.new ≡ spread output.old coefficient_count moduli.now }
{
    let n = output.len();
    let rows = moduli.len();
    if rows == 0 {
        return;
    }
    if has_shape(n, coefficient_count, rows) {
        let last = n - coefficient_count;
        let mut at = 0;
        for modulus in moduli {
            make_row(output, at, last, *modulus);
            at += coefficient_count;
        }
    }
}

// Where the last row of an output of n elements starts: at 0 where the output is empty, whatever a row's length.
pub fn last_row(n: usize, coefficient_count: usize) -> usize
    ensures { result ≡ n - coefficient_count }
{
    if n < coefficient_count {
        0
    } else {
        n - coefficient_count
    }
}

// Ends a CRT draw whose last row was drawn with this answer, and hands it back: the rows where it succeeded, zeros over the whole output where a word
// was not there. Another number leaves the output as it is.
pub fn finish(
    output: &mut [u64],
    coefficient_count: usize,
    moduli: &[u64],
    answer: Answer,
) -> Answer
    ensures output_after { outcome result output.new ≡ finished output.old coefficient_count moduli.now answer.number answer.place answer.index }
    ensures value { result ≡ answer }
{
    let number = answer.number;
    if number == 0 {
        spread_rows(output, coefficient_count, moduli);
    } else if number == Refusal::OutOfWords.number() {
        output::clear(output);
    }
    answer
}

// Where the row of one modulus lies in an output: the index of its first element, and the one after its last.
#[derive(Clone, Copy, Debug, PartialEq, Eq)]
pub struct RowRange {
    pub start: usize,
    pub end: usize,
}

// Where the row of modulus number i lies in an output of n elements, for a caller who writes to that row in place. A row out of range, and
// another shape, have the empty part at the output's start.
pub fn crt_row_range(n: usize, coefficient_count: usize, moduli_count: usize, i: usize) -> RowRange
    ensures { result ≡ row_range n coefficient_count moduli_count i }
{
    if has_shape(n, coefficient_count, moduli_count) & (i < moduli_count) {
        let start = i * coefficient_count;
        let end = start + coefficient_count;
        return RowRange { start, end };
    }
    RowRange { start: 0, end: 0 }
}

// The row of modulus number i, as that part of the output; the empty part at its start for a row out of range or another shape. The output
// is lent to be read, so no row is written to, and the caller's output is as it was.
pub fn crt_row<'a>(
    output: &'a [u64],
    coefficient_count: usize,
    moduli_count: usize,
    i: usize,
) -> &'a [u64]
    ensures { IsRow output.entry coefficient_count moduli_count i result }
{
    let row = crt_row_range(output.len(), coefficient_count, moduli_count, i);
    let start = row.start;
    let end = row.end;
    &output[start..end]
}
