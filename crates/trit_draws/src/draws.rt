// A draw by the table and by division, from the same words and place, into two outputs that hold 7 throughout before.
ghost use Rattle.std.specs.Prelude.{◌≡◌, ◌≤◌, length};

use crate::tally::Tally;
use crate::{compare, tally};
use primus_distr::{residues, signed};

// The longest output.
const ROOM: usize = 100;

// For signed values, before a draw.
fn signed_room() -> [i64; 100]
    ensures { 100 ≡ length result }
{
    [7; 100]
}

// For residues, before a draw.
fn residue_room() -> [u64; 100]
    ensures { 100 ≡ length result }
{
    [7; 100]
}

// The lengths that are drawn: 0 to 44, 64, 99 and 100.
pub(crate) fn length_at(i: usize) -> usize
    ensures { result ≤ 100 }
{
    if i < 45 {
        i
    } else if i == 45 {
        64
    } else if i == 46 {
        99
    } else {
        100
    }
}

// The tally with a draw of n signed values more, of which the one by the table is added up.
fn with_signed(tally: Tally, n: usize, words: &[u32], place: usize) -> Tally {
    if ROOM < n {
        return tally;
    }
    let mut room = signed_room();
    let mut other_room = signed_room();
    let output = &mut room[0..n];
    let other = &mut other_room[0..n];
    let answer = signed::sample_uniform_ternary_values_to(output, words, place);
    let by_division = signed::sample_uniform_ternary_values_by_division_to(other, words, place);
    let same = compare::same_answers(answer, by_division) & compare::same_signed(output, other);
    let mut next = tally::with_draw(tally, answer, same);
    next.sum = tally::added_signed(next.sum, output);
    next
}

// The same of n residues of a modulus.
fn with_residues(tally: Tally, n: usize, modulus: u64, words: &[u32], place: usize) -> Tally {
    if ROOM < n {
        return tally;
    }
    let mut room = residue_room();
    let mut other_room = residue_room();
    let output = &mut room[0..n];
    let other = &mut other_room[0..n];
    let answer = residues::sample_uniform_ternary_values_to(output, modulus, words, place);
    let by_division = residues::sample_uniform_ternary_values_by_division_to(
        other, modulus, words, place,
    );
    let same = compare::same_answers(answer, by_division) & compare::same_residues(output, other);
    let mut next = tally::with_draw(tally, answer, same);
    next.sum = tally::added_residues(next.sum, output);
    next
}

// The tally with the draws of a length more: signed, and as residues of 1, which is refused, of 3 and of 3329.
pub(crate) fn of_length(tally: Tally, n: usize, words: &[u32], place: usize) -> Tally {
    let with_signed = with_signed(tally, n, words, place);
    let with_ones = with_residues(with_signed, n, 1, words, place);
    let with_threes = with_residues(with_ones, n, 3, words, place);
    with_residues(with_threes, n, 3329, words, place)
}
