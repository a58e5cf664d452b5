// Reads the text of a report's input: the modulus alone on the first line, the limits on the second, and the residues on all lines after it.
#![tactic(auto)]

pub mod number;
pub mod numbers;
mod scan;

ghost use Rattle.std.specs.Prelude.{◌≡◌, ◌≤◌, length};
ghost use Rattle.distr.specs.Constants.{report_modulus_limit};
ghost use Rattle.residue_text.specs.Tokens.{tokens};
ghost use Rattle.residue_text.specs.Numbers.{numbers_of, left_over};
ghost use Rattle.residue_text.specs.Input.{bad, reading, modulus_of, read_rest, read_input};

use crate::number::ALL;
use crate::numbers::read_numbers;
use crate::scan::first_line;
use distr::limits::MAX_EXACT_F64_INTEGER;

// What a text holds. `bad_part` is 0 for a good text, and 1, 2 or 3 where a number on the first line, on the second or after it is bad; `position`
// says then which number of the text that is, counted from 1, and the other fields are 0.
#[derive(Clone, Copy, Debug, PartialEq, Eq)]
pub struct Input {
    pub bad_part: u32,
    pub position: usize,
    pub modulus: u64,
    pub limit_count: usize,
    pub residue_count: usize,
}

// What a line holds that should be a modulus alone: the modulus, or 0, and whether a token is left over.
#[derive(Clone, Copy, Debug, PartialEq, Eq)]
struct First {
    modulus: u64,
    more: bool,
}

// A text with a bad number.
fn bad(part: u32, position: usize) -> Input
    ensures { result ≡ bad part position }
{
    Input {
        bad_part: part,
        position,
        modulus: 0,
        limit_count: 0,
        residue_count: 0,
    }
}

// Reads the first line: one number of at most 2^53.
fn read_modulus(line: &[u8]) -> First
    ensures { (result.modulus ≡ modulus_of line.now)
        × (result.more ≡ left_over (numbers_of 1 report_modulus_limit (tokens line.now)) line.now) }
{
    let mut room: [u64; 1] = [0];
    let read = read_numbers(line, MAX_EXACT_F64_INTEGER, &mut room);
    let modulus = room[0];
    First {
        modulus,
        more: read.more,
    }
}

// Reads the text after the first line: limits on a line, and then residues below the modulus.
fn read_rest(text: &[u8], modulus: u64, limits: &mut [u64], residues: &mut [u64]) -> Input
    requires { 1 ≤ modulus }
    ensures residues_after { reading result limits.new residues.new
        ≡ read_rest modulus text.now limits.old residues.old }
    ensures limit_count_in_bounds { result.limit_count ≤ length limits.new }
    ensures residue_count_in_bounds { result.residue_count ≤ length residues.new }
{
    let line = first_line(text);
    let end = line.end;
    let next = line.next;
    let limits_read = read_numbers(&text[..end], ALL, limits);
    let limit_count = limits_read.count;
    if limits_read.more {
        return bad(2, 2 + limit_count);
    }
    let residues_read = read_numbers(&text[next..], modulus - 1, residues);
    let residue_count = residues_read.count;
    if residues_read.more {
        return bad(3, 2 + limit_count + residue_count);
    }
    Input {
        bad_part: 0,
        position: 0,
        modulus,
        limit_count,
        residue_count,
    }
}

// Reads a text. The limits and the residues stand at the start of their rooms, as many as the two counts say, which are within the rooms.
pub fn read_input(text: &[u8], limits: &mut [u64], residues: &mut [u64]) -> Input
    ensures residues_after { reading result limits.new residues.new
        ≡ read_input text.now limits.old residues.old }
    ensures limit_count_in_bounds { result.limit_count ≤ length limits.new }
    ensures residue_count_in_bounds { result.residue_count ≤ length residues.new }
{
    let line = first_line(text);
    let end = line.end;
    let next = line.next;
    let first = read_modulus(&text[..end]);
    let modulus = first.modulus;
    if modulus == 0 {
        return bad(1, 1);
    }
    if first.more {
        return bad(1, 2);
    }
    read_rest(&text[next..], modulus, limits, residues)
}
