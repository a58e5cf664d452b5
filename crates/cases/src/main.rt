// Runs cases of document 01 through the code and prints a line for each: a label, the number, the place after the draw (for a sampler
// that is made, its M or eta) and the values. What it must print stands in the file `stdout`, written by hand from document 01.
#![tactic(auto)]

mod draws;
mod making;
mod print;
mod rows;
mod skips;

use std::io;

// "Marked cases", 1 to 3, 6 to 9 and 12: whole draws. Each output is 9 throughout before its draw.
fn marked_draws(rt: &impl Print) -> io::Result<()> {
    draws::uniform_binary(rt, b"1 binary, word 5", &mut [9; 3], &[5], 0)?;
    draws::uniform_ternary(rt, b"2 ternary, word 5", &mut [9; 5], &[5])?;
    draws::uniform_ternary(rt, b"3 ternary, word 0xF3", &mut [9; 5], &[0xf3])?;
    draws::centered_binomial(rt, b"6 eta 2, word 7", 2, &[7, 0])?;
    draws::centered_binomial(rt, b"6 eta 2, word 12", 2, &[12, 0])?;
    draws::centered_binomial(rt, b"7 eta 32, word 2^32-1", 32, &[0xffff_ffff, 0])?;
    draws::composition(rt, b"8 composition, 1 and 1, words 0, 0", &mut [9; 4], 1, 1)?;
    draws::binary_weight(rt, b"9 binary, weight 1, word 5", 1, &[5])?;
    draws::blocks(rt, b"12 blocks of 2, words 1, 0", &mut [9; 4], &[1, 0])
}

// "Marked cases", 4, 5, 10 and 11: a choice, the cumulative rule with bounds 0, 4, 8, 2^64-1, and residues of two moduli.
fn marked_rules(rt: &impl Print) -> io::Result<()> {
    draws::choice(rt, b"4 choice of 3, word 4294967294", &[4294967294])?;
    draws::choice(rt, b"5 choice of 3, words 4294967295, 1", &[4294967295, 1])?;
    draws::cumulative(
        rt,
        b"10 words 3, 4, 5, 2^64-1",
        &[3, 0, 4, 0, 5, 0, 0xffff_ffff, 0xffff_ffff],
    )?;
    draws::residues(rt, b"11 -2 over 5, 7")
}

// "Run only".
fn run_only(rt: &impl Print) -> io::Result<()> {
    making::gaussian(rt, b"deviation 21.25", 21.25)?;
    making::gaussian(rt, b"deviation 21.5", 21.5)?;
    making::gaussian(rt, b"deviation 341.25", 341.25)?;
    making::gaussian(rt, b"deviation 341.5", 341.5)?;
    making::centered_binomial(rt, b"eta 0", 0)?;
    making::centered_binomial(rt, b"eta 33", 33)?;
    draws::uniform_binary(
        rt,
        b"binary of 32, words 0x80000001, 0",
        &mut [9; 32],
        &[0x8000_0001, 0],
        0,
    )?;
    draws::blocks(rt, b"block length 0", &mut [9; 0], &[1, 0])
}

// "Traps seen in candidates' work": byte 243 is skipped, and 5 is 2 + 1 × 3; 32 values need ⌊32/32⌋+1 words; zero stays 0; the
// commonest value fills, at ties 0, then -1. With them "23 keeps the place and writes zeros over the output", "also for n = 0" and 22.
fn traps(rt: &impl Print) -> io::Result<()> {
    draws::uniform_ternary(rt, b"bytes 243, 5", &mut [9; 5], &[0x05f3])?;
    draws::uniform_ternary(rt, b"bytes 255", &mut [9; 5], &[0xffff_ffff])?;
    draws::uniform_binary(
        rt,
        b"binary of 32, one word",
        &mut [9; 32],
        &[0x8000_0001],
        0,
    )?;
    draws::uniform_binary(rt, b"binary of 0", &mut [9; 0], &[5], 0)?;
    draws::uniform_binary(rt, b"place past the end", &mut [9; 3], &[5], 2)?;
    draws::cumulative_residue(rt, b"zero over 5, word 2")?;
    draws::composition(rt, b"tie of 0, -1 and 1", &mut [9; 3], 1, 1)?;
    draws::composition(rt, b"tie of -1 and 1", &mut [9; 4], 2, 2)?;
    draws::binary_weight(rt, b"tie of 0 and 1", 2, &[0, 0])
}

// "Yes is a 64-bit word below it, and threshold 2^64 says yes without reading"; "below N is −1, below E is 1, else 0"; number 1. The words
// are 2^62-1, 2^62 and 3 × 2^62, and N and E are 2^62 and 3 × 2^62.
fn probabilities(rt: &impl Print) -> io::Result<()> {
    draws::binary_probability(rt, b"probability 0.25", 0.25)?;
    draws::binary_probability(rt, b"probability 1", 1.0)?;
    draws::binary_probability(rt, b"probability 1.5", 1.5)?;
    draws::ternary_probabilities(rt, b"probabilities 0.25, 0.5", 0.25, 0.5)?;
    draws::ternary_probabilities(rt, b"probabilities 0.75, 0.5", 0.75, 0.5)
}

// "The row of one modulus is handed back as that part of the output; a row number out of range, or a wrong shape, gives the empty part at
// its start." Each line has the length of the part and the whole buffer, in which the part was written to and nothing else.
fn rows_of_a_buffer(rt: &impl Print) -> io::Result<()> {
    rows::row(rt, b"row 0 of 3 coefficients, 2 moduli", 3, 2, 0)?;
    rows::row(rt, b"row 1 of 3 coefficients, 2 moduli", 3, 2, 1)?;
    rows::row(rt, b"row 2 of 3 coefficients, 2 moduli", 3, 2, 2)?;
    rows::row(rt, b"row 1 of 2 coefficients, 2 moduli", 2, 2, 1)?;
    rows::row(rt, b"row 0 of 6 coefficients, 2 moduli", 6, 2, 0)
}

// Document 02, "Words thrown away": beside number and place the words and the bytes skipped, each figure worked out from the rules. The word
// 2^32-1 is passed over by a choice among 3, among 5 and among 7, not by one among 2; of the bytes 243, 5, 255, 0 those before the last accepted
// one are looked at; words of signs are used; a draw that ends in 23 reports zeros.
fn thrown_away(rt: &impl Print) -> io::Result<()> {
    skips::composition(
        rt,
        b"composition, a word passed over twice",
        &[0xffff_ffff, 0xffff_ffff, 0xffff_ffff, 0],
    )?;
    skips::composition(
        rt,
        b"composition, short after a word passed over",
        &[1, 0xffff_ffff],
    )?;
    skips::ternary_weight(
        rt,
        b"ternary weight 1 of 3, signs and a word passed over",
        &[0xffff_ffff, 0xffff_ffff, 0],
    )?;
    skips::blocks(
        rt,
        b"two blocks of 3, a word passed over in each",
        &[0xffff_ffff, 0, 0xffff_ffff, 1],
    )?;
    skips::uniform_ternary(
        rt,
        b"one byte of 243, 5, 255, 0",
        &mut [9; 5],
        &[0x00ff_05f3],
    )?;
    skips::uniform_ternary(
        rt,
        b"two bytes of 243, 5, 255, 0",
        &mut [9; 6],
        &[0x00ff_05f3],
    )?;
    skips::uniform_ternary(
        rt,
        b"a word rejected whole, short",
        &mut [9; 5],
        &[0xffff_ffff],
    )?;
    skips::layered(rt, b"layered, two tries rejected, two words passed over")
}

fn main(rt: HostRuntime) -> io::Result<()> {
    marked_draws(&rt)?;
    marked_rules(&rt)?;
    run_only(&rt)?;
    traps(&rt)?;
    probabilities(&rt)?;
    rows_of_a_buffer(&rt)?;
    thrown_away(&rt)
}
