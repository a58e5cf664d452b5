// Draws that skip words or bytes, and their lines.
use crate::print;
use common::signed;
use distr::secret_key_distr::BlockOccupancy;
use std::io;

// Three ternary values, one -1 and one 1.
pub(crate) fn composition(rt: &impl Print, label: &[u8], words: &[u32]) -> io::Result<()> {
    let mut output = [9i64; 3];
    let answer = signed::sample_fixed_composition_ternary_values_to(&mut output, 1, 1, words, 0);
    print::line_with_skipped(rt, label, answer, &output)
}

// Three ternary values, one of them not 0.
pub(crate) fn ternary_weight(rt: &impl Print, label: &[u8], words: &[u32]) -> io::Result<()> {
    let mut output = [9i64; 3];
    let answer = signed::sample_fixed_hamming_weight_ternary_values_to(&mut output, 1, words, 0);
    print::line_with_skipped(rt, label, answer, &output)
}

// Two blocks of 3, each with exactly one 1.
pub(crate) fn blocks(rt: &impl Print, label: &[u8], words: &[u32]) -> io::Result<()> {
    let mut output = [9i64; 6];
    let occupancy = BlockOccupancy::ExactlyOne;
    let answer = signed::sample_block_binary_values_to(&mut output, 3, occupancy, words, 0);
    print::line_with_skipped(rt, label, answer, &output)
}

// Uniform ternary values over the output.
pub(crate) fn uniform_ternary(
    rt: &impl Print,
    label: &[u8],
    output: &mut [i64],
    words: &[u32],
) -> io::Result<()> {
    let answer = signed::sample_uniform_ternary_values_to(output, words, 0);
    print::line_with_skipped(rt, label, answer, output)
}

// The endpoints 0, 2, 4, .. of 128 layers up to 256.
fn endpoints() -> [u64; 129] {
    let mut endpoints = [0u64; 129];
    for i in 0..129 {
        endpoints[i] = i as u64 * 2;
    }
    endpoints
}

// The heights 1, 127/128, .. down to 0.
fn heights() -> [f64; 129] {
    let mut heights = [0.0; 129];
    for i in 0..129 {
        heights[i] = (128 - i as u32) as f64 / 128.0;
    }
    heights
}

// One coefficient by layers: M is 256, and the curve is 0 throughout. The first try takes layer 2, no, magnitude 4 among 5, at the edge: the word 1 is
// above the chord there, and the try is rejected. The second takes layer 2, no, passes over 2^32-1 and has magnitude 0, whose 64-bit word 2^63 is not
// below the threshold 2^63: rejected. The third takes layer 3, yes, passes over 2^32-1 and has magnitude 3 among 7, inside layer 2: 3.
pub(crate) fn layered(rt: &impl Print, label: &[u8]) -> io::Result<()> {
    let parameters = match gaussian_core::parameters::new_parameters(21.34) {
        Ok(parameters) => parameters,
        Err(why) => return print::refused(rt, label, why),
    };
    let words = [
        1,
        0,
        4,
        1,
        1,
        0,
        0xffff_ffff,
        5,
        0,
        0x8000_0000,
        2,
        0x8000_0000,
        0xffff_ffff,
        3,
    ];
    let mut output = [9i64; 1];
    let answer = ziggurat::sample_ziggurat_to(
        &mut output,
        output::Signed {},
        parameters,
        &endpoints(),
        &heights(),
        &[0.0; 257],
        &words,
        0,
    );
    print::line_with_skipped(rt, label, answer, &output)
}
