// Draws of a key by lent tables: signed, of one modulus, and of two. A request is the numbers of a line: the length of a signed or an encoded output and the
// modulus of the latter; the length of a CRT output, its coefficients and its two moduli; words, and the place.
use crate::print;
use crate::room::{coefficients_room, residues_room};
use primus_distr::{SecretKeyDistr, SecretKeySampler};
use std::io;

// Draws signed coefficients, and residues of one modulus.
pub(crate) fn draw_coefficients(
    rt: &impl Print,
    standard_deviation: f64,
    request: &[u64; 64],
    endpoints: &[u64],
    heights: &[f64],
    curve: &[f64],
    words: &[u32],
) -> io::Result<()> {
    let n = request[0] as usize;
    let modulus = request[1];
    let place = request[7] as usize;
    if 70000 < n {
        return Ok(());
    }
    let made = SecretKeySampler::try_new(SecretKeyDistr::Gaussian { standard_deviation });
    let sampler = made.sampler;
    let mut coefficients = coefficients_room();
    let mut residues = residues_room();
    let signed = &mut coefficients[0..n];
    let encoded = &mut residues[0..n];
    let answer = sampler.sample_signed_to(signed, &[], endpoints, heights, curve, words, place);
    print::coefficients(rt, answer, signed)?;
    let answer = sampler.sample_encoded_to(
        encoded,
        modulus,
        &[],
        endpoints,
        heights,
        curve,
        words,
        place,
    );
    print::residues(rt, answer, encoded)
}

// Draws residues of two moduli.
pub(crate) fn draw_rows(
    rt: &impl Print,
    standard_deviation: f64,
    request: &[u64; 64],
    endpoints: &[u64],
    heights: &[f64],
    curve: &[f64],
    words: &[u32],
) -> io::Result<()> {
    let length = request[2] as usize;
    let coefficients = request[3] as usize;
    let moduli = [request[4], request[5]];
    let place = request[7] as usize;
    if 70000 < length {
        return Ok(());
    }
    let made = SecretKeySampler::try_new(SecretKeyDistr::Gaussian { standard_deviation });
    let sampler = made.sampler;
    let mut room = residues_room();
    let rows = &mut room[0..length];
    let answer = sampler.sample_crt_to(
        rows,
        coefficients,
        &moduli,
        &[],
        endpoints,
        heights,
        curve,
        words,
        place,
    );
    print::residues(rt, answer, rows)
}
