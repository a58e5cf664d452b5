// The f64 that two numbers m, e of a line stand for: m × 2^e.
use crate::line_numbers::value_at;
use crate::reading::SIGN;

// A number without its sign.
fn magnitude(x: u64) -> u64 {
    if SIGN < x {
        return 0xffff_ffff_ffff_ffff - x + 1;
    }
    x % SIGN
}

// Whether m and e are those of an f64: an m that an f64 holds, and no more steps than lead to the least of them.
pub(crate) fn is_real(m: u64, e: u64) -> bool {
    (magnitude(m) < 0x20_0000_0000_0000) & (magnitude(e) <= 1074)
}

// An f64 multiplied so many times by a factor.
fn scaled(x: f64, factor: f64, times: u64) -> f64 {
    let mut y = x;
    for _ in 0..times {
        y = y * factor;
    }
    y
}

// The f64 of m and e. `0 1` is not a number, and neither is what no f64 is.
pub(crate) fn real(m: u64, e: u64) -> f64 {
    let size = magnitude(m);
    let times = magnitude(e);
    if !is_real(m, e) | ((size == 0) & (times != 0)) {
        return 0.0 / 0.0;
    }
    let factor = if e < SIGN { 2.0 } else { 0.5 };
    let scaled = scaled(std::num::nearest_u64_to_f64(size), factor, times);
    if m < SIGN { scaled } else { -scaled }
}

// Fills a room with the reals of a table, which begin at index 2 of its line; past its end these are 0. Hands back whether each is one.
pub(crate) fn fill_reals(values: &[u64], room: &mut [f64; 5000]) -> bool {
    let mut good = true;
    for i in 0..5000 {
        let m = value_at(values, 2 * i + 2);
        let e = value_at(values, 2 * i + 3);
        good = good & is_real(m, e);
        room[i] = real(m, e);
    }
    good
}

// So many of the reals; none where there are not so many.
pub(crate) fn reals_part(room: &[f64; 5000], count: usize) -> &[f64] {
    let reals = &room[..];
    if 5000 < count {
        return &reals[0..0];
    }
    &reals[0..count]
}
