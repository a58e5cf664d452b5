// The room for figures: 8,192 whole numbers, reals by their bits. The parameters stand from 1 on, the endpoints from 1,000, the heights from 2,000 and the
// curve values from 3,000.
use float_bits::f64_of_bits;

pub(crate) const PARAMETERS: usize = 1;

pub(crate) const ENDPOINTS: usize = 1000;

pub(crate) const HEIGHTS: usize = 2000;

pub(crate) const CURVE: usize = 3000;

// Makes the changes of a case, which stand in its line from the number 11 on, each a place in the room and the figure to be put there. Past the end of
// the line all is 0, and a 0 is put at place 0, which nothing uses.
pub(crate) fn change_all(numbers: &[u64; 64], figures: &mut [u64; 8192]) {
    for i in 0..26 {
        let at = (numbers[11 + 2 * i] % 8192) as usize;
        figures[at] = numbers[12 + 2 * i];
    }
}

// The reals whose bits the figures are.
pub(crate) fn fill_reals(figures: &[u64; 8192], reals: &mut [f64; 8192]) {
    for i in 0..8192 {
        reals[i] = f64_of_bits(figures[i]);
    }
}

// So many figures from a place on; none where there are not so many.
pub(crate) fn part(figures: &[u64; 8192], from: usize, count: usize) -> &[u64] {
    let all = &figures[..];
    if 8192 < from {
        return &all[0..0];
    }
    if 8192 - from < count {
        return &all[0..0];
    }
    &all[from..from + count]
}

// So many reals from a place on.
pub(crate) fn reals_part(reals: &[f64; 8192], from: usize, count: usize) -> &[f64] {
    let all = &reals[..];
    if 8192 < from {
        return &all[0..0];
    }
    if 8192 - from < count {
        return &all[0..0];
    }
    &all[from..from + count]
}
