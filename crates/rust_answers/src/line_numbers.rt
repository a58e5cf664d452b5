// The numbers of a line, and the room where lines are kept: 10,000 numbers for each of the four tables and for the line of an answer.
// The last of the 10,000 says how many numbers the line has.

// Where the numbers of each begin.
pub(crate) const BOUNDS: usize = 0;

pub(crate) const ENDPOINTS: usize = 10000;

pub(crate) const HEIGHTS: usize = 20000;

pub(crate) const CURVE: usize = 30000;

pub(crate) const ANSWER: usize = 40000;

// The index, among the 10,000, of the number that says how many there are.
pub(crate) const LAST: usize = 9999;

// Where a line is kept, by its first number.
pub(crate) fn begin_of(tag: u64) -> usize {
    match tag {
        5 => BOUNDS,
        6 => ENDPOINTS,
        7 => HEIGHTS,
        8 => CURVE,
        _ => ANSWER,
    }
}

// Puts a number at an index of a line that is kept, where it has room.
pub(crate) fn put(room: &mut [u64], begin: usize, i: usize, value: u64) {
    let at = std::num::wrapping_add_usize(begin, i);
    if LAST < i {
        return;
    }
    if at < room.len() {
        room[at] = value;
    }
}

// The number at an index, or 0 past the end.
pub(crate) fn value_at(values: &[u64], i: usize) -> u64 {
    if i < values.len() { values[i] } else { 0 }
}

// A number of a line as a length, a place or a count.
pub(crate) fn size_at(values: &[u64], i: usize) -> usize {
    value_at(values, i) as usize
}

// The numbers from an index up to another; none where these are out of range.
pub(crate) fn part(values: &[u64], from: usize, to: usize) -> &[u64] {
    if to < from {
        return &values[0..0];
    }
    if values.len() < to {
        return &values[0..0];
    }
    &values[from..to]
}

// The numbers of a line that is kept.
pub(crate) fn kept(room: &[u64], begin: usize) -> &[u64] {
    let region = part(room, begin, room.len());
    part(region, 0, size_at(region, LAST))
}

// The numbers of a line from an index on.
pub(crate) fn rest(values: &[u64], from: usize) -> &[u64] {
    part(values, from, values.len())
}

// The numbers of a table that is kept, after its first number and its count.
pub(crate) fn entries(room: &[u64], begin: usize) -> &[u64] {
    rest(kept(room, begin), 2)
}
