// Reading a line byte by byte. README.md states the format. A number −m is put into the room as 2^64 − m, and −0, which only a real has,
// as 2^63.
use crate::line_numbers::{LAST, begin_of, put, value_at};

// 2^63: numbers from here on have a minus sign, where one is allowed.
pub(crate) const SIGN: u64 = 0x8000_0000_0000_0000;

// A line as far as it is read: where it is kept and how many of its numbers are there; of the next number the digits so far, whether
// it has a minus sign, and whether it has a digit; and whether all is well formed.
#[derive(Clone, Copy)]
pub(crate) struct Line {
    pub begin: usize,
    pub count: usize,
    pub value: u64,
    pub minus: bool,
    pub digits: bool,
    pub good: bool,
}

// A line of which no byte is read.
pub(crate) fn unread() -> Line {
    Line {
        begin: 0,
        count: 0,
        value: 0,
        minus: false,
        digits: false,
        good: true,
    }
}

// Whether no byte of a line is read.
pub(crate) fn is_unread(line: Line) -> bool {
    (line.count == 0) & !line.minus & !line.digits & line.good
}

// Whether the number at an index of a line may have a minus sign: m and e of a real, and what follows n in a line of signed
// coefficients.
fn may_be_negative(tag: u64, index: usize) -> bool {
    ((tag < 5) & (3 < index) & (index < 8)) | ((tag == 2) & (8 < index)) | ((6 < tag) & (1 < index))
}

// A digit more. A number has 64 bits at most.
fn with_digit(line: Line, digit: u64) -> Line {
    let mut next = line;
    next.digits = true;
    if (0xffff_ffff_ffff_ffff - digit) / 10 < line.value {
        next.good = false;
        return next;
    }
    next.value = line.value * 10 + digit;
    next
}

// A minus sign more, which stands once, before the digits. No other byte is allowed.
fn with_sign(line: Line, byte: u8) -> Line {
    let mut next = line;
    next.minus = true;
    next.good = line.good & (byte == b'-') & !line.minus & !line.digits;
    next
}

// A byte of a number more.
pub(crate) fn with_byte(line: Line, byte: u8) -> Line {
    if byte < b'0' {
        return with_sign(line, byte);
    }
    if b'9' < byte {
        return with_sign(line, byte);
    }
    with_digit(line, (byte - b'0') as u64)
}

// The number of a magnitude and a sign.
fn number_of(magnitude: u64, minus: bool) -> u64 {
    if !minus {
        return magnitude;
    }
    if magnitude == 0 {
        return SIGN;
    }
    std::num::wrapping_sub_u64(0, magnitude)
}

// Where the numbers of a line are kept. Its first number decides that when it ends.
fn begin_after(line: Line) -> usize {
    if line.count == 0 {
        return begin_of(line.value);
    }
    line.begin
}

// How many numbers a line has; none where it is not well formed.
pub(crate) fn count_of(line: Line) -> u64 {
    if line.good { line.count as u64 } else { 0 }
}

// Puts a number that has ended among those of its line. It has a digit; it has no minus sign, or may have one and is below 2^63.
pub(crate) fn end_number(line: Line, room: &mut [u64]) -> Line {
    let begin = begin_after(line);
    let count = line.count;
    put(room, begin, count, number_of(line.value, line.minus));
    let negative = may_be_negative(value_at(room, begin), count);
    let signed = (negative & (line.value < SIGN)) | (!negative & !line.minus);
    Line {
        begin,
        count: std::num::wrapping_add_usize(count, 1),
        value: 0,
        minus: false,
        digits: false,
        good: line.good & line.digits & signed & (count < LAST),
    }
}
