// Reading a line byte by byte: whole numbers in decimal with one space between.

// The most numbers that a line has.
pub(crate) const NUMBERS: usize = 1024;

// A line as far as it is read: how many of its numbers are there; of the next one the value so far, and whether it has a digit; and whether all is
// well formed.
#[derive(Clone, Copy)]
pub(crate) struct Line {
    pub count: usize,
    pub value: u64,
    pub digits: bool,
    pub good: bool,
}

// A line of which no byte is read.
pub(crate) fn unread() -> Line {
    Line {
        count: 0,
        value: 0,
        digits: false,
        good: true,
    }
}

// A digit more: none follows a 0 at the front, nor a number of more than 32 bits. No other byte is allowed.
pub(crate) fn with_byte(line: Line, byte: u8) -> Line {
    let mut next = line;
    let digit = std::num::wrapping_sub_u8(byte, b'0');
    next.good = line.good & (digit < 10) & !(line.digits & (line.value == 0));
    next.digits = true;
    if 0xffff_ffff < line.value {
        next.good = false;
        return next;
    }
    next.value = line.value * 10 + digit as u64;
    next
}

// Puts a number that has ended, which has a digit, among those of its line.
pub(crate) fn end_number(line: Line, numbers: &mut [u64; NUMBERS]) -> Line {
    let mut next = unread();
    let count = line.count;
    if NUMBERS <= count {
        next.good = false;
        return next;
    }
    numbers[count] = line.value;
    next.count = count + 1;
    next.good = line.good & line.digits;
    next
}
