// Reading a whole number in decimal.
ghost use Rattle.std.specs.Prelude.{◌≤◌};

// The largest number of 64 bits.
pub(crate) const MOST_64: u64 = 0xffff_ffff_ffff_ffff;

// Whether a text is a number of at most so much, and its value: 0 where it is none.
#[derive(Clone, Copy)]
pub(crate) struct Number {
    pub good: bool,
    pub value: u64,
}

// What is said of a text that is no number.
fn none() -> Number
    ensures { result.value ≤ 0 }
{
    Number {
        good: false,
        value: 0,
    }
}

// A byte as a number of 64 bits.
fn wide(byte: u8) -> u64 {
    byte as u64
}

// Reads digits, one after the other. A value that leaves 64 bits exceeds `most` whatever digits follow.
fn read_digits(text: &[u8], most: u64) -> Number
    ensures { result.value ≤ most }
{
    let mut value: u64 = 0;
    for byte in text {
        let digit = wide(std::num::wrapping_sub_u8(*byte, b'0'));
        if 9 < digit {
            return none();
        }
        if (MOST_64 - digit) / 10 < value {
            return none();
        }
        value = value * 10 + digit;
    }
    if most < value {
        return none();
    }
    Number { good: true, value }
}

// Reads a number of at most `most`: one digit or more, and no 0 before another digit.
pub(crate) fn read_number(text: &[u8], most: u64) -> Number
    ensures { result.value ≤ most }
{
    let size = text.len();
    if size == 0 {
        return none();
    }
    if 1 < size {
        if text[0] == b'0' {
            return none();
        }
    }
    read_digits(text, most)
}
