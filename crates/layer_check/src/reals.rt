// Reading a line of reals, each given by the 16 hexadecimal digits of its bits.
use float_bits::f64_of_bits;
use residue_text::numbers::Numbers;

// A line as far as it is read: how many reals, and of the next one the digits so far and their value. `more` says that it is none or has no room.
#[derive(Clone, Copy)]
struct Reals {
    count: usize,
    size: usize,
    bits: u64,
    more: bool,
}

// The value of a digit, upper or lower case; 16 for a byte that is none.
fn digit_of(byte: u8) -> u8 {
    let decimal = byte.wrapping_sub(b'0');
    if decimal < 10 {
        return decimal;
    }
    let letter = (byte | 32).wrapping_sub(b'a');
    if letter < 6 {
        return letter + 10;
    }
    16
}

// The line after a byte that is no space. Of more than 16 digits the first are lost; such a real is refused by its size.
fn with_digit(line: Reals, byte: u8) -> Reals {
    let digit = digit_of(byte);
    let bits = line.bits % 0x1000_0000_0000_0000;
    Reals {
        count: line.count,
        size: line.size.wrapping_add(1),
        bits: bits * 16 + (digit % 16) as u64,
        more: 15 < digit,
    }
}

// The line after a space, which ends a real. Between two spaces there is none.
fn with_space(line: Reals, room: &mut [f64]) -> Reals {
    let count = line.count;
    if line.size == 0 {
        return line;
    }
    if line.size == 16 {
        if count < room.len() {
            room[count] = f64_of_bits(line.bits);
            return Reals {
                count: count + 1,
                size: 0,
                bits: 0,
                more: false,
            };
        }
    }
    Reals {
        count,
        size: 0,
        bits: 0,
        more: true,
    }
}

// The line after a byte more.
fn with_byte(line: Reals, byte: u8, room: &mut [f64]) -> Reals {
    if (byte == b' ') | (byte == b'\t') | (byte == b'\r') | (byte == b'\n') {
        return with_space(line, room);
    }
    with_digit(line, byte)
}

// Reads reals into a room, up to the first that is none or that there is no room for: how many, and whether one is left over.
pub(crate) fn read_reals(line: &[u8], room: &mut [f64]) -> Numbers {
    let mut read = Reals {
        count: 0,
        size: 0,
        bits: 0,
        more: false,
    };
    for byte in line {
        if read.more {
            return Numbers {
                count: read.count,
                more: true,
            };
        }
        read = with_byte(read, *byte, room);
    }
    let last = with_space(read, room);
    Numbers {
        count: last.count,
        more: read.more | last.more,
    }
}
