// Reading one number: a token of decimal digits.
ghost use Rattle.std.specs.Prelude.{◌≡◌};
ghost use Rattle.residue_text.specs.Numbers.{number_of};

// The largest number of 64 bits.
pub const ALL: u64 = u64::MAX;

// Reads a token, digit by digit: its value, where it is a number of at most so much. A value that leaves 64 bits exceeds `most` whatever digits follow.
pub(crate) fn read_number(token: &[u8], most: u64) -> Option<u64>
    ensures { result ≡ number_of most token.now }
{
    let mut value: u64 = 0;
    for byte in token {
        if !byte.is_ascii_digit() {
            return None;
        }
        let digit = u64::from(*byte - b'0');
        if (ALL - digit) / 10 < value {
            return None;
        }
        value = value * 10 + digit;
    }
    if most < value {
        return None;
    }
    Some(value)
}
