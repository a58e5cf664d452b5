// An inner crate: the decimal text of a number of 128 bits, given as two halves of 64.
#![tactic(auto)]

ghost use Rattle.std.specs.Prelude.{◌≡◌, ◌+◌, ◌*◌, ◌/◌, ◌%◌, ◌^◌, ◌≤◌, length};
ghost use Rattle.decimal.specs.Decimal.{decimal, at_front, Counts};

// A piece is half of a half.
const PIECE: u64 = 0x1_0000_0000;

// What a division by ten gives: the halves of the quotient, and the digit that is left.
#[derive(Clone, Copy, Debug, PartialEq, Eq)]
struct Quotient {
    high: u64,
    low: u64,
    digit: u8,
}

// Divides by ten, from the highest piece down: what a division leaves stands before the next piece.
fn tenth(high: u64, low: u64) -> Quotient
    ensures low_value { result.high * 2 ^ 64 + result.low ≡ (high * 2 ^ 64 + low) / 10 }
    ensures digit_value { result.digit ≡ (high * 2 ^ 64 + low) % 10 }
{
    let upper = high % 10 * PIECE + low / PIECE;
    let lower = upper % 10 * PIECE + low % PIECE;
    Quotient {
        high: high / 10,
        low: upper / 10 * PIECE + lower / 10,
        digit: (lower % 10) as u8,
    }
}

// Puts the decimal digits at the start of `text`, and hands back how many there are: those of the number before the last digit, then the last.
fn write_digits(high: u64, low: u64, text: &mut [u8]) -> usize
    requires { length (decimal (high * 2 ^ 64 + low)) ≤ length text.old }
    ensures { (result, text.new) ≡ at_front (decimal (high * 2 ^ 64 + low)) text.old }
{
    if high == 0 && low < 10 {
        text[0] = b'0' + low as u8;
        return 1;
    }
    let before = tenth(high, low);
    let end = write_digits(before.high, before.low, text);
    text[end] = b'0' + before.digit;
    end + 1
}

// Puts the decimal digits of high * 2^64 + low at the start of `digits`, and hands back how many there are. (39 digits hold any 128 bits.)
pub fn write_halves(high: u64, low: u64, digits: &mut [u8; 39]) -> usize
    ensures digits_after { (result, digits.new) ≡ at_front (decimal (high * 2 ^ 64 + low)) digits.old }
    ensures counts { Counts result digits.new }
{
    write_digits(high, low, digits)
}
