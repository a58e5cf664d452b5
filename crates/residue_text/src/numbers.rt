// Reading the numbers of a text, one token after the other.
ghost use Rattle.std.specs.Prelude.{◌≡◌, ◌≤◌, length};
ghost use Rattle.decimal.specs.Decimal.{front};
ghost use Rattle.residue_text.specs.Numbers.{numbers_in, numbers_read};

use crate::number::read_number;
use crate::scan::{Kind, scan};

// How many numbers were read, and whether a token is left over: one that is no such number, or that there is no room for.
#[derive(Clone, Copy, Debug, PartialEq, Eq)]
pub struct Numbers {
    pub count: usize,
    pub more: bool,
}

// Reads numbers of at most `most` into a room, up to the first token that is none or that there is no room for. The loop is a `while`: its place moves
// by the token that was read.
pub fn read_numbers(text: &[u8], most: u64, numbers: &mut [u64]) -> Numbers
    ensures value { result ≡ numbers_read (numbers_in most text.now numbers.old) text.now }
    ensures numbers_after { numbers.new ≡ front (numbers_in most text.now numbers.old) numbers.old }
    ensures count_in_bounds { result.count ≤ length numbers.old }
{
    let size = text.len();
    let room = numbers.len();
    let mut count = 0;
    let mut at = scan(text, 0, Kind::NoSpace);
    while at < size {
        let end = scan(text, at, Kind::Space);
        let Some(number) = read_number(&text[at..end], most) else {
            return Numbers { count, more: true };
        };
        if count == room {
            return Numbers { count, more: true };
        }
        numbers[count] = number;
        count += 1;
        at = scan(text, end, Kind::NoSpace);
    }
    Numbers { count, more: false }
}
