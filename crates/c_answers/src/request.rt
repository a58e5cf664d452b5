// The request of a line, and whether its answer is the stored one: eta, the byte count, the bytes, the output length, the number and, where that is 0,
// the coefficients.
ghost use Rattle.std.specs.Prelude.{◌≡◌, length};

use crate::compare::{HELD, agrees, value_at};
use distr::refusal::number_of;
use poly_cbd::sample_poly_cbd;

// The most bytes, and the longest output, that a line may ask for.
const ROOM: u64 = 512;

fn bytes_room() -> [u8; 512]
    ensures { 512 ≡ length result }
{
    [0; 512]
}

// An output before the call.
fn output_room() -> [u64; 512]
    ensures { 512 ≡ length result }
{
    [HELD; 512]
}

// The numbers of a line from an index on; none past its end.
fn rest(values: &[u64], from: usize) -> &[u64] {
    if values.len() < from {
        return &values[0..0];
    }
    &values[from..]
}

// Fills the bytes from the numbers of a line, with zeros past its end. Hands back whether each is a byte.
fn fill_bytes(bytes: &mut [u8], values: &[u64]) -> bool {
    let mut good = true;
    for i in 0..bytes.len() {
        let value = value_at(values, i);
        good = good & (value < 256);
        bytes[i] = (value % 256) as u8;
    }
    good
}

// Whether the call answers what is stored from the output length on.
fn is_sampled(eta: u32, bytes: &[u8], stored: &[u64]) -> bool {
    let n = value_at(stored, 0);
    if ROOM < n {
        return false;
    }
    let length = n as usize;
    let mut room = output_room();
    let output = &mut room[0..length];
    let number = number_of(sample_poly_cbd(output, eta, bytes));
    agrees(rest(stored, 1), number, output)
}

// Whether a line is a request with its answer. In one that ends too soon no number is left to agree with.
pub(crate) fn is_answered(values: &[u64]) -> bool {
    let eta = value_at(values, 0);
    let count = value_at(values, 1);
    if 0xffff_ffff < eta {
        return false;
    }
    if ROOM < count {
        return false;
    }
    let end = count as usize;
    let mut room = bytes_room();
    let bytes = &mut room[0..end];
    let good = fill_bytes(bytes, rest(values, 2));
    good & is_sampled(eta as u32, bytes, rest(values, 2 + end))
}
