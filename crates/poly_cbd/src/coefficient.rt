// One coefficient of the byte form: its 2 * eta bits, the two sums of them, and their difference modulo q.
ghost use Rattle.std.specs.Prelude.{◌≡◌, ◌≤◌, ◌<◌, length};
ghost use Rattle.distr.specs.Constants.{cbd_coefficients};
ghost use Rattle.distr.specs.SamplePolyCbd.{coefficient_of};
ghost use Rattle.poly_cbd.specs.Coefficient.{GoodBytes, HoldsBits, both_sums};

// The standard's q.
const Q: u64 = 3329;

// The bits of coefficient i from the lowest up. They stand in one byte or in two that follow each other: that of the first bit and that of the last.
fn bits_at(bytes: &[u8], eta: u32, i: usize) -> u32
    requires { GoodBytes eta (length bytes.now) × (i < cbd_coefficients) }
    ensures { HoldsBits eta bytes.now i result }
{
    let width = 2 * eta as usize;
    let first = width * i;
    let last = first + (width - 1);
    let low = bytes[first / 8] as u32;
    let high = bytes[last / 8] as u32;
    (low + high * 256) >> (first % 8) as u32
}

// Both sums of a coefficient's bits in one number, y above the low eta bits and x in them: a turn adds a bit of each.
fn both_sums(bits: u32, eta: u32) -> u32
    requires { eta ≤ 3 }
    ensures { result ≡ both_sums eta bits }
{
    let ends = (1 << eta) + 1;
    let mut sums = 0;
    for j in 0..eta {
        sums += (bits >> j) & ends;
    }
    sums
}

// Coefficient i: x - y modulo q.
pub(crate) fn coefficient(bytes: &[u8], eta: u32, i: usize) -> u64
    requires { GoodBytes eta (length bytes.now) × (i < cbd_coefficients) }
    ensures { result ≡ coefficient_of eta bytes.now i }
{
    let sums = both_sums(bits_at(bytes, eta, i), eta);
    let x = (sums & ((1 << eta) - 1)) as u64;
    let y = (sums >> eta) as u64;
    if x < y { Q + x - y } else { x - y }
}
