// Numbers of up to 128 bits in two halves: high * 2^64 + low.
ghost use Rattle.std.specs.Prelude.{◌≡◌, ◌+◌, ◌-◌, ◌*◌, ◌^◌, ◌<◌, ◌≤◌, nat_lt, unsigned_abs};
ghost use Rattle.std.proofs.Math.IntN.{sub_ℕ};
ghost use Rattle.stats.specs.Sums.{value_of};

#[derive(Clone, Copy, Debug, PartialEq, Eq)]
pub(crate) struct Halves {
    pub high: u64,
    pub low: u64,
}

// A sum of two numbers below 2^124: the low halves wrap, and what wrapped is carried.
pub(crate) fn add(x: Halves, y: Halves) -> Halves
    requires { (x.high < 2 ^ 60) × (y.high < 2 ^ 60) }
    ensures { value_of result ≡ value_of x + value_of y }
{
    let low = std::num::wrapping_add_u64(x.low, y.low);
    let carry = (low < x.low) as u64;
    Halves {
        high: x.high + y.high + carry,
        low,
    }
}

// Whether x is below y.
pub(crate) fn is_below(x: Halves, y: Halves) -> bool
    ensures { result ≡ nat_lt (value_of x) (value_of y) }
{
    (x.high < y.high) | ((x.high == y.high) & (x.low < y.low))
}

// x less y, where y is not above x: the low halves wrap, and what wrapped is borrowed.
fn subtract(x: Halves, y: Halves) -> Halves
    requires { value_of y ≤ value_of x }
    ensures { value_of result ≡ value_of x - value_of y }
{
    let low = std::num::wrapping_sub_u64(x.low, y.low);
    let borrow = (x.low < y.low) as u64;
    Halves {
        high: x.high - y.high - borrow,
        low,
    }
}

// How far x and y are apart.
pub(crate) fn difference(x: Halves, y: Halves) -> Halves
    ensures { value_of result ≡ unsigned_abs (sub_ℕ (value_of x) (value_of y)) }
{
    if is_below(x, y) {
        return subtract(y, x);
    }
    subtract(x, y)
}

// x * factor, where `rest` is what factor lacks to 2^64: the upper bits of x are the high half.
pub(crate) fn scaled(x: u64, factor: u64, rest: u64) -> Halves
    requires { factor * rest ≡ 2 ^ 64 }
    ensures { value_of result ≡ x * factor }
{
    Halves {
        high: x / rest,
        low: x % rest * factor,
    }
}
