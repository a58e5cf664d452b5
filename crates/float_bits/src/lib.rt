// An f64 by its bits, as a dump has it.
#![tactic(auto)]

ghost use Rattle.std.specs.Prelude.{◌≡◌};
ghost use Rattle.std.specs.Float.Ieee.{of_bits};
ghost use Rattle.std.specs.Float.{binary64};

use std::num::f64_from_bits_with_nan;

// The f64 of a pattern of 64 bits. Every pattern of a NaN gives a NaN: `f64::from_bits` is not defined there.
pub fn f64_of_bits(bits: u64) -> f64
    ensures { result ≡ of_bits binary64 bits }
{
    f64_from_bits_with_nan(bits)
}
