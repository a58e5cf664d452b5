// Signed output: an i64 holds a coefficient as it is.
ghost use Rattle.std.specs.Prelude.{◌≡◌, refl};
ghost use Rattle.output.specs.Signed.{natural, held_one, held, held_sign};
ghost use lib.Dec.{lit≤};
ghost use Rattle.std.proofs.Common.{sym};
ghost use borrow.Author.Tests.{lt-ltb};
ghost use Rattle.distr.proofs.Writing.{map_id};

use crate::Output;

// -1 is held as it is.
#[derive(Clone, Copy)]
pub struct Signed {}

impl Output for i64 {
    type Encoding = Signed;

    ghost natural = { natural };

    ghost held_one = { held_one };

    ghost held = { held };

    ghost held_sign = { held_sign };

    fn natural(value: u64) -> i64 {
        (value % 0x8000_0000_0000_0000) as i64
    }

    fn minus_one(_encoding: Signed) -> i64 {
        -1
    }

    // A magnitude above 2^63 - 1, which no distribution has, gives 0.
    fn coefficient(_encoding: Signed, positive: bool, magnitude: u64) -> i64 {
        if 0x7fff_ffff_ffff_ffff < magnitude {
            return 0;
        }
        let value = magnitude as i64;
        if positive { value } else { -value }
    }

    fn difference(_encoding: Signed, first: u32, second: u32) -> i64 {
        first as i64 - second as i64
    }

    ghost natural_held = { λ encoding n. refl };

    ghost held_each = { λ encoding cs. sym (map_id cs) };

    ghost sign_held = { λ encoding positive m below. rw (lt-ltb m _ below) refl };

    ghost small = { lit≤ tt };
}
