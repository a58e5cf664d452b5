// Output of residues: a u64 holds a coefficient m from 0 on as m, and -m as the modulus less m.
ghost use Rattle.std.specs.Prelude.{◌≡◌, refl};
ghost use Rattle.output.specs.Residues.{natural, held_one, held, held_sign};
ghost use lib.Dec.{lit≤};

use crate::Output;

// -1 is held as the modulus less 1, or as 2^64 - 1 for native residues.
#[derive(Clone, Copy)]
pub struct Residues {
    pub minus_one: u64,
}

impl Output for u64 {
    type Encoding = Residues;

    ghost natural = { natural };

    ghost held_one = { held_one };

    ghost held = { held };

    ghost held_sign = { held_sign };

    fn natural(value: u64) -> u64 {
        value % 0x8000_0000_0000_0000
    }

    fn minus_one(encoding: Residues) -> u64 {
        encoding.minus_one
    }

    // -m is modulus - m, and zero stays 0. Of a magnitude above the modulus less 1, which the numbers refuse by 9, the positive one is handed back as it
    // is, and the negative one gives 0.
    fn coefficient(encoding: Residues, positive: bool, magnitude: u64) -> u64 {
        let minus_one = encoding.minus_one;
        if positive | (magnitude == 0) {
            magnitude
        } else if minus_one < magnitude {
            0
        } else {
            minus_one - magnitude + 1
        }
    }

    // One below what the modulus has, which the numbers refuse by 9, gives 0.
    fn difference(encoding: Residues, first: u32, second: u32) -> u64 {
        let minus_one = encoding.minus_one;
        let upper = first as u64;
        let lower = second as u64;
        if lower <= upper {
            return upper - lower;
        }
        let below = lower - upper - 1;
        if below <= minus_one {
            minus_one - below
        } else {
            0
        }
    }

    ghost natural_held = { λ encoding n. refl };

    ghost held_each = { λ encoding cs. refl };

    ghost sign_held = { λ encoding positive m h. refl };

    ghost small = { lit≤ tt };
}
