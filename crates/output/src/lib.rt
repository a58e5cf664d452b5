// Inner crate of primus_distr: what an output holds. What depends on the type of its elements stands here and nowhere else: the trait says how a
// coefficient is held, `i64` holds it as it is and `u64` as a residue. The loops that store are generic over the trait, and are proved once, from its laws.
#![tactic(auto)]

mod residues;
mod signed;

ghost use Rattle.std.specs.Prelude.{◌≡◌, ℕ, ◌%◌, ◌<◌, ◌^◌, Bool, cond, eqb, List, map, length, replicate, ℤ, pos, negsuc, ◌-ℤ◌};
ghost use Rattle.distr.specs.Answers.{refusal};
ghost use Rattle.distr.specs.Constants.{out_of_words};
ghost use Rattle.distr.specs.Refusals.{number};
ghost use Rattle.distr.specs.Gaussian.{with_sign};
ghost use Rattle.output.specs.Size.{AtMostWord};

use distr::answer::{Answer, refused};
use distr::refusal::Refusal;
pub use residues::Residues;
pub use signed::Signed;

// The type of an output's elements.
pub trait Output: Copy {
    // How -1 is held.
    type Encoding: Copy;

    // What a count from 0 on is held as, whatever the encoding.
    ghost natural: { ℕ → Self };

    // A coefficient, and a list of them, as the output holds them.
    ghost held_one: { Self.Encoding → ℤ → Self };

    ghost held: { Self.Encoding → List ℤ → List Self };

    // A magnitude with its sign, as the output holds it.
    ghost held_sign: { Self.Encoding → Bool → ℕ → Self };

    // A count below 2^63, so that both its signs fit 64 bits; of a larger one, its remainder by 2^63.
    fn natural(value: u64) -> Self
        ensures { result ≡ natural (value % 2 ^ 63) };

    // What stands for -1.
    fn minus_one(encoding: Self::Encoding) -> Self
        ensures { result ≡ held_one encoding (negsuc 0) };

    // A magnitude with its sign.
    fn coefficient(encoding: Self::Encoding, positive: bool, magnitude: u64) -> Self
        ensures { result ≡ held_sign encoding positive magnitude };

    // The difference of two counts.
    fn difference(encoding: Self::Encoding, first: u32, second: u32) -> Self
        ensures { result ≡ held_one encoding (pos first -ℤ pos second) };

    // A coefficient from 0 on is held by its value alone.
    ghost natural_held: { (encoding : Self.Encoding) (n : ℕ) → held_one encoding (pos n) ≡ natural n };

    // A list is held coefficient by coefficient.
    ghost held_each: { (encoding : Self.Encoding) (cs : List ℤ) → held encoding cs ≡ map (held_one encoding) cs };

    // A magnitude below 2^63 with its sign is held as the coefficient that it is.
    ghost sign_held: { (encoding : Self.Encoding) (positive : Bool) (m : ℕ) → m < 2 ^ 63 → held_sign encoding positive m ≡ held_one encoding (with_sign positive m) };

    // An element has eight bytes at most, so that an array of some has a size.
    ghost small: { AtMostWord Self.row };
}

// Every element becomes the value.
pub fn fill<T: Copy>(output: &mut [T], value: T)
    ensures { output.new ≡ replicate (length output.old) value }
{
    for element in output.iter_mut() {
        *element = value;
    }
}

// Writes zeros over the output, which a draw that lacks a word leaves.
pub fn clear<T: Output>(output: &mut [T])
    ensures { output.new ≡ replicate (length output.old) (T.natural 0) }
{
    fill(output, T::natural(0));
}

// Ends a draw that is refused. Where a word is missing the output holds zeros, else it stays as it is.
pub fn refuse<T: Output>(output: &mut [T], why: Refusal, place: usize) -> Answer
    ensures answer { result ≡ refusal (number why) place }
    ensures output_after { output.new ≡ cond (eqb (number why) out_of_words) (replicate (length output.old) (T.natural 0)) output.old }
{
    if why == Refusal::OutOfWords {
        clear(output);
    }
    refused(why, place)
}
