// Inner crate of primus_distr: the cumulative Gaussian draw, by a lent table of bounds and a 64-bit word for each coefficient: what is asked of a
// table, its search, and the draw, generic over the output's type.
#![tactic(auto)]

ghost use Rattle.std.specs.Prelude.{◌≡◌, length, drop};
ghost use Rattle.distr.specs.Answers.{sums, reported};
ghost use Rattle.distr.specs.Draw.{outcome};
ghost use Rattle.distr.specs.Gaussian.{cumulative, cumulative_table};
ghost use Rattle.distr.specs.Refusals.{number_of};
ghost use Rattle.cdt.specs.Drawn.{cumulative_number, cumulative_draw};

use distr::answer::{Answer, succeeded};
use distr::refusal::Refusal;
use gaussian_core::rising::rising_ok;
use numbers::wide_words;
use output::{Output, refuse};

pub mod index;
mod store;

// Whether a table is a cumulative one for magnitudes up to M: M + 2 bounds, first 0, last 2^64 - 1, never falling.
// Where M + 2 does not fit in 64 bits no table is that long.
pub fn cdt_table_ok(maximum_magnitude: u64, bounds: &[u64]) -> bool
    ensures { result ≡ cumulative_table maximum_magnitude bounds.now }
{
    if 0xffff_ffff_ffff_fffd < maximum_magnitude {
        return false;
    }
    rising_ok(
        maximum_magnitude as usize + 2,
        0xffff_ffff_ffff_ffff,
        bounds,
    )
}

// Refuses a table that is no cumulative one: 12.
pub fn check_table(maximum_magnitude: u64, bounds: &[u64]) -> Result<(), Refusal>
    ensures { number_of result ≡ cumulative_number maximum_magnitude bounds.now }
{
    if cdt_table_ok(maximum_magnitude, bounds) {
        Ok(())
    } else {
        Err(Refusal::InvalidCumulativeTable)
    }
}

// Draws coefficients by the table, which is judged first; the encoding says how they are held.
pub fn sample_cdt_to<T: Output>(
    output: &mut [T],
    encoding: T::Encoding,
    maximum_magnitude: u64,
    bounds: &[u64],
    words: &[u32],
    place: usize,
) -> Answer
    ensures output_after { outcome result output.new ≡
        cumulative_draw (T.held encoding) maximum_magnitude bounds.now words.now place output.old }
    ensures result_value { sums result ≡ reported result.number ((cumulative maximum_magnitude bounds.now (length output.old)).skips (drop place words.now)) }
{
    let own = check_table(maximum_magnitude, bounds);
    match wide_words::place_after(own, true, words.len(), place, output.len()) {
        Ok(after) => {
            store::fill(
                output,
                encoding,
                maximum_magnitude as usize,
                bounds,
                words,
                place,
            );
            succeeded(after)
        }
        Err(why) => refuse(output, why, place),
    }
}
