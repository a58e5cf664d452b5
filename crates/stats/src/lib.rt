// An inner crate of the library primus_distr: a report over residues (02 [2]), the exact sums and counts beside the f64 figures of the Rust's
// `gaussian_stats`.
#![tactic(auto)]

mod counting;
mod sums;
mod wide;

ghost use Rattle.std.specs.Prelude.{◌≡◌};
ghost use Rattle.std.proofs.Math.IntN.{sub_ℕ};
ghost use Rattle.distr.specs.Refusals.{number, number_of};
ghost use Rattle.stats.specs.Report.{report_number, exact_report, refused_report, report};
ghost use Rattle.stats.specs.Sums.{value_of};

use distr::limits::{MAX_EXACT_F64_INTEGER, MAX_OUTPUT};
use distr::refusal::Refusal;
use sums::Totals;

// A report: its number (0 is success), and the two sums in halves of 64 bits. The sum of the centered values is
// (-1)^negative * (sum_high * 2^64 + sum_low), that of their squares squares_high * 2^64 + squares_low.
#[derive(Clone, Copy, Debug, PartialEq, Eq)]
pub struct Report {
    pub number: u32,
    pub negative: bool,
    pub sum_high: u64,
    pub sum_low: u64,
    pub squares_high: u64,
    pub squares_low: u64,
}

// A refused report: its number, and zero sums.
fn refused(why: Refusal) -> Report
    ensures { result ≡ refused_report (number why) }
{
    Report {
        number: why.number(),
        negative: false,
        sum_high: 0,
        sum_low: 0,
        squares_high: 0,
        squares_low: 0,
    }
}

// What refuses a report: 6, 24, 25, then 26.
#[tactic(auto, unfolding(crate::specs::Report::report_number, distr::specs::Numbers::first_of))]
fn check_report(
    residues: &[u64],
    modulus: u64,
    limit_count: usize,
    count_length: usize,
) -> Result<(), Refusal>
    ensures { number_of result ≡ report_number residues.now modulus limit_count count_length }
{
    if MAX_OUTPUT < residues.len() {
        return Err(Refusal::OutputTooLong);
    }
    if (modulus == 0) | (MAX_EXACT_F64_INTEGER < modulus) {
        return Err(Refusal::ModulusOutOfRange);
    }
    if count_length != limit_count {
        return Err(Refusal::CountsLengthMismatch);
    }
    if !sums::all_below(residues, modulus) {
        return Err(Refusal::ResidueNotCanonical);
    }
    Ok(())
}

// The report of sums. The centered values' sum is the residues' less the modulus for each negative one, whichever of the two is larger.
fn exact(totals: Totals) -> Report
    ensures { result ≡ exact_report (sub_ℕ (value_of totals.residues) (value_of totals.moduli)) (value_of totals.squares) }
{
    let residues = totals.residues;
    let moduli = totals.moduli;
    let squares = totals.squares;
    let negative = wide::is_below(residues, moduli);
    let sum = wide::difference(residues, moduli);
    Report {
        number: 0,
        negative,
        sum_high: sum.high,
        sum_low: sum.low,
        squares_high: squares.high,
        squares_low: squares.low,
    }
}

// A report over residues of a modulus: the exact sums of their centered values and of the squares of these, and in `counts` for each limit how many
// magnitudes do not exceed it. Every residue is judged before the first count is written.
pub fn residue_report(residues: &[u64], modulus: u64, limits: &[u64], counts: &mut [u64]) -> Report
    ensures { (result, counts.new) ≡ report residues.now modulus limits.now counts.old }
{
    if let Err(why) = check_report(residues, modulus, limits.len(), counts.len()) {
        return refused(why);
    }
    counting::count_limits(residues, modulus, limits, counts);
    exact(sums::sum_residues(residues, modulus))
}
