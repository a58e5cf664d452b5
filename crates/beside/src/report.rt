// The call that reports over residues (02 [2]).
ghost use Rattle.std.specs.Prelude.{◌≡◌};
ghost use Rattle.stats.specs.Report.{report};
ghost use Rattle.beside.specs.Calls.{report_of};

use stats::residue_report;

// A report: its number is handed back, its sign and the halves of its sums are written through the references, zeros where it is refused.
pub fn beside_report(
    residues: &[u64],
    modulus: u64,
    limits: &[u64],
    counts: &mut [u64],
    negative: &mut bool,
    sum_high: &mut u64,
    sum_low: &mut u64,
    squares_high: &mut u64,
    squares_low: &mut u64,
) -> u32
    ensures { (
      report_of result negative.new sum_high.new sum_low.new
          squares_high.new squares_low.new,
      counts.new,
    )
        ≡ report residues.now modulus limits.now counts.old }
{
    let answer = residue_report(residues, modulus, limits, counts);
    *negative = answer.negative;
    *sum_high = answer.sum_high;
    *sum_low = answer.sum_low;
    *squares_high = answer.squares_high;
    *squares_low = answer.squares_low;
    answer.number
}
