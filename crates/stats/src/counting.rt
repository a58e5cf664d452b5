// How many magnitudes do not exceed a limit.
ghost use Rattle.std.specs.Prelude.{◌≡◌, ◌≤◌, true, map, length};
ghost use Rattle.distr.specs.Constants.{output_limit, report_modulus_limit};
ghost use Rattle.stats.specs.Centered.{all_below, centered_all, how_many_within};

use crate::sums::at_most;

// How many magnitudes do not exceed one limit. None exceeds half the modulus. A lower limit is met by the residues up to it and by those from the modulus
// less the limit on, and by none twice.
fn count_within(residues: &[u64], modulus: u64, limit: u64) -> u64
    requires { (length residues.now ≤ output_limit) × (modulus ≤ report_modulus_limit) × (all_below modulus residues.now ≡ true) }
    ensures { result ≡ how_many_within limit (centered_all modulus residues.now) }
{
    if modulus / 2 <= limit {
        return residues.len() as u64;
    }
    let top = modulus - limit;
    let mut count: u64 = 0;
    for residue in residues {
        count += at_most(*residue, limit) + at_most(top, *residue);
    }
    count
}

// The count of each limit.
pub(crate) fn count_limits(residues: &[u64], modulus: u64, limits: &[u64], counts: &mut [u64])
    requires { (length residues.now ≤ output_limit) × (modulus ≤ report_modulus_limit) × (all_below modulus residues.now ≡ true)
        × (length counts.old ≡ length limits.now) }
    ensures { counts.new ≡ map (λ limit. how_many_within limit (centered_all modulus residues.now)) limits.now }
{
    for i in 0..limits.len() {
        counts[i] = count_within(residues, modulus, limits[i]);
    }
}
