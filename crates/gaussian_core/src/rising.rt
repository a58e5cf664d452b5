// The test of a lent table of numbers that never falls: a Gaussian's cumulative bounds, or the endpoints of its layers.
ghost use Rattle.std.specs.Prelude.{◌≡◌};
ghost use Rattle.distr.specs.Gaussian.{rising};

// Whether a table has so many numbers, from 0 to the last, and never falls. Once the length is right all of them are judged, without leaving early.
#[tactic(auto, using(crate::proofs::Tables::judged_first, crate::proofs::Tables::judged_more))]
pub fn rising_ok(count: usize, last: u64, bounds: &[u64]) -> bool
    ensures { result ≡ rising count last bounds.now }
{
    let n = bounds.len();
    if n != count || n == 0 {
        return false;
    }
    let mut ok = (bounds[0] == 0) & (bounds[n - 1] == last);
    for i in 1..n {
        ok &= bounds[i - 1] <= bounds[i];
    }
    ok
}
