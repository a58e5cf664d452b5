// Which list of refused layer tables is wrong, and where. These loops leave at the first wrong entry.
ghost use Rattle.std.specs.Prelude.{◌≡◌, length};
ghost use Rattle.distr.specs.Constants.{literal};
ghost use Rattle.distr.specs.FirstWrong.{endpoints_asked, heights_asked, curve_asked, first_wrong, right_sizes};
ghost use Rattle.layer_tables.specs.Fault.{wrong_at};
ghost use Rattle.layer_tables.specs.Lent.{lent_tables};

use crate::LayerTables;

// Whether the lists are as long as they must be: an endpoint and a height more than layers, of which there are 128, 256 or 512, and a curve value for
// each magnitude.
pub fn sizes_ok(maximum_magnitude: u64, tables: LayerTables) -> bool
    ensures { result ≡ right_sizes maximum_magnitude (lent_tables tables.entry) }
{
    let n = tables.endpoints.len();
    let values = tables.curve.len();
    if n == 0 || values == 0 {
        return false;
    }
    let layers = n - 1;
    ((layers == 128) | (layers == 256) | (layers == 512))
        & (tables.heights.len() == n)
        & ((values - 1) as u64 == maximum_magnitude)
}

// The first wrong endpoint: the first is 0, none is below the one before it and the last is the largest magnitude. Of a pair out of order the later
// is wrong.
pub fn first_wrong_endpoint(maximum_magnitude: u64, endpoints: &[u64]) -> Option<usize>
    ensures { result ≡ wrong_at (length endpoints.now) (first_wrong (endpoints_asked maximum_magnitude) 0 endpoints.now) }
{
    let n = endpoints.len();
    for i in 0..n {
        let before = i.saturating_sub(1);
        let x = endpoints[i];
        let starts = (i != 0) | (x == 0);
        let rises = (i == 0) | (endpoints[before] <= x);
        let ends = (i + 1 != n) | (x == maximum_magnitude);
        if !(starts & rises & ends) {
            return Some(i);
        }
    }
    None
}

// The first wrong height: each is finite, the first is above 0.999, each other below the one before it, and the last is 0.
pub fn first_wrong_height(heights: &[f64]) -> Option<usize>
    ensures { result ≡ wrong_at (length heights.now) (first_wrong heights_asked (literal 0 1) heights.now) }
{
    let n = heights.len();
    for i in 0..n {
        let before = i.saturating_sub(1);
        let x = heights[i];
        let starts = (i != 0) | (0.999 < x);
        let falls = (i == 0) | (x < heights[before]);
        let ends = (i + 1 != n) | (x == 0.0);
        if !(probability::is_finite(x) & starts & falls & ends) {
            return Some(i);
        }
    }
    None
}

// The first wrong curve value: each is in 0..1, both ends in.
pub fn first_wrong_value(curve: &[f64]) -> Option<usize>
    ensures { result ≡ wrong_at (length curve.now) (first_wrong curve_asked (literal 0 1) curve.now) }
{
    curve.iter().position(|x| !((0.0 <= *x) & (*x <= 1.0)))
}
