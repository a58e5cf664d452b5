// Inner crate of primus_distr: the lent tables of the layered Gaussian, judged before a draw (numbers 13, 30, 31 and 32). The loops of this file have
// no way out but their end.
#![tactic(auto)]

ghost use Rattle.std.specs.Prelude.{cond, ◌≡◌, eqb};
ghost use Rattle.distr.specs.Layered.{all_finite, falls, all_in_unit, height_list, curve_list, layer_tables};
ghost use Rattle.distr.specs.Refusals.{number, number_of};
ghost use Rattle.layer_tables.specs.Fault.{layer_fault, told, told_by};
ghost use Rattle.layer_tables.specs.Lent.{lent_tables};

use distr::refusal::{Reason, Refusal};
use first_wrong::{first_wrong_endpoint, first_wrong_height, first_wrong_value, sizes_ok};
use gaussian_core::rising::rising_ok;

mod first_wrong;

// What is wrong with layer tables: why they are refused, by a refusal or by any other reason, and the first wrong index where the reason names a list.
#[derive(Clone, Copy, Debug, PartialEq, Eq)]
pub struct LayerFault<R = Refusal> {
    pub refusal: R,
    pub index: usize,
}

// The three lent tables of a layered draw.
#[derive(Clone, Copy)]
pub struct LayerTables<'a> {
    pub endpoints: &'a [u64],
    pub heights: &'a [f64],
    pub curve: &'a [f64],
}

// Whether each element is a number and no infinity.
fn all_finite(xs: &[f64]) -> bool
    ensures { result ≡ all_finite xs.now }
{
    let mut ok = true;
    for x in xs {
        ok &= probability::is_finite(*x);
    }
    ok
}

// Whether each element is below the one before it.
fn falls(xs: &[f64]) -> bool
    ensures { result ≡ falls xs.now }
{
    let mut ok = true;
    for i in 1..xs.len() {
        ok &= xs[i] < xs[i - 1];
    }
    ok
}

// Whether each element is in 0..1, both ends in.
fn all_in_unit(xs: &[f64]) -> bool
    ensures { result ≡ all_in_unit xs.now }
{
    let mut ok = true;
    for x in xs {
        ok &= (0.0 <= *x) & (*x <= 1.0);
    }
    ok
}

// The heights of so many layers: one more, finite, falling at each step from above 0.999 to 0.
fn heights_ok(layers: usize, heights: &[f64]) -> bool
    ensures { result ≡ height_list layers heights.now }
{
    let n = heights.len();
    if n == 0 || n - 1 != layers {
        return false;
    }
    all_finite(heights) & falls(heights) & (0.999 < heights[0]) & (heights[layers] == 0.0)
}

// The curve of a support: a value for each magnitude, in 0..1.
fn curve_ok(maximum_magnitude: u64, curve: &[f64]) -> bool
    ensures { result ≡ curve_list maximum_magnitude curve.now }
{
    let n = curve.len();
    if n == 0 || (n - 1) as u64 != maximum_magnitude {
        return false;
    }
    all_in_unit(curve)
}

// Whether the three tables are those of a support: 128, 256 or 512 layers.
fn layer_tables_ok(maximum_magnitude: u64, tables: LayerTables) -> bool
    ensures { result ≡ layer_tables maximum_magnitude (lent_tables tables.entry) }
{
    let n = tables.endpoints.len();
    if n == 0 {
        return false;
    }
    let layers = n - 1;
    if (layers == 128) | (layers == 256) | (layers == 512) {
        rising_ok(n, maximum_magnitude, tables.endpoints)
            & heights_ok(layers, tables.heights)
            & curve_ok(maximum_magnitude, tables.curve)
    } else {
        false
    }
}

// Refuses tables, with the index that goes with the refusal.
fn refuse(refusal: Refusal, index: usize) -> Result<(), LayerFault>
    ensures { told result ≡ record { number = number refusal; index = index } }
{
    Err(LayerFault { refusal, index })
}

// What is wrong with refused tables: 13 for a length, before the lists in their order, each with the first index that is wrong.
#[tactic(auto, using(crate::proofs::Faults::faults))]
fn find_fault(maximum_magnitude: u64, tables: LayerTables) -> Result<(), LayerFault>
    ensures { told result ≡ layer_fault maximum_magnitude (lent_tables tables.entry) }
{
    if !sizes_ok(maximum_magnitude, tables) {
        return refuse(Refusal::InvalidLayerTables, 0);
    }
    if let Some(endpoint) = first_wrong_endpoint(maximum_magnitude, tables.endpoints) {
        return refuse(Refusal::InvalidEndpoint, endpoint);
    }
    if let Some(height) = first_wrong_height(tables.heights) {
        return refuse(Refusal::InvalidHeight, height);
    }
    if let Some(value) = first_wrong_value(tables.curve) {
        return refuse(Refusal::InvalidCurveValue, value);
    }
    Ok(())
}

// What is wrong with the tables that are lent to a draw, if anything is. Good tables cost the test alone: the fault is looked for only
// where it fails.
#[tactic(auto, using(crate::proofs::Faults::good_fault))]
pub fn check_layer_tables(
    maximum_magnitude: u64,
    endpoints: &[u64],
    heights: &[f64],
    curve: &[f64],
) -> Result<(), LayerFault>
    ensures { told result ≡ layer_fault maximum_magnitude
        (record { endpoints = endpoints.entry.now; heights = heights.now; curve = curve.now }) }
{
    let tables = LayerTables {
        endpoints,
        heights,
        curve,
    };
    if layer_tables_ok(maximum_magnitude, tables) {
        Ok(())
    } else {
        find_fault(maximum_magnitude, tables)
    }
}

// What a check of the tables says without its index.
pub fn refusal_of(checked: Result<(), LayerFault>) -> Result<(), Refusal>
    ensures { number_of result ≡ (told checked).number }
{
    match checked {
        Ok(()) => Ok(()),
        Err(fault) => Err(fault.refusal),
    }
}

// The index that goes with what refuses a draw: the fault's where the tables are what refuses it, else 0. Both may be told by any number.
pub fn index_with<R: Reason, S: Reason>(why: R, checked: Result<(), LayerFault<S>>) -> usize
    ensures { result ≡ cond (eqb (R.refusing why) (told_by S.refusing checked).number) (told_by S.refusing checked).index 0 }
{
    let fault = match checked {
        Ok(()) => return 0,
        Err(fault) => fault,
    };
    if why.refusing() != fault.refusal.refusing() {
        return 0;
    }
    fault.index
}
