// Inner crate of primus_distr: what the Gaussian backends share: the record of a deviation and its support, the magnitude of a signed
// integer, and the test of a table that never falls.
#![tactic(auto)]

pub mod encode;
pub mod parameters;
pub mod rising;
