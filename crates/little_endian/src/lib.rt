// Inner crate: words and coefficients as little-endian bytes, four to a word and eight to a coefficient, for a sheet and for the desk.
#![tactic(auto)]

pub mod coefficients;
pub mod words;
