// Inner crate of primus_distr. `Ternary`: -1, 0 and 1 by two thresholds of 64-bit words, whatever the output holds.
#![tactic(auto)]

pub mod draw;
mod ends;
pub mod ternary;
