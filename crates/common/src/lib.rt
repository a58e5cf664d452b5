// Inner crate of primus_distr, which re-exports it: the draws that take no sampler, under the Rust's names: a distribution is made and drawn in one call.
#![tactic(auto)]

pub mod residues;
pub mod signed;
