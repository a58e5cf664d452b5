// Inner crate of primus_distr. `Binary`: ones and zeros by one threshold of 64-bit words, for every type of output.
#![tactic(auto)]

pub mod below;
pub mod draw;
mod store;
