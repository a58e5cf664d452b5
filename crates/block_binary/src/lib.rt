// Inner crate of primus_distr: block-binary values, each block filled in its own part of the output, generic over the output's type.
#![tactic(auto)]

mod blocks;
pub mod draw;
