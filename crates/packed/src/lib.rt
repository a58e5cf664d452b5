// Inner crate of primus_distr: packed draws, values written straight from lent words. How a word is cut, how many words a draw takes, the table of trits,
// and the draws, each one text for every type of output.
#![tactic(auto)]

pub mod binary;
pub mod bytes;
mod draws;
pub mod needed;
mod pairs;
mod stores;
mod tables;
pub mod ternary;
pub mod trits;
pub mod width;
