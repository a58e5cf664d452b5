// An inner crate of the library primus_distr: fixed weights and fixed compositions, values inserted at chosen places, whatever the output holds.
#![tactic(auto)]

pub mod choices;
pub mod fixed_composition;
pub mod fixed_weight;
mod insertion;
pub mod plans;
