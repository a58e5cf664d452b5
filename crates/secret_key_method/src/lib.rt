// Inner crate of primus_distr: how the method of a secret-key distribution is prepared, and which family the distribution is of.
#![tactic(auto)]

pub mod family;
pub mod prepare;
