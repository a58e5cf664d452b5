// Inner crate of primus_distr, which re-exports its types: the types that document 01 names. Its rules over them are the definitions of specs/.
#![tactic(auto)]

pub mod answer;
pub mod error_distribution;
pub mod gaussian_parameters;
pub mod limits;
pub mod refusal;
pub mod secret_key_distr;
pub mod threshold;
