// Inner crate of primus_distr: uniform ternary by division, for a caller that has no sampler. `common`, whose own draw of it goes by the table of trits (02 [5]),
// hands it out beside that.
#![tactic(auto)]

pub mod residues;
pub mod signed;
