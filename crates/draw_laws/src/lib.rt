// Inner crate of primus_distr: how the answers of the draws by one rule become the answers of a sampler's draws. There is no code here; proofs/ has the laws.
#![tactic(auto)]
