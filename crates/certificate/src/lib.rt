// Inner crate of primus_distr: demand 3 over the code of both samplers, and the count of 02 [3] over that of the byte form. There is no code here: specs/Certificate.antt is the claim, proofs/Certificate.antt its proof.
#![tactic(auto)]
