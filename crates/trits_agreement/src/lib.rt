// That uniform ternary by the table of trits and by division agree (02 [5]), over the contracts of both. There is no code here: specs/Agreement.antt is the claim, proofs/Agreement.antt its proof.
#![tactic(auto)]
