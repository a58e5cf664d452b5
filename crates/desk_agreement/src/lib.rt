// That the desk's entry and the library agree wherever 29 does not refuse (02 [4]), over the contracts of both. There is no code here: specs/Agreement.antt is the claim, proofs/Agreement.antt its proof.
#![tactic(auto)]
