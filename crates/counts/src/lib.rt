// Inner crate of primus_distr: the counts of document 01, how many draw lists give a coefficient list, and of document 02 [3], how many byte strings a polynomial. There is no code here; proofs/ has the theorems.
#![tactic(auto)]
