// Inner crate of primus_distr: the tables and the laws of the Gaussian over the integers, whatever its output holds. There is no code here.
#![tactic(auto)]
