// No function: a run that keeps what demand 3 asks of a run, with a fork in it (specs/Forked.antt, proofs/Theorems.antt).
#![tactic(auto)]
