// No function: why no two correct controllers ever report different settled lists, as a theorem on lists and slots (specs/Core.antt, proofs/Theorems.antt).
#![tactic(auto)]
