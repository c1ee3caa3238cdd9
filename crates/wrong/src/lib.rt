// No function: that no call, as its contract defines it, is one of the wrong versions that 01 names (proofs/Theorems.antt).
#![tactic(auto)]
