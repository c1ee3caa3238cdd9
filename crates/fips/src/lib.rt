// No function: the definition of SHA-256 held to the standard's own examples (proofs/Examples.antt).
#![tactic(auto)]
