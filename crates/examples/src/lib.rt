// No function: the definitions held to the examples that 01 marks P (proofs/Examples.antt).
#![tactic(auto)]
