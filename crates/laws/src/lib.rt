// No function: the definitions that every crate's contracts are written in (specs/), and the laws that their proofs share (proofs/).
#![tactic(auto)]
