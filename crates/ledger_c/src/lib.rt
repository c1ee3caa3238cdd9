// The archive for hosts in C and Rust (include/ledger.h): under each of its symbols the call of the crate `ledger` of that name, with that call's
// clauses. A library for other crates exports nothing to C, so the exports are here. They can't be the only ones: nothing can be built on an archive,
// and the theorems on the calls are built on `ledger`.
#![tactic(auto)]

mod blocks;
mod chains;
mod manifests;
mod numbers;
mod pools;
mod tables;
