// The calls of the ledger for hosts in C and Rust. Each says what the call that it wraps says: first the refusal's number, 0 where there is
// none, and its place. The C interface needs these forms: an answer is a struct with a number and the values beside it, since neither a `Result` nor
// a reference can cross, and a held chain is a buffer with a length.
#![tactic(auto)]

mod blocks;
mod chains;
mod manifests;
mod numbers;
mod pools;
mod tables;

pub use blocks::{
    BlockAnswer, StepAnswer, ledger_read_block, ledger_slot_text, ledger_walk_step,
    ledger_write_block,
};
pub use chains::{
    AdoptAnswer, CheckAnswer, ChooseAnswer, ReportAnswer, ledger_adopt, ledger_check,
    ledger_choose, ledger_report,
};
pub use manifests::{ManifestAnswer, ledger_check_manifest};
pub use numbers::{
    DigestAnswer, NumberAnswer, WriteAnswer, ledger_digest, ledger_read_number, ledger_write_number,
};
use order::BlockCount;
pub use pools::{
    IssueAnswer, PoolAnswer, Signature, ledger_add_order, ledger_append, ledger_block_text,
    ledger_draft, ledger_drop_entries,
};
pub use tables::{
    GenesisAnswer, KeyAnswer, ledger_depth, ledger_find_key, ledger_read_genesis, ledger_turn,
};

// The place of an answer that refuses no block.
const NOWHERE: BlockCount = BlockCount(0);
