// The order pool, and issuing a block from it.
ghost use Rattle.std.specs.Prelude.{◌≡◌};
ghost use Rattle.pool.specs.Pool.{added, dropped};
ghost use Rattle.issue.specs.Issue as spec;
ghost use Rattle.ledger.specs.Answers.{pool_answer, issue_answer};

use ledger::{IssueAnswer, PoolAnswer, Signature};
use order::{Order, Slot};
use pool::Pool;

#[unsafe(no_mangle)]
pub extern "C" fn ledger_drop_entries(
    genesis: &[u8],
    clock: Slot,
    held: &[u8],
    length: usize,
    pool: Pool,
) -> PoolAnswer
    ensures { result ≡ pool_answer pool (dropped genesis.now clock.0 held.now length pool) }
{
    ledger::ledger_drop_entries(genesis, clock, held, length, pool)
}

#[unsafe(no_mangle)]
pub extern "C" fn ledger_add_order(
    genesis: &[u8],
    clock: Slot,
    held: &[u8],
    length: usize,
    pool: Pool,
    order: Order,
    depot: u32,
) -> PoolAnswer
    ensures { result ≡ pool_answer pool (added genesis.now clock.0 held.now length pool order depot) }
{
    ledger::ledger_add_order(genesis, clock, held, length, pool, order, depot)
}

#[unsafe(no_mangle)]
pub extern "C" fn ledger_draft(
    genesis: &[u8],
    clock: Slot,
    held: &[u8],
    length: usize,
    pool: Pool,
    controller: u32,
    slot_signature: Signature,
    out: &mut [u8],
) -> IssueAnswer
    ensures answer { result ≡ issue_answer 0 (spec.writing spec.draft_bytes
        (spec.front genesis.now clock.0 held.now length pool controller slot_signature.bytes)
        out.old 0) }
    ensures out { out.new ≡ spec.written spec.draft_bytes
        (spec.front genesis.now clock.0 held.now length pool controller slot_signature.bytes)
        out.old 0 }
{
    ledger::ledger_draft(
        genesis,
        clock,
        held,
        length,
        pool,
        controller,
        slot_signature,
        out,
    )
}

#[unsafe(no_mangle)]
pub extern "C" fn ledger_block_text(
    genesis: &[u8],
    clock: Slot,
    held: &[u8],
    length: usize,
    pool: Pool,
    controller: u32,
    slot_signature: Signature,
    out: &mut [u8],
) -> IssueAnswer
    ensures answer { result ≡ issue_answer 0 (spec.writing spec.text_bytes
        (spec.front genesis.now clock.0 held.now length pool controller slot_signature.bytes)
        out.old 0) }
    ensures out { out.new ≡ spec.written spec.text_bytes
        (spec.front genesis.now clock.0 held.now length pool controller slot_signature.bytes)
        out.old 0 }
{
    ledger::ledger_block_text(
        genesis,
        clock,
        held,
        length,
        pool,
        controller,
        slot_signature,
        out,
    )
}

#[unsafe(no_mangle)]
pub extern "C" fn ledger_append(
    genesis: &[u8],
    clock: Slot,
    held: &mut [u8],
    length: usize,
    pool: Pool,
    controller: u32,
    slot_signature: Signature,
    block_signature: Signature,
) -> IssueAnswer
    ensures answer { result ≡ issue_answer length (spec.writing (spec.append_bytes block_signature.bytes)
        (spec.front genesis.now clock.0 held.old length pool controller slot_signature.bytes)
        held.old length) }
    ensures held { held.new ≡ spec.written (spec.append_bytes block_signature.bytes)
        (spec.front genesis.now clock.0 held.old length pool controller slot_signature.bytes)
        held.old length }
{
    ledger::ledger_append(
        genesis,
        clock,
        held,
        length,
        pool,
        controller,
        slot_signature,
        block_signature,
    )
}
