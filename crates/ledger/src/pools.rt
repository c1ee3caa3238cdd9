// The order pool, and issuing a block from it. A signature crosses as a struct, since an array by itself can't.
ghost use Rattle.std.specs.Prelude.{◌≡◌};
ghost use Rattle.pool.specs.Pool.{added, dropped};
ghost use Rattle.issue.specs.Issue as spec;
ghost use Rattle.chain.specs.Answers.{told};
ghost use Rattle.laws.specs.Told.{number_of};
ghost use Rattle.ledger.specs.Answers.{block_place, pool_answer, issue_answer};

use crate::NOWHERE;
use chain::Refused;
use order::{BlockCount, Order, Slot};
use pool::Pool;

#[repr(C)]
#[derive(Drop)]
pub struct Signature {
    pub bytes: [u8; 64],
}

// The pool as it then is: as it came where the call was refused.
#[repr(C)]
#[derive(Drop)]
pub struct PoolAnswer {
    pub refusal: u32,
    pub place: BlockCount,
    pub pool: Pool,
}

// How many bytes were written, 0 on a refusal; of append the held chain's length from then on, which a refusal leaves as it was.
#[repr(C)]
#[derive(Drop)]
pub struct IssueAnswer {
    pub refusal: u32,
    pub place: BlockCount,
    pub length: usize,
}

#[unsafe(no_mangle)]
pub extern "C" fn ledger_drop_entries(
    genesis: &[u8],
    clock: Slot,
    held: &[u8],
    length: usize,
    pool: Pool,
) -> PoolAnswer
    ensures { result ≡ pool_answer pool (dropped genesis.now clock.0 held.now length pool) }
{
    let mut pool = pool;
    let (refusal, place) = refused(pool::drop(genesis, clock, held, length, &mut pool));
    PoolAnswer {
        refusal,
        place,
        pool,
    }
}

#[unsafe(no_mangle)]
pub extern "C" fn ledger_add_order(
    genesis: &[u8],
    clock: Slot,
    held: &[u8],
    length: usize,
    pool: Pool,
    order: Order,
    depot: u32,
) -> PoolAnswer
    ensures { result ≡ pool_answer pool (added genesis.now clock.0 held.now length pool order depot) }
{
    let mut pool = pool;
    let (refusal, place) = refused(pool::add(
        genesis, clock, held, length, &mut pool, order, depot,
    ));
    PoolAnswer {
        refusal,
        place,
        pool,
    }
}

#[unsafe(no_mangle)]
pub extern "C" fn ledger_draft(
    genesis: &[u8],
    clock: Slot,
    held: &[u8],
    length: usize,
    pool: Pool,
    controller: u32,
    slot_signature: Signature,
    out: &mut [u8],
) -> IssueAnswer
    ensures answer { result ≡ issue_answer 0 (spec.writing spec.draft_bytes
        (spec.front genesis.now clock.0 held.now length pool controller slot_signature.bytes)
        out.old 0) }
    ensures out { out.new ≡ spec.written spec.draft_bytes
        (spec.front genesis.now clock.0 held.now length pool controller slot_signature.bytes)
        out.old 0 }
{
    let issued = issue::draft(
        genesis,
        clock,
        held,
        length,
        &pool,
        controller,
        slot_signature.bytes,
        out,
    );
    issued_or(issued, 0)
}

#[unsafe(no_mangle)]
pub extern "C" fn ledger_block_text(
    genesis: &[u8],
    clock: Slot,
    held: &[u8],
    length: usize,
    pool: Pool,
    controller: u32,
    slot_signature: Signature,
    out: &mut [u8],
) -> IssueAnswer
    ensures answer { result ≡ issue_answer 0 (spec.writing spec.text_bytes
        (spec.front genesis.now clock.0 held.now length pool controller slot_signature.bytes)
        out.old 0) }
    ensures out { out.new ≡ spec.written spec.text_bytes
        (spec.front genesis.now clock.0 held.now length pool controller slot_signature.bytes)
        out.old 0 }
{
    let issued = issue::block_text(
        genesis,
        clock,
        held,
        length,
        &pool,
        controller,
        slot_signature.bytes,
        out,
    );
    issued_or(issued, 0)
}

#[unsafe(no_mangle)]
pub extern "C" fn ledger_append(
    genesis: &[u8],
    clock: Slot,
    held: &mut [u8],
    length: usize,
    pool: Pool,
    controller: u32,
    slot_signature: Signature,
    block_signature: Signature,
) -> IssueAnswer
    ensures answer { result ≡ issue_answer length (spec.writing (spec.append_bytes block_signature.bytes)
        (spec.front genesis.now clock.0 held.old length pool controller slot_signature.bytes)
        held.old length) }
    ensures held { held.new ≡ spec.written (spec.append_bytes block_signature.bytes)
        (spec.front genesis.now clock.0 held.old length pool controller slot_signature.bytes)
        held.old length }
{
    let issued = issue::append(
        genesis,
        clock,
        held,
        length,
        &pool,
        controller,
        slot_signature.bytes,
        block_signature.bytes,
    );
    issued_or(issued, length)
}

// The refusal's number, 0 where there is none, and its place.
fn refused(answer: Result<(), Refused>) -> (u32, BlockCount)
    ensures { (result.0 ≡ number_of (told answer)) × (result.1 ≡ block_place (told answer)) }
{
    match answer {
        Ok(()) => (0, NOWHERE),
        Err(refused) => (refused.refusal.number(), refused.place),
    }
}

// A length as it then is, or as it was before.
fn issued_or(issued: Result<usize, Refused>, before: usize) -> IssueAnswer
    ensures { result ≡ issue_answer before (told issued) }
{
    match issued {
        Ok(length) => IssueAnswer {
            refusal: 0,
            place: NOWHERE,
            length,
        },
        Err(refused) => IssueAnswer {
            refusal: refused.refusal.number(),
            place: refused.place,
            length: before,
        },
    }
}
