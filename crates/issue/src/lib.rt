// Issuing a block (01, "Draft and append"): what is signed is what is appended, since all three calls write the same front. A refusal writes no
// byte.
#![tactic(auto)]

ghost use Rattle.std.specs.Prelude.{◌≡◌, true, take};
ghost use Rattle.laws.specs.Placed.{placed, placing};
ghost use Rattle.refusal.specs.Answers.{told};
ghost use Rattle.block.specs.Blocks.{front_fits};
ghost use Rattle.chain.specs.Answers as answer;
ghost use Rattle.issue.specs.Issue as spec;

use block::{Block, Front, Orders};
use chain::{Opened, Refused, Summary};
use number::Number;
use order::{Order, Slot, earlier, within};
use pool::{Pool, Taken};
use refusal::Refusal;

// The most orders that a block has.
pub const ORDERS: u32 = 8;

// Whether a controller may issue in the slot of the clock.
fn may_issue(opened: &Opened, controller: u32) -> bool
    ensures { result ≡ spec.may_issue opened.now controller }
{
    let table = opened.table;
    within(1, controller as Number, table.n as Number)
        && genesis::turn(table, opened.clock) == controller
}

// The first eight of the orders that were taken.
fn first_eight(orders: &[Order; 64]) -> [Order; 8]
    ensures { result ≡ take 8 orders.now }
{
    *orders.first_chunk().unwrap()
}

// The front of the block behind a held chain.
fn next_front(opened: &Opened, held: &Summary, pool: &Pool, slot_signature: [u8; 64]) -> Front
    ensures { result ≡ spec.next_front opened.now held.now pool.now slot_signature }
{
    let link = held.whole.link;
    let Taken { count, orders, .. } = pool::take(
        &pool::counting(held, pool),
        held.whole.releases,
        ORDERS,
    );
    let list = first_eight(&orders);
    Front {
        link,
        orders: Orders { count, list },
        slot: opened.clock,
        slot_signature,
    }
}

// The front of the next block: 1, 2, 17, 18, 12, 6.
#[tactic(auto, unfolding(crate::specs::Issue::front))]
fn front(
    genesis: &[u8],
    clock: Slot,
    held: &[u8],
    length: usize,
    pool: &Pool,
    controller: u32,
    slot_signature: [u8; 64],
) -> Result<Front, Refused>
    ensures { answer.told result ≡ spec.front genesis.now clock.0 held.now length pool.now controller slot_signature }
{
    let (opened, summary) = chain::hold(genesis, clock, held, length)?;
    Ok(behind(&opened, &summary, pool, controller, slot_signature)?)
}

// The front of a block behind a held chain: 18, 12, 6.
fn behind(
    opened: &Opened,
    held: &Summary,
    pool: &Pool,
    controller: u32,
    slot_signature: [u8; 64],
) -> Result<Front, Refusal>
    ensures { told result ≡ spec.fronting opened.now held.now pool.now controller slot_signature }
{
    if !pool::fits(opened, held, pool) {
        return Err(Refusal::BadPool);
    }
    if !may_issue(opened, controller) {
        return Err(Refusal::WrongController);
    }
    if !earlier(held.whole.stamp, opened.clock) {
        return Err(Refusal::BadStamp);
    }
    Ok(next_front(opened, held, pool, slot_signature))
}

// Draft, append and block text stay three calls, as 01 and the hosts have them: they share `front`, and differ in what they write.

// Writes the next block without its last 64 bytes, and answers how many bytes those are.
#[tactic(auto, using(crate::proofs::Fronts::front_fits_law))]
pub fn draft(
    genesis: &[u8],
    clock: Slot,
    held: &[u8],
    length: usize,
    pool: &Pool,
    controller: u32,
    slot_signature: [u8; 64],
    out: &mut [u8],
) -> Result<usize, Refused>
    ensures answer { answer.told result ≡ spec.writing spec.draft_bytes
        (spec.front genesis.now clock.0 held.now length pool.now controller slot_signature)
        out.old 0 }
    ensures out { out.new ≡ spec.written spec.draft_bytes
        (spec.front genesis.now clock.0 held.now length pool.now controller slot_signature)
        out.old 0 }
{
    let front = front(
        genesis,
        clock,
        held,
        length,
        pool,
        controller,
        slot_signature,
    )?;
    Ok(block::write_front(out, 0, front)?)
}

// Writes the whole next block behind the held chain, and answers that chain's length from then on: a refusal leaves it as it was.
pub fn append(
    genesis: &[u8],
    clock: Slot,
    held: &mut [u8],
    length: usize,
    pool: &Pool,
    controller: u32,
    slot_signature: [u8; 64],
    block_signature: [u8; 64],
) -> Result<usize, Refused>
    ensures answer { answer.told result ≡ spec.writing (spec.append_bytes block_signature)
        (spec.front genesis.now clock.0 held.old length pool.now controller slot_signature)
        held.old length }
    ensures held { held.new ≡ spec.written (spec.append_bytes block_signature)
        (spec.front genesis.now clock.0 held.old length pool.now controller slot_signature)
        held.old length }
{
    let front = front(
        genesis,
        clock,
        &*held,
        length,
        pool,
        controller,
        slot_signature,
    )?;
    let block = Block {
        front,
        block_signature,
    };
    Ok(block::write(held, length, block)?)
}

// Writes the text of the next block that a host signs, and answers how many bytes it has.
#[tactic(auto, using(crate::proofs::Fronts::front_fits_law))]
pub fn block_text(
    genesis: &[u8],
    clock: Slot,
    held: &[u8],
    length: usize,
    pool: &Pool,
    controller: u32,
    slot_signature: [u8; 64],
    out: &mut [u8],
) -> Result<usize, Refused>
    ensures answer { answer.told result ≡ spec.writing spec.text_bytes
        (spec.front genesis.now clock.0 held.now length pool.now controller slot_signature)
        out.old 0 }
    ensures out { out.new ≡ spec.written spec.text_bytes
        (spec.front genesis.now clock.0 held.now length pool.now controller slot_signature)
        out.old 0 }
{
    let front = front(
        genesis,
        clock,
        held,
        length,
        pool,
        controller,
        slot_signature,
    )?;
    Ok(text(out, front)?)
}

// The front is written behind the room for the letters first: it alone may be refused.
fn text(out: &mut [u8], front: Front) -> Result<usize, Refusal>
    requires { front_fits front ≡ true }
    ensures answer { told result ≡ placed out.old 0 (spec.text_bytes front) }
    ensures out { out.new ≡ placing out.old 0 (spec.text_bytes front) }
{
    let letters = b"block";
    let end = block::write_front(out, letters.len(), front)?;
    buffer::put(out, 0, letters).unwrap();
    Ok(end)
}
