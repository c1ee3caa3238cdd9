// One block, the walk over a chain, and the slot text.
ghost use Rattle.std.specs.Prelude.{◌≡◌};
ghost use Rattle.laws.specs.Every as spec;
ghost use Rattle.laws.specs.Placed.{placed_if, placing_if};
ghost use Rattle.block.specs.Block.{block_at, block_bytes};
ghost use Rattle.block.specs.Blocks.{parts_in, front_fits, slot_text};
ghost use Rattle.walk.specs.Walk.{step_at};
ghost use Rattle.ledger.specs.Answers.{block_answer, write_answer, step_answer};

use crate::NOWHERE;
use crate::numbers::WriteAnswer;
use block::Block;
use order::{BlockCount, Slot};

// A block, and the place after it. The block is all zeros where it was refused.
#[repr(C)]
#[derive(Drop)]
pub struct BlockAnswer {
    pub refusal: u32,
    pub place: BlockCount,
    pub next: usize,
    pub block: Block,
}

// What a step of a walk meets: the end, or a block, and the place that the walk has reached. The block is all zeros where there is none.
#[repr(C)]
#[derive(Drop)]
pub struct StepAnswer {
    pub refusal: u32,
    pub place: BlockCount,
    pub end: bool,
    pub next: usize,
    pub block: Block,
}

#[unsafe(no_mangle)]
pub extern "C" fn ledger_read_block(bytes: &[u8], at: usize) -> BlockAnswer
    ensures { result ≡ block_answer (block_at bytes.now at) }
{
    match block::read(bytes, at) {
        Ok((block, next)) => BlockAnswer {
            refusal: 0,
            place: NOWHERE,
            next,
            block,
        },
        Err(refusal) => BlockAnswer {
            refusal: refusal.number(),
            place: NOWHERE,
            next: 0,
            block: block::none(),
        },
    }
}

#[unsafe(no_mangle)]
pub extern "C" fn ledger_write_block(block: Block, at: usize, out: &mut [u8]) -> WriteAnswer
    ensures answer { result ≡ write_answer (placed_if (front_fits block.front) 5 out.old at (block_bytes (parts_in block))) }
    ensures out { out.new ≡ placing_if (front_fits block.front) out.old at (block_bytes (parts_in block)) }
{
    block::write(out, at, block).into()
}

#[unsafe(no_mangle)]
pub extern "C" fn ledger_slot_text(slot: Slot, out: &mut [u8]) -> WriteAnswer
    ensures answer { result ≡ write_answer (placed_if (spec.within 1 256 slot.0) 2 out.old 0 (slot_text slot.0)) }
    ensures out { out.new ≡ placing_if (spec.within 1 256 slot.0) out.old 0 (slot_text slot.0) }
{
    block::slot_text(out, slot).into()
}

#[unsafe(no_mangle)]
pub extern "C" fn ledger_walk_step(chain: &[u8], at: usize) -> StepAnswer
    ensures { result ≡ step_answer at (step_at chain.now at) }
{
    // the zeros stand once: an answer that has them in two places takes half as long again
    let (refusal, end) = match walk::walked(chain, at) {
        Ok(Some((block, next))) => {
            return StepAnswer {
                refusal: 0,
                place: NOWHERE,
                end: false,
                next,
                block,
            };
        }
        Ok(None) => (0, true),
        Err(refusal) => (refusal.number(), false),
    };
    StepAnswer {
        refusal,
        place: NOWHERE,
        end,
        next: at,
        block: block::none(),
    }
}
