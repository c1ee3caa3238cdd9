// One block, the walk over a chain, and the slot text.
ghost use Rattle.std.specs.Prelude.{◌≡◌};
ghost use Rattle.laws.specs.Every as spec;
ghost use Rattle.laws.specs.Placed.{placed_if, placing_if};
ghost use Rattle.block.specs.Block.{block_at, block_bytes};
ghost use Rattle.block.specs.Blocks.{parts_in, front_fits, slot_text};
ghost use Rattle.walk.specs.Walk.{step_at};
ghost use Rattle.ledger.specs.Answers.{block_answer, write_answer, step_answer};

use block::Block;
use ledger::{BlockAnswer, StepAnswer, WriteAnswer};
use order::Slot;

#[unsafe(no_mangle)]
pub extern "C" fn ledger_read_block(bytes: &[u8], at: usize) -> BlockAnswer
    ensures { result ≡ block_answer (block_at bytes.now at) }
{
    ledger::ledger_read_block(bytes, at)
}

#[unsafe(no_mangle)]
pub extern "C" fn ledger_write_block(block: Block, at: usize, out: &mut [u8]) -> WriteAnswer
    ensures answer { result ≡ write_answer (placed_if (front_fits block.front) 5 out.old at (block_bytes (parts_in block))) }
    ensures out { out.new ≡ placing_if (front_fits block.front) out.old at (block_bytes (parts_in block)) }
{
    ledger::ledger_write_block(block, at, out)
}

#[unsafe(no_mangle)]
pub extern "C" fn ledger_slot_text(slot: Slot, out: &mut [u8]) -> WriteAnswer
    ensures answer { result ≡ write_answer (placed_if (spec.within 1 256 slot.0) 2 out.old 0 (slot_text slot.0)) }
    ensures out { out.new ≡ placing_if (spec.within 1 256 slot.0) out.old 0 (slot_text slot.0) }
{
    ledger::ledger_slot_text(slot, out)
}

#[unsafe(no_mangle)]
pub extern "C" fn ledger_walk_step(chain: &[u8], at: usize) -> StepAnswer
    ensures { result ≡ step_answer at (step_at chain.now at) }
{
    ledger::ledger_walk_step(chain, at)
}
