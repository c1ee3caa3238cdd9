// The genesis table, and the rules that hang on it.
ghost use Rattle.std.specs.Prelude.{◌≡◌};
ghost use Rattle.genesis.specs.Genesis as spec;
ghost use Rattle.ledger.specs.Answers.{genesis_answer, key_answer};

use crate::NOWHERE;
use genesis::Genesis;
use order::{BlockCount, Slot};

// The table is all zeros where it was refused.
#[repr(C)]
#[derive(Drop)]
pub struct GenesisAnswer {
    pub refusal: u32,
    pub place: BlockCount,
    pub table: Genesis,
}

// The place of a key's first byte in the genesis.
#[repr(C)]
#[derive(Drop)]
pub struct KeyAnswer {
    pub refusal: u32,
    pub place: BlockCount,
    pub at: usize,
}

#[unsafe(no_mangle)]
pub extern "C" fn ledger_read_genesis(bytes: &[u8]) -> GenesisAnswer
    ensures { result ≡ genesis_answer bytes.now }
{
    let (refusal, table) = match genesis::read(bytes) {
        Ok(table) => (0, table),
        Err(refusal) => (refusal.number(), genesis::none()),
    };
    GenesisAnswer {
        refusal,
        place: NOWHERE,
        table,
    }
}

#[unsafe(no_mangle)]
pub extern "C" fn ledger_find_key(bytes: &[u8], controller: u32) -> KeyAnswer
    ensures { result ≡ key_answer (spec.key_at bytes.now controller) }
{
    match genesis::find_key(bytes, controller) {
        Ok(at) => KeyAnswer {
            refusal: 0,
            place: NOWHERE,
            at,
        },
        Err(refusal) => KeyAnswer {
            refusal: refusal.number(),
            place: NOWHERE,
            at: 0,
        },
    }
}

#[unsafe(no_mangle)]
pub extern "C" fn ledger_turn(table: Genesis, slot: Slot) -> u32
    ensures { result ≡ spec.turn table slot.0 }
{
    genesis::turn(table, slot)
}

#[unsafe(no_mangle)]
pub extern "C" fn ledger_depth(table: Genesis) -> u64
    ensures { result ≡ spec.depth table }
{
    genesis::depth(table)
}
