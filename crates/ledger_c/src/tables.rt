// The genesis table, and the rules that hang on it.
ghost use Rattle.std.specs.Prelude.{◌≡◌};
ghost use Rattle.genesis.specs.Genesis as spec;
ghost use Rattle.ledger.specs.Answers.{genesis_answer, key_answer};

use genesis::Genesis;
use ledger::{GenesisAnswer, KeyAnswer};
use order::Slot;

#[unsafe(no_mangle)]
pub extern "C" fn ledger_read_genesis(bytes: &[u8]) -> GenesisAnswer
    ensures { result ≡ genesis_answer bytes.now }
{
    ledger::ledger_read_genesis(bytes)
}

#[unsafe(no_mangle)]
pub extern "C" fn ledger_find_key(bytes: &[u8], controller: u32) -> KeyAnswer
    ensures { result ≡ key_answer (spec.key_at bytes.now controller) }
{
    ledger::ledger_find_key(bytes, controller)
}

#[unsafe(no_mangle)]
pub extern "C" fn ledger_turn(table: Genesis, slot: Slot) -> u32
    ensures { result ≡ spec.turn table slot.0 }
{
    ledger::ledger_turn(table, slot)
}

#[unsafe(no_mangle)]
pub extern "C" fn ledger_depth(table: Genesis) -> u64
    ensures { result ≡ spec.depth table }
{
    ledger::ledger_depth(table)
}
