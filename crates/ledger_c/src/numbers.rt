// Numbers and the digest.
ghost use Rattle.std.specs.Prelude.{◌≡◌, leb};
ghost use Rattle.laws.specs.Placed.{placed_if, placing_if};
ghost use Rattle.number.specs.Number.{largest, written, number_at};
ghost use Rattle.ledger.specs.Answers.{number_answer, write_answer, digest_answer};

use ledger::{DigestAnswer, NumberAnswer, WriteAnswer};
use number::Number;

#[unsafe(no_mangle)]
pub extern "C" fn ledger_read_number(bytes: &[u8], at: usize) -> NumberAnswer
    ensures { result ≡ number_answer (number_at bytes.now at) }
{
    ledger::ledger_read_number(bytes, at)
}

#[unsafe(no_mangle)]
pub extern "C" fn ledger_write_number(value: Number, at: usize, out: &mut [u8]) -> WriteAnswer
    ensures answer { result ≡ write_answer (placed_if (leb value largest) 4 out.old at (written value)) }
    ensures out { out.new ≡ placing_if (leb value largest) out.old at (written value) }
{
    ledger::ledger_write_number(value, at, out)
}

#[unsafe(no_mangle)]
pub extern "C" fn ledger_digest(message: &[u8]) -> DigestAnswer
    ensures { result ≡ digest_answer message.now }
{
    ledger::ledger_digest(message)
}
