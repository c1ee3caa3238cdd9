// The calls on whole chains: the check of a delivered one, the choice, adoption, and the report on a held one.
ghost use Rattle.std.specs.Prelude.{◌≡◌};
ghost use Rattle.chain.specs.Chain.{checked};
ghost use Rattle.adopt.specs.Adopt.{accepted, choice, adopted, adopting};
ghost use Rattle.report.specs.Report.{reported};
ghost use Rattle.ledger.specs.Answers.{check_answer, choose_answer, adopt_answer, report_answer};

use ledger::{AdoptAnswer, CheckAnswer, ChooseAnswer, ReportAnswer};
use order::Slot;

#[unsafe(no_mangle)]
pub extern "C" fn ledger_check(
    genesis: &[u8],
    clock: Slot,
    chain: &[u8],
    verdicts: &[u8],
) -> CheckAnswer
    ensures { result ≡ check_answer (checked genesis.now clock.0 chain.now verdicts.now) }
{
    ledger::ledger_check(genesis, clock, chain, verdicts)
}

#[unsafe(no_mangle)]
pub extern "C" fn ledger_choose(
    genesis: &[u8],
    clock: Slot,
    held: &[u8],
    delivered: &[u8],
    verdicts: &[u8],
) -> ChooseAnswer
    ensures { result ≡ choose_answer
        (choice genesis.now clock.0 held.now delivered.now verdicts.now) }
{
    ledger::ledger_choose(genesis, clock, held, delivered, verdicts)
}

#[unsafe(no_mangle)]
pub extern "C" fn ledger_adopt(
    genesis: &[u8],
    clock: Slot,
    held: &mut [u8],
    length: usize,
    delivered: &[u8],
    verdicts: &[u8],
) -> AdoptAnswer
    ensures answer { result ≡ adopt_answer length (adopted
        (accepted genesis.now clock.0 held.old length delivered.now verdicts.now)
        held.old delivered.now) }
    ensures held { held.new ≡ adopting
        (accepted genesis.now clock.0 held.old length delivered.now verdicts.now)
        held.old delivered.now }
{
    ledger::ledger_adopt(genesis, clock, held, length, delivered, verdicts)
}

#[unsafe(no_mangle)]
pub extern "C" fn ledger_report(
    genesis: &[u8],
    clock: Slot,
    held: &[u8],
    length: usize,
) -> ReportAnswer
    ensures { result ≡ report_answer (reported genesis.now clock.0 held.now length) }
{
    ledger::ledger_report(genesis, clock, held, length)
}
