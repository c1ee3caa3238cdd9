// The calls on whole chains: the check of a delivered one, the choice, adoption, and the report on a held one.
ghost use Rattle.std.specs.Prelude.{◌≡◌};
ghost use Rattle.chain.specs.Chain.{checked};
ghost use Rattle.adopt.specs.Adopt.{accepted, choice, adopted, adopting};
ghost use Rattle.report.specs.Report.{reported};
ghost use Rattle.ledger.specs.Answers.{check_answer, choose_answer, adopt_answer, report_answer};

use crate::NOWHERE;
use order::{BlockCount, Release, Slot};

// The block count and the releases after the last block, zeros where the chain was refused.
#[repr(C)]
#[derive(Drop)]
pub struct CheckAnswer {
    pub refusal: u32,
    pub place: BlockCount,
    pub count: BlockCount,
    pub releases: [Release; 64],
}

// Which of the two chains the choice shows.
#[repr(C)]
#[derive(Drop)]
pub struct ChooseAnswer {
    pub refusal: u32,
    pub place: BlockCount,
    pub delivered: bool,
}

// The held chain's length from then on, which a refusal leaves as it was, and the adopted chain's block count, 0 where there is none.
#[repr(C)]
#[derive(Drop)]
pub struct AdoptAnswer {
    pub refusal: u32,
    pub place: BlockCount,
    pub length: usize,
    pub count: BlockCount,
}

// The block counts, the settled bytes' length and the releases after the settled blocks, zeros where it was refused.
#[repr(C)]
#[derive(Drop)]
pub struct ReportAnswer {
    pub refusal: u32,
    pub place: BlockCount,
    pub held: BlockCount,
    pub settled: BlockCount,
    pub settled_length: usize,
    pub releases: [Release; 64],
}

#[unsafe(no_mangle)]
pub extern "C" fn ledger_check(
    genesis: &[u8],
    clock: Slot,
    chain: &[u8],
    verdicts: &[u8],
) -> CheckAnswer
    ensures { result ≡ check_answer (checked genesis.now clock.0 chain.now verdicts.now) }
{
    match chain::check(genesis, clock, chain, verdicts) {
        Ok(checked) => {
            let releases = checked.releases;
            CheckAnswer {
                refusal: 0,
                place: NOWHERE,
                count: checked.count,
                releases,
            }
        }
        Err(refused) => CheckAnswer {
            refusal: refused.refusal.number(),
            place: refused.place,
            count: BlockCount(0),
            releases: [0; 64],
        },
    }
}

// A reference to one of the two can't be given back, so the answer says which.
#[unsafe(no_mangle)]
pub extern "C" fn ledger_choose(
    genesis: &[u8],
    clock: Slot,
    held: &[u8],
    delivered: &[u8],
    verdicts: &[u8],
) -> ChooseAnswer
    ensures { result ≡ choose_answer
        (choice genesis.now clock.0 held.now delivered.now verdicts.now) }
{
    match adopt::judge(genesis, clock, held, held.len(), delivered, verdicts) {
        Ok(_) => ChooseAnswer {
            refusal: 0,
            place: NOWHERE,
            delivered: true,
        },
        Err(refused) => ChooseAnswer {
            refusal: refused.refusal.number(),
            place: refused.place,
            delivered: false,
        },
    }
}

#[unsafe(no_mangle)]
pub extern "C" fn ledger_adopt(
    genesis: &[u8],
    clock: Slot,
    held: &mut [u8],
    length: usize,
    delivered: &[u8],
    verdicts: &[u8],
) -> AdoptAnswer
    ensures answer { result ≡ adopt_answer length (adopted
        (accepted genesis.now clock.0 held.old length delivered.now verdicts.now)
        held.old delivered.now) }
    ensures held { held.new ≡ adopting
        (accepted genesis.now clock.0 held.old length delivered.now verdicts.now)
        held.old delivered.now }
{
    match adopt::adopt(genesis, clock, held, length, delivered, verdicts) {
        Ok(adopted) => AdoptAnswer {
            refusal: 0,
            place: NOWHERE,
            length: adopted.length,
            count: adopted.count,
        },
        Err(refused) => AdoptAnswer {
            refusal: refused.refusal.number(),
            place: refused.place,
            length,
            count: BlockCount(0),
        },
    }
}

#[unsafe(no_mangle)]
pub extern "C" fn ledger_report(
    genesis: &[u8],
    clock: Slot,
    held: &[u8],
    length: usize,
) -> ReportAnswer
    ensures { result ≡ report_answer (reported genesis.now clock.0 held.now length) }
{
    match report::report(genesis, clock, held, length) {
        Ok(report) => {
            let releases = report.releases;
            ReportAnswer {
                refusal: 0,
                place: NOWHERE,
                held: report.held,
                settled: report.settled,
                settled_length: report.length,
                releases,
            }
        }
        Err(refused) => ReportAnswer {
            refusal: refused.refusal.number(),
            place: refused.place,
            held: BlockCount(0),
            settled: BlockCount(0),
            settled_length: 0,
            releases: [0; 64],
        },
    }
}
