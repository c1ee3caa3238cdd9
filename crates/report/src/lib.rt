// The report (01, "Report"): how many blocks are held, how many of them are settled, and what the settled ones come to.
#![tactic(auto)]

ghost use Rattle.std.specs.Prelude.{◌≡◌};
ghost use Rattle.laws.specs.Told.{given_as};
ghost use Rattle.chain.specs.Answers.{told};
ghost use Rattle.report.specs.Report as spec;
ghost use Rattle.report.specs.Answers.{report_held};

use chain::{Refused, Summary};
use order::{BlockCount, Release, Slot};

// What the report answers.
#[derive(Clone, Copy, Debug, PartialEq, Eq)]
pub struct Reported {
    pub held: BlockCount,
    pub settled: BlockCount,
    // how many bytes the settled blocks take
    pub length: usize,
    // the releases after the settled blocks
    pub releases: [Release; 64],
}

// Reports on the chain that is held in the first bytes of a buffer.
pub fn report(genesis: &[u8], clock: Slot, held: &[u8], length: usize) -> Result<Reported, Refused>
    ensures { told result ≡ given_as report_held (spec.reported genesis.now clock.0 held.now length) }
{
    let (_, Summary { whole, settled }) = chain::hold(genesis, clock, held, length)?;
    let releases = settled.releases;
    let reported = Reported {
        held: whole.count,
        settled: settled.count,
        length: settled.length,
        releases,
    };
    Ok(reported)
}
