// One pass over a chain, block by block, to its end or to the first block that is refused.
ghost use Rattle.std.specs.Prelude.{◌≡◌, ◌≤◌, length};
ghost use Rattle.chain.specs.Chain as spec;
ghost use Rattle.chain.specs.Answers.{way_of, told};

use crate::judge::judge;
use crate::{Opened, Refused, Standing, Summary, Way};
use order::{BlockCount, Slot, more_slots_ago};

#[inline(always)]
pub fn pass(chain: &[u8], way: Way<'_>, opened: Opened) -> Result<Summary, Refused>
    requires { length chain.now ≤ spec.longest }
    ensures { told result ≡ spec.passed opened (way_of way.entry) chain.now (spec.begun opened) }
{
    let depth = genesis::depth(opened.table);
    let mut whole = none(opened);
    let mut settled = whole;
    while whole.length < chain.len() {
        whole = match judge(chain, way, opened.clock, whole) {
            Ok(after) => after,
            Err(refusal) => {
                let place = BlockCount(whole.count.0 + 1);
                return Err(Refused { refusal, place });
            }
        };
        if more_slots_ago(whole.stamp, depth, opened.clock) {
            settled = whole;
        }
    }
    Ok(Summary { whole, settled })
}

// The chain of no blocks.
fn none(opened: Opened) -> Standing
    ensures { result ≡ spec.none opened }
{
    let Opened { table, link, .. } = opened;
    let releases = table.releases;
    Standing {
        count: BlockCount(0),
        length: 0,
        stamp: Slot(0),
        link,
        releases,
    }
}
