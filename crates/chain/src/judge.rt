// One block, judged behind the blocks before it, delivered or held.
ghost use Rattle.std.specs.Prelude.{◌≡◌, ◌<◌, eqb, get_or};
ghost use Rattle.laws.specs.Told.{found, then};
ghost use Rattle.refusal.specs.Answers.{told};
ghost use Rattle.order.specs.Order.{obeyed};
ghost use Rattle.block.specs.Block.{block_at};
ghost use Rattle.block.specs.Steps.{body_at};
ghost use Rattle.block.specs.Answers.{unlisted};
ghost use Rattle.chain.specs.Chain as spec;
ghost use Rattle.chain.specs.Answers.{way_of};

use crate::{Standing, Way, link_of};
use block::Body;
use order::{BlockCount, Order, Release, Slot, earlier};
use refusal::Refusal;

// The standing after the next block.
#[inline(always)]
pub fn judge(chain: &[u8], way: Way<'_>, clock: Slot, before: Standing) -> Result<Standing, Refusal>
    requires { before.count.0 < spec.largest_count }
    ensures { told result ≡ spec.judged (way_of way.entry) clock.0 chain.now before }
{
    let (body, next) = block::read_body(chain, before.length)?;
    if !earlier(before.stamp, body.slot) {
        return Err(Refusal::BadStamp);
    }
    admit(way, clock, before.count, body.slot)?;
    join(chain, before, body, next)
}

// Whether a stamp is admitted: 7 and 8 from outside, 17 of what is held.
fn admit(way: Way<'_>, clock: Slot, count: BlockCount, stamp: Slot) -> Result<(), Refusal>
    ensures { told result ≡ spec.admitted (way_of way.entry) clock.0 count.0 stamp.0 }
{
    match way {
        Way::Delivered(_) if !earlier(stamp, clock) => Err(Refusal::LateStamp),
        Way::Delivered(verdicts) if !good_verdict(verdicts, count.0 as usize) => {
            Err(Refusal::BadVerdict)
        }
        Way::Held if earlier(clock, stamp) => Err(Refusal::BadHeld),
        Way::Delivered(_) | Way::Held => Ok(()),
    }
}

// Whether there is a verdict at a place, and it is 3. Verdicts are bytes beside the chain, since a host hands them in as C has them.
fn good_verdict(verdicts: &[u8], at: usize) -> bool
    ensures { result ≡ eqb (get_or verdicts.now at 0) 3 }
{
    verdicts.get(at) == Some(&3)
}

// Judges the link and the orders of a block that ends at `next`.
#[inline(always)]
fn join(chain: &[u8], before: Standing, body: Body, next: usize) -> Result<Standing, Refusal>
    requires { (before.count.0 < spec.largest_count) × (body_at chain.now before.length ≡ found (unlisted body.orders, body.slot.0) next) }
    ensures { told result ≡ then (block_at chain.now before.length) (spec.joining chain.now before) }
{
    if !sha256::stands_at(chain, before.length, before.link) {
        return Err(Refusal::BadLink);
    }
    let releases = obey(before.releases, body.orders.as_slice())?;
    Ok(Standing {
        count: BlockCount(before.count.0 + 1),
        length: next,
        stamp: body.slot,
        link: link_of(&chain[before.length..next]),
        releases,
    })
}

// The releases after orders that are taken one after the other, if each is valid.
fn obey(releases: [Release; 64], orders: &[Order]) -> Result<[Release; 64], Refusal>
    ensures { told result ≡ obeyed releases orders.now }
{
    let mut releases = releases;
    for order in orders {
        if !order::take(&mut releases, *order) {
            return Err(Refusal::BadOrder);
        }
    }
    Ok(releases)
}
