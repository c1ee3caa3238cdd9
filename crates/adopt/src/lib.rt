// The rule that decides between two chains (01, "Adopt"): more blocks, and nothing else. Block counts alone are compared, never stamps.
#![tactic(auto)]

ghost use Rattle.std.specs.Prelude.{◌≡◌};
ghost use Rattle.laws.specs.Told.{given_as};
ghost use Rattle.chain.specs.Chain as chain;
ghost use Rattle.chain.specs.Answers.{told};
ghost use Rattle.adopt.specs.Adopt as spec;
ghost use Rattle.adopt.specs.Answers.{count_held, adopted_held};

use chain::{Opened, Refused};
use order::{BlockCount, Slot, more};
use refusal::Refusal;

// What adoption leaves: the held chain's length from then on, and its block count.
#[derive(Clone, Copy, Debug, PartialEq, Eq)]
pub struct Adopted {
    pub length: usize,
    pub count: BlockCount,
}

// The judgement behind the choice and adoption: the block count of a delivered chain that replaces the held one. That is the first bytes of a buffer.
#[tactic(auto, unfolding(crate::specs::Adopt::accepted))]
pub fn judge(
    genesis: &[u8],
    clock: Slot,
    held: &[u8],
    length: usize,
    delivered: &[u8],
    verdicts: &[u8],
) -> Result<BlockCount, Refused>
    ensures { told result ≡ given_as count_held
        (spec.accepted genesis.now clock.0 held.now length delivered.now verdicts.now) }
{
    let (opened, summary) = chain::hold(genesis, clock, held, length)?;
    against(opened, summary.whole.count, delivered, verdicts)
}

// A delivered chain against the held one's block count.
fn against(
    opened: Opened,
    held: BlockCount,
    delivered: &[u8],
    verdicts: &[u8],
) -> Result<BlockCount, Refused>
    ensures { told result ≡ given_as count_held (spec.longer held.0 (chain.delivered_chain opened delivered.now verdicts.now)) }
{
    let whole = chain::delivered(opened, delivered, verdicts)?.whole;
    if !more(whole.count, held) {
        return Err(Refusal::NotLonger.into());
    }
    Ok(whole.count)
}

// The choice itself, before any byte is copied: the delivered chain if it is accepted, else the held one, and beside it the judgement.
pub fn choose<'a>(
    genesis: &[u8],
    clock: Slot,
    held: &'a [u8],
    delivered: &'a [u8],
    verdicts: &[u8],
) -> (&'a [u8], Result<BlockCount, Refused>)
    ensures slice { result.0 ≡ spec.chosen
        (spec.choice genesis.now clock.0 held.now delivered.now verdicts.now)
        held.entry delivered.entry }
    ensures judgement { told result.1 ≡ given_as count_held
        (spec.choice genesis.now clock.0 held.now delivered.now verdicts.now) }
{
    let judgement = judge(genesis, clock, held, held.len(), delivered, verdicts);
    let chosen = match judgement {
        Ok(_) => delivered,
        Err(_) => held,
    };
    (chosen, judgement)
}

// Puts a delivered chain in the place of the held one, if it is accepted. A refusal leaves the held one, and its length, as they were.
pub fn adopt(
    genesis: &[u8],
    clock: Slot,
    held: &mut [u8],
    length: usize,
    delivered: &[u8],
    verdicts: &[u8],
) -> Result<Adopted, Refused>
    ensures answer { told result ≡ given_as adopted_held (spec.adopted
        (spec.accepted genesis.now clock.0 held.old length delivered.now verdicts.now)
        held.old delivered.now) }
    ensures held { held.new ≡ spec.adopting
        (spec.accepted genesis.now clock.0 held.old length delivered.now verdicts.now)
        held.old delivered.now }
{
    let count = judge(genesis, clock, &*held, length, delivered, verdicts)?;
    let length = buffer::put(held, 0, delivered)?;
    Ok(Adopted { length, count })
}
