// Chains (01, "The calls"): what every call opens with, the check of a delivered chain, and the summary of a held one.
#![tactic(auto)]

mod judge;
mod pass;
mod refused;

ghost use Rattle.std.specs.Prelude.{◌≡◌};
ghost use Rattle.laws.specs.Told.{given_as};
ghost use Rattle.refusal.specs.Answers.{told};
ghost use Rattle.chain.specs.Chain as spec;
ghost use Rattle.chain.specs.Answers as answer;

use genesis::Genesis;
use order::{BlockCount, Release, Slot};
use pass::pass;
use refusal::Refusal;
pub use refused::Refused;

// The most bytes that a chain has.
pub const LONGEST: usize = 64256;

// The genesis table, the link that the first block carries, and the slot of a call.
#[derive(Clone, Copy, Debug, PartialEq, Eq)]
pub struct Opened {
    pub table: Genesis,
    pub link: [u8; 32],
    pub clock: Slot,
}

// What the blocks of a chain, from the first to one of them, come to.
#[derive(Clone, Copy, Debug, PartialEq, Eq)]
pub struct Standing {
    pub count: BlockCount,
    // how many bytes they take
    pub length: usize,
    // the last one's stamp, 0 if there is none
    pub stamp: Slot,
    // the link that the next block carries
    pub link: [u8; 32],
    // the releases after them
    pub releases: [Release; 64],
}

// All blocks of a chain, and those of them that are settled.
#[derive(Clone, Copy, Debug, PartialEq, Eq)]
pub struct Summary {
    pub whole: Standing,
    pub settled: Standing,
}

// How a chain comes to a call: from outside, with its verdicts, or as what is held.
#[derive(Clone, Copy, Debug)]
pub enum Way<'a> {
    Delivered(&'a [u8]),
    Held,
}

// What the check of a chain answers.
#[derive(Clone, Copy, Debug, PartialEq, Eq)]
pub struct Checked {
    pub count: BlockCount,
    pub releases: [Release; 64],
}

// What every call begins with: 1, then 2.
pub fn open(genesis: &[u8], clock: Slot) -> Result<Opened, Refusal>
    ensures { told result ≡ spec.opened genesis.now clock.0 }
{
    let table = genesis::read(genesis)?;
    if !genesis::clock_fits(table, clock) {
        return Err(Refusal::BadClock);
    }
    let link = link_of(genesis);
    Ok(Opened { table, link, clock })
}

// The digest that the next block carries. No block and no genesis is too long to have one: what is has zeros.
fn link_of(bytes: &[u8]) -> [u8; 32]
    ensures { result ≡ spec.link_of bytes.now }
{
    sha256::digest(bytes).unwrap_or([0; 32])
}

// A delivered chain: 16, then its blocks one by one.
#[inline(always)]
#[tactic(auto, unfolding(crate::specs::Chain::delivered_chain))]
pub fn delivered(opened: Opened, chain: &[u8], verdicts: &[u8]) -> Result<Summary, Refused>
    ensures { answer.told result ≡ spec.delivered_chain opened chain.now verdicts.now }
{
    if LONGEST < chain.len() {
        return Err(Refusal::TooLong.into());
    }
    pass(chain, Way::Delivered(verdicts), opened)
}

// The chain that is held in the first bytes of a buffer: whatever is wrong with it is 17, with the place of its first bad block.
#[tactic(auto, unfolding(crate::specs::Chain::held_chain))]
pub fn held(opened: Opened, buffer: &[u8], length: usize) -> Result<Summary, Refused>
    ensures { answer.told result ≡ spec.held_chain opened buffer.now length }
{
    if buffer.len() < length || LONGEST < length {
        return Err(Refusal::BadHeld.into());
    }
    match pass(&buffer[..length], Way::Held, opened) {
        Ok(summary) => Ok(summary),
        Err(refused) => Err(Refused {
            refusal: Refusal::BadHeld,
            place: refused.place,
        }),
    }
}

// What every call on a held chain begins with: 1, 2, 17.
#[inline(always)]
pub fn hold(
    genesis: &[u8],
    clock: Slot,
    buffer: &[u8],
    length: usize,
) -> Result<(Opened, Summary), Refused>
    ensures { answer.told result ≡ spec.holding genesis.now clock.0 buffer.now length }
{
    let opened = open(genesis, clock)?;
    let summary = held(opened, buffer, length)?;
    Ok((opened, summary))
}

// Checks a chain at the slot of the clock.
pub fn check(genesis: &[u8], clock: Slot, chain: &[u8], verdicts: &[u8]) -> Result<Checked, Refused>
    ensures { answer.told result ≡ given_as answer.end_held (spec.checked genesis.now clock.0 chain.now verdicts.now) }
{
    let opened = open(genesis, clock)?;
    let whole = delivered(opened, chain, verdicts)?.whole;
    Ok(Checked {
        count: whole.count,
        releases: whole.releases,
    })
}
