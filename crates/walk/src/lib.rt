// A walk over a chain (01, "Orders, blocks, chains"): one step on a slice and a place, and the thin struct that holds the two.
#![tactic(auto)]

ghost use Rattle.std.specs.Prelude.{◌≡◌};
ghost use Rattle.laws.specs.Told.{given_as};
ghost use Rattle.refusal.specs.Answers.{told};
ghost use Rattle.walk.specs.Walk.{step_at, place_after, held, block_of};

use block::Block;
use refusal::Refusal;

// The next block and the place after it, or none at the end.
pub fn step(chain: &[u8], at: usize) -> Result<Option<(Block, usize)>, Refusal>
    ensures { told result ≡ given_as held (step_at chain.now at) }
{
    if chain.len() <= at {
        return Ok(None);
    }
    let found = block::read(chain, at)?;
    Ok(Some(found))
}

// The place after a step.
pub fn place_after(chain: &[u8], at: usize) -> usize
    ensures { result ≡ place_after at (step_at chain.now at) }
{
    match step(chain, at) {
        Ok(Some((_, next))) => next,
        Ok(None) | Err(_) => at,
    }
}

// The chain that is read, and the place that is reached.
#[derive(Clone, Copy, Debug)]
pub struct Walk<'a> {
    pub chain: &'a [u8],
    pub at: usize,
}

impl<'a> Walk<'a> {
    pub fn new(chain: &'a [u8], at: usize) -> Walk<'a>
        ensures { (result.chain ≡ chain.entry) × (result.at ≡ at) }
    {
        Walk { chain, at }
    }

    // The next block, or none at the end. The walk moves behind the block: after the end and after a refusal it stays where it is.
    pub fn next(&mut self) -> Result<Option<Block>, Refusal>
        ensures answer { told result ≡ given_as block_of (step_at self.old.chain.now self.old.at) }
        ensures chain { self.new.chain ≡ self.old.chain }
        ensures place { self.new.at ≡ place_after self.old.at (step_at self.old.chain.now self.old.at) }
    {
        let Some((block, next)) = step(self.chain, self.at)? else {
            return Ok(None);
        };
        self.at = next;
        Ok(Some(block))
    }
}

// What a walk that begins at a place meets first, and the place after it. This and `walked_on` stay two: the theorem on no second answer is on each.
pub fn walked(chain: &[u8], at: usize) -> Result<Option<(Block, usize)>, Refusal>
    ensures { told result ≡ given_as held (step_at chain.now at) }
{
    let walk = Walk::new(chain, at);
    step(walk.chain, walk.at)
}

// What it meets then.
pub fn walked_on(chain: &[u8], at: usize) -> Result<Option<(Block, usize)>, Refusal>
    ensures { told result ≡ given_as held (step_at chain.now (place_after at (step_at chain.now at))) }
{
    let mut walk = Walk::new(chain, at);
    let _ = walk.next();
    step(walk.chain, walk.at)
}
