// One block (01, "Orders, blocks, chains"): read at a place of a slice, written into a lent buffer, and the text of its slot that a host signs.
#![tactic(auto)]

mod reading;
mod writing;

ghost use Rattle.std.specs.Prelude.{◌≡◌};
ghost use Rattle.laws.specs.Told.{found_as};
ghost use Rattle.refusal.specs.Answers.{told_found};
ghost use Rattle.block.specs.Answers.{unlisted};
ghost use Rattle.block.specs.Block.{block_at};
ghost use Rattle.block.specs.Blocks.{block_in, no_parts};

use order::{LAST_SLOT, Order, Slot};
pub use reading::read_body;
use reading::{read_bytes, read_number_in, read_orders};
use refusal::Refusal;
pub use writing::{length, slot_text, write, write_front};

pub const LINK_BYTES: usize = 32;

pub const SIGNATURE_BYTES: usize = 64;

// The orders of a block: the first `count` of the list. Those that are read or drafted have zeros behind. A count and a list, since it crosses to C.
#[repr(C)]
#[derive(Clone, Copy, Debug, Default, PartialEq, Eq)]
pub struct Orders {
    pub count: u32,
    pub list: [Order; 8],
}

impl Orders {
    pub fn as_slice(&self) -> &[Order]
        ensures { result.now ≡ unlisted self.now }
    {
        &self.list[..self.count.min(8) as usize]
    }
}

// A block without its last 64 bytes.
#[repr(C)]
#[derive(Clone, Copy, Debug, PartialEq, Eq)]
pub struct Front {
    pub link: [u8; 32],
    pub orders: Orders,
    pub slot: Slot,
    pub slot_signature: [u8; 64],
}

#[repr(C)]
#[derive(Clone, Copy, Debug, PartialEq, Eq)]
pub struct Block {
    pub front: Front,
    pub block_signature: [u8; 64],
}

// What judging a block needs of it.
#[derive(Clone, Copy, Debug, PartialEq, Eq)]
pub struct Body {
    pub orders: Orders,
    pub slot: Slot,
}

// A block, and the place after it. Put in at every call, so that it is copied once less on its way.
#[inline(always)]
#[tactic(auto, using(crate::proofs::Bodies::block_is_held))]
pub fn read(s: &[u8], at: usize) -> Result<(Block, usize), Refusal>
    ensures { told_found result ≡ found_as block_in (block_at s.now at) }
{
    let (link, at) = read_bytes(s, at)?;
    let (orders, at) = read_orders(s, at)?;
    let (slot, at) = read_number_in(s, at, 1, LAST_SLOT)?;
    let (slot_signature, at) = read_bytes(s, at)?;
    let (block_signature, at) = read_bytes(s, at)?;
    let block = Block {
        front: Front {
            link,
            orders,
            slot: Slot(slot),
            slot_signature,
        },
        block_signature,
    };
    Ok((block, at))
}

// What a host is given where there is no block: zeros.
pub fn none() -> Block
    ensures { result ≡ block_in no_parts }
{
    Block {
        front: Front {
            link: [0; 32],
            orders: Orders::default(),
            slot: Slot(0),
            slot_signature: [0; 64],
        },
        block_signature: [0; 64],
    }
}
