// Orders on the releases of 64 displays (01, "Orders, blocks, chains"), and the two kinds of number that are never mixed.
#![tactic(auto)]

ghost use Rattle.std.specs.Prelude.{◌≡◌, ◌+◌, ◌-◌, ltb};
ghost use Rattle.laws.specs.Every as spec;
ghost use Rattle.order.specs.Order.{order_in_range, valid as is_valid, taken};

use number::{LARGEST, Number};

// A slot, or a block's slot stamp.
#[repr(C)]
#[derive(Clone, Copy, Debug, PartialEq, Eq, PartialOrd, Ord)]
pub struct Slot(pub u32);

// A number of blocks.
#[repr(C)]
#[derive(Clone, Copy, Debug, PartialEq, Eq, PartialOrd, Ord)]
pub struct BlockCount(pub u32);

// Outside this crate no slot and no count is unwrapped to be compared, so that a stamp where a count is meant is an error of types.

// Whether a chain of `count` blocks has more than one of `than`. This and `earlier` stay two functions: 01 keeps a count and a stamp apart.
pub fn more(count: BlockCount, than: BlockCount) -> bool
    ensures { result ≡ ltb than.0 count.0 }
{
    than < count
}

pub fn earlier(slot: Slot, than: Slot) -> bool
    ensures { result ≡ ltb slot.0 than.0 }
{
    slot < than
}

// Whether a slot is one of those from 1 to a last one.
pub fn in_run(slot: Slot, last: Slot) -> bool
    ensures { result ≡ spec.within 1 last.0 slot.0 }
{
    within(1, slot.0 as Number, last.0 as Number)
}

// Whether a number lies in a range.
pub fn within(least: Number, value: Number, most: Number) -> bool
    ensures { result ≡ spec.within least most value }
{
    (least..=most).contains(&value)
}

// How many slots from 1 on lie before one. Slot 0 is answered as slot 1 is.
pub fn slots_before(slot: Slot) -> u32
    ensures { result ≡ slot.0 - 1 }
{
    slot.0.saturating_sub(1)
}

// Whether a slot lies more than so many slots before the clock's. The difference is taken, since a sum might not fit. No slot lies before one
// that is later than it.
pub fn more_slots_ago(slot: Slot, slots: u64, clock: Slot) -> bool
    ensures { result ≡ ltb (slot.0 + slots) clock.0 }
{
    slots < clock.0.saturating_sub(slot.0) as u64
}

// A layout release, at most the largest number.
pub type Release = Number;

pub const DISPLAYS: usize = 64;

pub const LAST_DISPLAY: u32 = 63;

// The last slot of a run.
pub const LAST_SLOT: u32 = 256;

#[repr(C)]
#[derive(Clone, Copy, Debug, Default, PartialEq, Eq)]
pub struct Order {
    pub display: u32,
    // the release that the display is to have before
    pub expected: Release,
    // and the one that it is to have then
    pub new: Release,
}

// Whether an order can be written: its display is one, and its releases are numbers.
pub fn in_range(order: Order) -> bool
    ensures { result ≡ order_in_range order }
{
    order.display <= LAST_DISPLAY && order.expected <= LARGEST && order.new <= LARGEST
}

pub fn valid(releases: &[Release; 64], order: Order) -> bool
    ensures { result ≡ is_valid releases.now order }
{
    releases.get(order.display as usize) == Some(&order.expected) && order.expected < order.new
}

// Takes an order if it is valid, and says whether it was.
pub fn take(releases: &mut [Release; 64], order: Order) -> bool
    ensures value { result ≡ is_valid releases.old order }
    ensures releases_after { releases.new ≡ taken releases.old order }
{
    let valid = valid(&*releases, order);
    if valid {
        releases[order.display as usize] = order.new;
    }
    valid
}
