// A block written from its parts (01: "5, then 15"), and the slot text ("2, then 15").
ghost use Rattle.std.specs.Prelude.{◌≡◌, true, ◌+◌, ◌≤◌, ◌++◌, length};
ghost use Rattle.std.specs.List.{list_all};
ghost use Rattle.laws.specs.Pick.{pick};
ghost use Rattle.laws.specs.Every.{within};
ghost use Rattle.laws.specs.Placed.{placed_if, placing_if, Room, Wrote};
ghost use Rattle.number.specs.Number.{largest, written};
ghost use Rattle.order.specs.Order.{order_in_range};
ghost use Rattle.refusal.specs.Answers.{told};
ghost use Rattle.block.specs.Block.{order_bytes, orders_bytes, block_bytes};
ghost use Rattle.block.specs.Answers.{unlisted};
ghost use Rattle.block.specs.Blocks.{parts_in, in_range, block_length, front_fits, front_of, slot_text};

use crate::{Block, Front, LINK_BYTES, Orders, SIGNATURE_BYTES};
use buffer::fits;
use number::Number;
use order::{LAST_SLOT, Order, Slot, in_run};
use refusal::Refusal;

// Writes a block, and answers the place after it.
#[tactic(auto, unfolding(crate::specs::Block::block_bytes))]
pub fn write(out: &mut [u8], at: usize, block: Block) -> Result<usize, Refusal>
    ensures answer { told result ≡ placed_if (front_fits block.front) 5 out.old at (block_bytes (parts_in block)) }
    ensures buffer { out.new ≡ placing_if (front_fits block.front) out.old at (block_bytes (parts_in block)) }
{
    write_with(out, at, &block.front, &block.block_signature)
}

// Writes a block without its last 64 bytes, and answers the place after it.
pub fn write_front(out: &mut [u8], at: usize, front: Front) -> Result<usize, Refusal>
    ensures answer { told result ≡ placed_if (front_fits front) 5 out.old at (front_of front) }
    ensures buffer { out.new ≡ placing_if (front_fits front) out.old at (front_of front) }
{
    write_with(out, at, &front, &[])
}

// Writes a front and so many bytes behind it, if there is room for both.
fn write_with<const N: usize>(
    out: &mut [u8],
    at: usize,
    front: &Front,
    behind: &[u8; N],
) -> Result<usize, Refusal>
    requires { length behind.now ≤ 64 }
    ensures answer { told result ≡ placed_if (front_fits front.now) 5 out.old at (front_of front.now ++ behind.now) }
    ensures buffer { out.new ≡ placing_if (front_fits front.now) out.old at (front_of front.now ++ behind.now) }
{
    if !in_range(&front.orders, front.slot) {
        return Err(Refusal::OutOfRange);
    }
    if !fits(out.len(), at, length_with(front, behind)) {
        return Err(Refusal::ShortBuffer);
    }
    let end = put_front(out, at, front);
    Ok(put_bytes(out, end, behind))
}

// Writes the text of a slot that a host signs, and answers the place after it.
pub fn slot_text(out: &mut [u8], slot: Slot) -> Result<usize, Refusal>
    ensures answer { told result ≡ placed_if (within 1 256 slot.0) 2 out.old 0 (slot_text slot.0) }
    ensures buffer { out.new ≡ placing_if (within 1 256 slot.0) out.old 0 (slot_text slot.0) }
{
    if !in_run(slot, Slot(LAST_SLOT)) {
        return Err(Refusal::BadClock);
    }
    let letters = b"slot";
    let number = slot.0 as Number;
    if !fits(out.len(), 0, letters.len() + number::length(number)) {
        return Err(Refusal::ShortBuffer);
    }
    let end = put_bytes(out, 0, letters);
    Ok(put_number(out, end, number))
}

// How many bytes a block with these orders and this slot takes: 0 if there is no such block. No `Option`: 0 is what the call has promised.
pub fn length(orders: Orders, slot: Slot) -> usize
    ensures { result ≡ pick (in_range orders slot.0) (block_length (unlisted orders) slot.0) 0 }
{
    if !in_range(&orders, slot) {
        return 0;
    }
    front_length(orders.as_slice(), slot) + SIGNATURE_BYTES
}

// Whether the orders and the slot lie in their ranges.
fn in_range(orders: &Orders, slot: Slot) -> bool
    ensures { result ≡ in_range orders.now slot.0 }
{
    orders.count <= 8 && orders_in_range(orders.as_slice()) && in_run(slot, Slot(LAST_SLOT))
}

fn orders_in_range(orders: &[Order]) -> bool
    ensures { result ≡ list_all order_in_range orders.now }
{
    orders.iter().all(|order| order::in_range(*order))
}

// How many bytes a front takes with those behind it.
fn length_with(front: &Front, behind: &[u8]) -> usize
    requires { (front_fits front.now ≡ true) × (length behind.now ≤ 64) }
    ensures { result ≡ length (front_of front.now ++ behind.now) }
{
    front_length(front.orders.as_slice(), front.slot) + behind.len()
}

// How many bytes the front of a block takes.
fn front_length(orders: &[Order], slot: Slot) -> usize
    requires { length orders.now ≤ 8 }
    ensures { (result ≡ 32 + (length (orders_bytes orders.now) + (length (written slot.0) + 64))) × (result ≤ 226) }
{
    let stamp = number::length(slot.0 as Number);
    LINK_BYTES + orders_length(orders) + stamp + SIGNATURE_BYTES
}

fn orders_length(orders: &[Order]) -> usize
    requires { length orders.now ≤ 8 }
    ensures { (result ≡ length (orders_bytes orders.now)) × (result ≤ 125) }
{
    let mut size = number::length(orders.len() as Number);
    for order in orders {
        size += order_length(*order);
    }
    size
}

fn order_length(order: Order) -> usize
    ensures { (result ≡ length (order_bytes order)) × (result ≤ 15) }
{
    let releases = number::length(order.expected) + number::length(order.new);
    number::length(order.display as Number) + releases
}

// These write where there is room, at a place, and answer the next one. No writer that holds buffer and place: the calls have the two, and `let at`
// says as much in a line. `Room` is of the bytes to come, so no type can keep it.
fn put_front(out: &mut [u8], at: usize, front: &Front) -> usize
    requires { (front_fits front.now ≡ true) × Room out.old at (front_of front.now) }
    ensures { Wrote out.old at (front_of front.now) result out.new }
{
    let at = put_bytes(out, at, &front.link);
    let at = put_orders(out, at, front.orders.as_slice());
    let at = put_number(out, at, front.slot.0 as Number);
    put_bytes(out, at, &front.slot_signature)
}

fn put_orders(out: &mut [u8], at: usize, orders: &[Order]) -> usize
    requires { (length orders.now ≤ 8) × (list_all order_in_range orders.now ≡ true) × Room out.old at (orders_bytes orders.now) }
    ensures { Wrote out.old at (orders_bytes orders.now) result out.new }
{
    let mut place = put_number(out, at, orders.len() as Number);
    for order in orders {
        place = put_order(out, place, *order);
    }
    place
}

fn put_order(out: &mut [u8], at: usize, order: Order) -> usize
    requires { (order_in_range order ≡ true) × Room out.old at (order_bytes order) }
    ensures { Wrote out.old at (order_bytes order) result out.new }
{
    let at = put_number(out, at, order.display as Number);
    let at = put_number(out, at, order.expected);
    put_number(out, at, order.new)
}

fn put_number(out: &mut [u8], at: usize, value: Number) -> usize
    requires { (value ≤ largest) × Room out.old at (written value) }
    ensures { Wrote out.old at (written value) result out.new }
{
    number::write(out, at, value).unwrap()
}

fn put_bytes(out: &mut [u8], at: usize, bytes: &[u8]) -> usize
    requires { Room out.old at bytes.now }
    ensures { Wrote out.old at bytes.now result out.new }
{
    buffer::put(out, at, bytes).unwrap()
}
