// A block's parts, in byte order. Each is read at a place and answers the next one, as the calls do: a reader that holds the two would be no plainer
// where `?` hands on both.
ghost use Rattle.std.specs.Prelude.{◌≡◌, ◌≤◌};
ghost use Rattle.laws.specs.Told.{found_as};
ghost use Rattle.laws.specs.Bytes.{bytes_at};
ghost use Rattle.laws.specs.Repeated.{repeated};
ghost use Rattle.refusal.specs.Answers.{told, told_found};
ghost use Rattle.block.specs.Block.{number_in, order_at, orders_at};
ghost use Rattle.block.specs.Answers.{listed, body_of};
ghost use Rattle.block.specs.Steps.{body_at, skipped};

use crate::{Body, LINK_BYTES, Orders, SIGNATURE_BYTES};
use buffer::fits;
use number::Number;
use order::{LAST_DISPLAY, LAST_SLOT, Order, Slot, within};
use refusal::Refusal;

// So many bytes, and the place after them.
pub fn read_bytes<const N: usize>(s: &[u8], at: usize) -> Result<([u8; N], usize), Refusal>
    ensures { told_found result ≡ bytes_at N s.now at }
{
    let end = skip(s, at, N)?;
    let mut bytes = [0; N];
    bytes.copy_from_slice(&s[at..end]);
    Ok((bytes, end))
}

// The place after so many bytes.
fn skip(s: &[u8], at: usize, size: usize) -> Result<usize, Refusal>
    ensures { told result ≡ skipped size s.now at }
{
    if !fits(s.len(), at, size) {
        return Err(Refusal::Cut);
    }
    Ok(at + size)
}

// A number that lies in a range, and the place after it.
pub fn read_number_in(s: &[u8], at: usize, least: u32, most: u32) -> Result<(u32, usize), Refusal>
    ensures { told_found result ≡ number_in least most s.now at }
{
    let (value, next) = number::read(s, at)?;
    if !within(least as Number, value, most as Number) {
        return Err(Refusal::OutOfRange);
    }
    // no `try_from`: the range was judged, and it would judge it again
    Ok((value as u32, next))
}

fn read_order(s: &[u8], at: usize) -> Result<(Order, usize), Refusal>
    ensures { told_found result ≡ order_at s.now at }
{
    let (display, at) = read_number_in(s, at, 0, LAST_DISPLAY)?;
    let (expected, at) = number::read(s, at)?;
    let (new, at) = number::read(s, at)?;
    let order = Order {
        display,
        expected,
        new,
    };
    Ok((order, at))
}

pub fn read_orders(s: &[u8], at: usize) -> Result<(Orders, usize), Refusal>
    ensures { told_found result ≡ found_as listed (orders_at s.now at) }
{
    let (count, at) = read_number_in(s, at, 0, 8)?;
    read_listed(s, at, count)
}

fn read_listed(s: &[u8], at: usize, count: u32) -> Result<(Orders, usize), Refusal>
    requires { count ≤ 8 }
    ensures { told_found result ≡ found_as listed (repeated order_at count s.now at) }
{
    let mut list = [Order::default(); 8];
    let mut place = at;
    for order in &mut list[..count as usize] {
        (*order, place) = read_order(s, place)?;
    }
    Ok((Orders { count, list }, place))
}

// What judging a block needs of it, and the place after it: no link and no signature is copied.
#[tactic(auto, using(crate::proofs::Bodies::body_is_held))]
pub fn read_body(s: &[u8], at: usize) -> Result<(Body, usize), Refusal>
    ensures { told_found result ≡ found_as body_of (body_at s.now at) }
{
    let at = skip(s, at, LINK_BYTES)?;
    let (orders, at) = read_orders(s, at)?;
    let (slot, at) = read_number_in(s, at, 1, LAST_SLOT)?;
    let at = skip(s, at, SIGNATURE_BYTES)?;
    let at = skip(s, at, SIGNATURE_BYTES)?;
    let body = Body {
        orders,
        slot: Slot(slot),
    };
    Ok((body, at))
}
