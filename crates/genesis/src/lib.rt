// The genesis table (01, "Genesis"): read as a whole or refused as a whole, and the two rules that hang on it, whose turn a slot is and how deep
// a block must lie to be settled.
#![tactic(auto)]

mod sheet;

ghost use Rattle.std.specs.Prelude.{◌≡◌, ◌+◌, ◌*◌};
ghost use Rattle.laws.specs.Repeated.{repeated};
ghost use Rattle.number.specs.Number.{number_at};
ghost use Rattle.genesis.specs.Genesis as spec;
ghost use Rattle.refusal.specs.Answers.{told, told_found};
ghost use Rattle.genesis.specs.Answers.{no_table};

use number::Number;
use order::{LAST_SLOT, Release, Slot, in_run, slots_before, within};
use refusal::Refusal;

pub const KEY_BYTES: usize = 32;

// The table. `keys_at` is the place of the first key in its bytes: a slice of them can't cross to C.
#[repr(C)]
#[derive(Clone, Copy, Debug, PartialEq, Eq)]
pub struct Genesis {
    pub n: u32,
    pub t: u32,
    pub u: u32,
    pub releases: [Release; 64],
    pub keys_at: usize,
}

#[inline(always)]
#[tactic(auto, unfolding(crate::specs::Genesis::genesis_of))]
pub fn read(bytes: &[u8]) -> Result<Genesis, Refusal>
    ensures { told result ≡ spec.genesis_of bytes.now }
{
    match read_table(bytes) {
        Ok(table) => Ok(table),
        Err(_) => Err(Refusal::BadGenesis),
    }
}

// The table, if its numbers keep the rules and its keys end where they must, or the first fault, whatever it is. The releases are read here, so that
// no copy of them lies on the stack, and it is put in at every call, so that `find_key`, which needs none, keeps none.
#[inline(always)]
fn read_table(bytes: &[u8]) -> Result<Genesis, Refusal>
    ensures { told result ≡ spec.table_in bytes.now }
{
    let (head, at) = read_head(bytes)?;
    let mut releases = [0; 64];
    let mut keys_at = at;
    for release in &mut releases {
        (*release, keys_at) = number::read(bytes, keys_at)?;
    }
    if !rules(head) {
        return Err(Refusal::BadGenesis);
    }
    if !keys_end(bytes, keys_at, head.n as u32) {
        return Err(Refusal::BadGenesis);
    }
    Ok(Genesis {
        n: head.n as u32,
        t: head.t as u32,
        u: head.u as u32,
        releases,
        keys_at,
    })
}

// What stands before the releases, as it was read: no rule need hold of it.
#[derive(Clone, Copy)]
pub struct Head {
    pub n: Number,
    pub t: Number,
    pub u: Number,
}

fn read_head(bytes: &[u8]) -> Result<(Head, usize), Refusal>
    ensures { told_found result ≡ spec.head_at bytes.now }
{
    let (n, at) = number::read(bytes, 0)?;
    let (t, at) = number::read(bytes, at)?;
    let (u, at) = number::read(bytes, at)?;
    Ok((Head { n, t, u }, at))
}

fn rules(head: Head) -> bool
    ensures { result ≡ spec.rules head }
{
    enough(head.n, head.t) && within(1, head.u, 64)
}

// Whether there are controllers enough for t faulty ones.
fn enough(n: Number, t: Number) -> bool
    ensures { result ≡ spec.enough n t }
{
    within(1, n, 31) && t <= (n - 1) / 3
}

// Whether the bytes end with n keys that begin at a place.
fn keys_end(bytes: &[u8], keys: usize, n: u32) -> bool
    ensures { result ≡ spec.ended bytes.now (keys + 32 * n) }
{
    keys <= bytes.len() && bytes.len() - keys == KEY_BYTES * n as usize
}

// The table of zeros that a host is given beside a refusal.
pub fn none() -> Genesis
    ensures { result ≡ no_table }
{
    Genesis {
        n: 0,
        t: 0,
        u: 0,
        releases: [0; 64],
        keys_at: 0,
    }
}

// Whose turn a slot is: a controller, counted from 1, or 0 where the table has none. No `Option`: a host in C gets this number.
pub fn turn(table: Genesis, slot: Slot) -> u32
    ensures { result ≡ spec.turn table slot.0 }
{
    if table.n == 0 {
        return 0;
    }
    slots_before(slot) % table.n + 1
}

// Whether a slot is one that a clock may show.
pub fn clock_fits(table: Genesis, clock: Slot) -> bool
    ensures { result ≡ spec.clock_fits table clock.0 }
{
    in_run(clock, Slot(LAST_SLOT))
}

// A block is settled when it lies more than so many slots back. 0 for numbers that no genesis gives. No `Option`: a host in C gets this number.
pub fn depth(table: Genesis) -> u64
    ensures { result ≡ spec.depth table }
{
    sheet::depth_of(table.n, table.t) as u64
}

// Where a controller's key is.
pub fn find_key(bytes: &[u8], controller: u32) -> Result<usize, Refusal>
    ensures { told result ≡ spec.key_at bytes.now controller }
{
    let table = read(bytes)?;
    if !within(1, controller as Number, table.n as Number) {
        return Err(Refusal::WrongController);
    }
    Ok(table.keys_at + KEY_BYTES * (controller as usize - 1))
}
