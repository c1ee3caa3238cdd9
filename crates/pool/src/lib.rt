// The order pool (01, "Pool an order"; 02, d, i and n): drop what no longer counts, add an order. The pieces: judge it, keep what counts, take what
// is valid, add a last entry.
#![tactic(auto)]

ghost use Rattle.std.specs.Prelude.{◌≡◌, true, ◌<◌, ◌≤◌, leb, get_or, length};
ghost use Rattle.std.specs.List.{list_all};
ghost use Rattle.refusal.specs.Answers.{told};
ghost use Rattle.laws.specs.Told.{given_as};
ghost use Rattle.chain.specs.Answers as answer;
ghost use Rattle.pool.specs.Pool as spec;
ghost use Rattle.pool.specs.Answers.{pool_or, taken_of};

use chain::{Opened, Refused, Summary};
use order::{Order, Release, Slot};
use refusal::Refusal;

// How many entries a pool has room for.
pub const ROOM: u32 = 64;

// Depots are those below this number.
pub const DEPOTS: u32 = 4;

// How many entries a depot may have: of those that count, and where an order is added of all.
pub const DEPOT_ROOM: u32 = 16;

#[repr(C)]
#[derive(Clone, Copy, Debug, PartialEq, Eq)]
pub struct Entry {
    pub order: Order,
    // the slot in which it was pooled
    pub slot: Slot,
    // the depot that offered it
    pub depot: u32,
}

// Written out, since a slot has no default to derive this from.
impl Default for Entry {
    ghost is_default = { λ entry. entry ≡ spec.no_entry };

    fn default() -> Entry {
        Entry {
            order: Order::default(),
            slot: Slot(0),
            depot: 0,
        }
    }
}

impl Entry {
    fn fits(&self, clock: Slot) -> bool
        ensures { result ≡ spec.entry_fits clock.0 self.now }
    {
        order::in_range(self.order) && self.depot < DEPOTS && order::in_run(self.slot, clock)
    }

    // Whether it still counts: nothing newer than it expects is settled for its display. One of no display counts, since there nothing is settled.
    fn counts(&self, settled: &[Release; 64]) -> bool
        ensures { result ≡ leb (get_or settled.now self.now.order.display 0) self.now.order.expected }
    {
        settled
            .get(self.order.display as usize)
            .is_none_or(|release| *release <= self.order.expected)
    }
}

// Any pool may be handed in. A count beside all its places, since it crosses to C as it is: the crate reads `present`.
#[repr(C)]
#[derive(Clone, Copy, Debug, PartialEq, Eq)]
pub struct Pool {
    pub count: u32,
    pub entries: [Entry; 64],
}

impl Pool {
    // The entries within the count.
    fn present(&self) -> &[Entry]
        ensures entries { result.now ≡ spec.entries_in self.now }
        ensures few { length result.now ≤ spec.room }
    {
        self.entries
            .get(..self.count as usize)
            .unwrap_or(&self.entries)
    }

    // Some entries, with zeros behind them.
    fn of(entries: &[Entry]) -> Pool
        requires { length entries.now ≤ spec.room }
        ensures { result ≡ spec.pool_of entries.now }
    {
        let mut all = [Entry::default(); 64];
        all[..entries.len()].copy_from_slice(entries);
        Pool {
            count: entries.len() as u32,
            entries: all,
        }
    }

    // Puts an entry behind those that are present.
    fn push(&mut self, entry: Entry)
        requires { self.old.count < spec.room }
        ensures { self.new ≡ spec.pushed self.old entry }
    {
        self.entries[self.count as usize] = entry;
        self.count += 1;
    }
}

// Orders that were taken, zeros behind them, and the releases after them. A count beside all the places, since memory is fixed.
#[derive(Debug, Drop, PartialEq, Eq)]
pub struct Taken {
    pub count: u32,
    pub orders: [Order; 64],
    pub releases: [Release; 64],
}

// Whether a pool is one that the calls go on with.
pub fn fits(opened: &Opened, held: &Summary, pool: &Pool) -> bool
    ensures { result ≡ spec.pool_fits opened.now held.now pool.now }
{
    entries_fit(opened.clock, pool) && shares_fit(counting(held, pool).present())
}

// Whether an order may be added to a pool: as before, but every entry that is present takes room.
fn present_fits(clock: Slot, pool: &Pool) -> bool
    ensures { result ≡ spec.present_fits clock.0 pool.now }
{
    entries_fit(clock, pool) && shares_fit(pool.present())
}

fn entries_fit(clock: Slot, pool: &Pool) -> bool
    ensures { result ≡ spec.entries_fit clock.0 pool.now }
{
    pool.count <= ROOM && all_fit(clock, pool.present())
}

// Whether each entry fits.
fn all_fit(clock: Slot, entries: &[Entry]) -> bool
    ensures { result ≡ list_all (spec.entry_fits clock.0) entries.now }
{
    entries.iter().all(|entry| entry.fits(clock))
}

// Whether no depot has more entries than its share.
fn shares_fit(entries: &[Entry]) -> bool
    ensures { result ≡ spec.shares_fit entries.now }
{
    (0..DEPOTS).all(|depot| of_depot(entries, depot) <= DEPOT_ROOM as usize)
}

// How many entries are a depot's.
fn of_depot(entries: &[Entry], depot: u32) -> usize
    ensures { result ≡ spec.share_of depot entries.now }
{
    entries.iter().filter(|entry| entry.depot == depot).count()
}

// The entries that count, in their order.
#[tactic(auto, using(crate::proofs::Pools::kept_few, crate::proofs::Pools::kept_more))]
pub fn counting(held: &Summary, pool: &Pool) -> Pool
    ensures { result ≡ spec.pool_of (spec.counting held.now pool.now) }
{
    let mut kept = Pool::of(&[]);
    for entry in pool.present() {
        if entry.counts(&held.settled.releases) {
            kept.push(*entry);
        }
    }
    kept
}

// Takes the orders of a pool one after the other, each that is valid at that point, until so many are taken.
#[tactic(auto, using(crate::proofs::Pools::none_taken, crate::proofs::Pools::few_taken, crate::proofs::Pools::more_taken))]
pub fn take(pool: &Pool, releases: [Release; 64], limit: u32) -> Taken
    ensures { result ≡ taken_of (spec.taking limit releases (spec.orders_of (spec.entries_in pool.now))) }
{
    let mut taken = Taken {
        count: 0,
        orders: [Order::default(); 64],
        releases,
    };
    for entry in pool.present() {
        if taken.count < limit && order::take(&mut taken.releases, entry.order) {
            taken.orders[taken.count as usize] = entry.order;
            taken.count += 1;
        }
    }
    taken
}

// Drops the entries that no longer count: 18 where the pool doesn't fit. A refusal leaves the pool as it came.
pub fn drop(
    genesis: &[u8],
    clock: Slot,
    held: &[u8],
    length: usize,
    pool: &mut Pool,
) -> Result<(), Refused>
    ensures answer { answer.told result ≡ given_as (λ _. tt) (spec.dropped genesis.now clock.0 held.now length pool.old) }
    ensures pool { pool.new ≡ pool_or pool.old (spec.dropped genesis.now clock.0 held.now length pool.old) }
{
    let (opened, summary) = chain::hold(genesis, clock, held, length)?;
    if !fits(&opened, &summary, &*pool) {
        return Err(Refusal::BadPool.into());
    }
    *pool = counting(&summary, &*pool);
    Ok(())
}

// Adds an order to the pool, and drops nothing. A refusal leaves the pool as it came.
pub fn add(
    genesis: &[u8],
    clock: Slot,
    held: &[u8],
    length: usize,
    pool: &mut Pool,
    order: Order,
    depot: u32,
) -> Result<(), Refused>
    ensures answer { answer.told result ≡ given_as (λ _. tt) (spec.added genesis.now clock.0 held.now length pool.old order depot) }
    ensures pool { pool.new ≡ pool_or pool.old (spec.added genesis.now clock.0 held.now length pool.old order depot) }
{
    let (opened, summary) = chain::hold(genesis, clock, held, length)?;
    if !present_fits(opened.clock, &*pool) {
        return Err(Refusal::BadPool.into());
    }
    Ok(join(&opened, &summary, pool, order, depot)?)
}

// An order behind the entries that are present: 5, 14, 20. A depot with room in its share has room in the pool: 13 can't occur.
#[tactic(auto, using(crate::proofs::Joining::entries_of, crate::proofs::Joining::room_for_one, crate::proofs::Joining::joins))]
fn join(
    opened: &Opened,
    held: &Summary,
    pool: &mut Pool,
    order: Order,
    depot: u32,
) -> Result<(), Refusal>
    requires { spec.present_fits opened.now.clock.0 pool.old ≡ true }
    ensures answer { told result ≡ given_as (λ _. tt) (spec.joined opened.now held.now (spec.counting held.now pool.old) (spec.entries_in pool.old) order depot) }
    ensures pool { pool.new ≡ pool_or pool.old (spec.joined opened.now held.now (spec.counting held.now pool.old) (spec.entries_in pool.old) order depot) }
{
    if !order::in_range(order) || DEPOTS <= depot {
        return Err(Refusal::OutOfRange);
    }
    let taken = take(&counting(held, &*pool), held.whole.releases, ROOM);
    if !order::valid(&taken.releases, order) {
        return Err(Refusal::BadOffer);
    }
    if DEPOT_ROOM as usize <= of_depot(pool.present(), depot) {
        return Err(Refusal::DepotFull);
    }
    *pool = Pool::of(pool.present());
    pool.push(Entry {
        order,
        slot: opened.clock,
        depot,
    });
    Ok(())
}
