// Entries dropped from a pool, and orders added to it: `drop`, `add`. What is printed ends with the pool as it then is, entries past its count that are
// not of zeros too.
use crate::fields::Case;
use crate::print::Shown;
use chain::Refused;
use console::say;
use pool::Pool;

// drop GENESIS NOW HELD LENGTH COUNT DISPLAY EXPECTED NEW SLOT DEPOT ..
pub fn drop(rt: &impl Print, case: &Case) {
    let mut pool = case.fields(5).pool();
    let dropped = pool::drop(
        case.string(1),
        case.slot(2),
        case.string(3),
        case.place(4),
        &mut pool,
    );
    pooled(rt, dropped, &pool);
}

// add GENESIS NOW HELD LENGTH DISPLAY EXPECTED NEW DEPOT COUNT DISPLAY EXPECTED NEW SLOT DEPOT ..
pub fn add(rt: &impl Print, case: &Case) {
    let mut pool = case.fields(9).pool();
    let added = pool::add(
        case.string(1),
        case.slot(2),
        case.string(3),
        case.place(4),
        &mut pool,
        case.fields(5).order(),
        case.number(8),
    );
    pooled(rt, added, &pool);
}

fn pooled(rt: &impl Print, answer: Result<(), Refused>, pool: &Pool) {
    match answer {
        Ok(()) => say(rt, Shown(pool)),
        Err(refused) => say(rt, format_args!("{refused} {}", Shown(pool))),
    }
}
