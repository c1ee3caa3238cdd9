// Single blocks, read: `block`, and `body` for what judging one needs.
use crate::fields::Case;
use crate::print::{Shown, refused};
use console::say;

// block BYTES AT
pub fn block(rt: &impl Print, case: &Case) {
    match block::read(case.string(1), case.place(2)) {
        Ok((block, next)) => say(rt, format_args!("{} next {next}", Shown(&block))),
        Err(refusal) => refused(rt, refusal),
    }
}

// body BYTES AT
pub fn body(rt: &impl Print, case: &Case) {
    match block::read_body(case.string(1), case.place(2)) {
        Ok((body, next)) => {
            let (orders, slot) = (Shown(&body.orders), body.slot.0);
            say(rt, format_args!("{orders} slot {slot} next {next}"));
        }
        Err(refusal) => refused(rt, refusal),
    }
}
