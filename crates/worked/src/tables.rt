// Genesis tables, and what hangs on one: `genesis`, `turn`, `depth`, `key`.
use crate::fields::Case;
use crate::print::{Bytes, Shown, refused};
use console::say;
use genesis::KEY_BYTES;

// genesis BYTES
pub fn genesis(rt: &impl Print, case: &Case) {
    match genesis::read(case.string(1)) {
        Ok(table) => say(rt, Shown(&table)),
        Err(refusal) => refused(rt, refusal),
    }
}

// turn GENESIS SLOT
pub fn turn(rt: &impl Print, case: &Case) {
    match genesis::read(case.string(1)) {
        Ok(table) => {
            let controller = genesis::turn(table, case.slot(2));
            say(rt, format_args!("controller {controller}"));
        }
        Err(refusal) => refused(rt, refusal),
    }
}

// depth GENESIS
pub fn depth(rt: &impl Print, case: &Case) {
    match genesis::read(case.string(1)) {
        Ok(table) => say(rt, format_args!("depth {}", genesis::depth(table))),
        Err(refusal) => refused(rt, refusal),
    }
}

// key GENESIS CONTROLLER
pub fn key(rt: &impl Print, case: &Case) {
    let bytes = case.string(1);
    match genesis::find_key(bytes, case.number(2)) {
        Ok(at) => {
            let keys = bytes.get(at..).unwrap_or_default();
            let key = keys.get(..KEY_BYTES).unwrap_or_default();
            say(rt, format_args!("key at {at} {}", Bytes(key)));
        }
        Err(refusal) => refused(rt, refusal),
    }
}
