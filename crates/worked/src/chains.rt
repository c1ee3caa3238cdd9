// Chains, delivered and held: `check` and `held`.
use crate::fields::Case;
use crate::print::{Shown, refused};
use console::say;

// check GENESIS NOW CHAIN VERDICTS
pub fn check(rt: &impl Print, case: &Case) {
    match chain::check(case.string(1), case.slot(2), case.string(3), case.string(4)) {
        Ok(checked) => {
            let (count, releases) = (checked.count.0, Shown(&checked.releases));
            say(rt, format_args!("count {count} releases{releases}"));
        }
        Err(refusal) => refused(rt, refusal),
    }
}

// held GENESIS NOW BUFFER LENGTH
pub fn held(rt: &impl Print, case: &Case) {
    match chain::hold(case.string(1), case.slot(2), case.string(3), case.place(4)) {
        Ok((_, summary)) => {
            let (whole, settled) = (Shown(&summary.whole), Shown(&summary.settled));
            say(rt, format_args!("{whole} settled {settled}"));
        }
        Err(refusal) => refused(rt, refusal),
    }
}
