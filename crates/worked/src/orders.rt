// Orders at one display's release: `valid` and `take`.
use crate::fields::Case;
use crate::print::Shown;
use console::say;
use order::{DISPLAYS, Order, Release};

// valid DISPLAY RELEASE EXPECTED NEW
pub fn valid(rt: &impl Print, case: &Case) {
    say(rt, verdict(order::valid(&releases(case), ordered(case))));
}

// take DISPLAY RELEASE EXPECTED NEW: the verdict, and the releases afterwards.
pub fn take(rt: &impl Print, case: &Case) {
    let mut releases = releases(case);
    let verdict = verdict(order::take(&mut releases, ordered(case)));
    say(rt, format_args!("{verdict}{}", Shown(&releases)));
}

fn verdict(valid: bool) -> &'static str {
    if valid { "valid" } else { "not valid" }
}

// The display at its release, every other at 0.
fn releases(case: &Case) -> [Release; DISPLAYS] {
    let mut releases = [0; DISPLAYS];
    let display = case.place(1);
    if display < DISPLAYS {
        releases[display] = case.release(2);
    }
    releases
}

fn ordered(case: &Case) -> Order {
    Order {
        display: case.number(1),
        expected: case.release(3),
        new: case.release(4),
    }
}
