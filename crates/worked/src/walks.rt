// Walks over chains: `walk`.
use crate::fields::Case;
use crate::print::{Shown, refused};
use console::say;
use walk::Walk;

// walk CHAIN AT: a line for each step, up to the first that gives no block. Of more than a thousand blocks no more are printed.
pub fn walk(rt: &impl Print, case: &Case) {
    let mut walk = Walk::new(case.string(1), case.place(2));
    for _ in 0..1000 {
        say(rt, format_args!("at {} ", walk.at));
        match walk.next() {
            Ok(Some(block)) => {
                say(rt, format_args!("{}\n", Shown(&block)));
                continue;
            }
            Ok(None) => say(rt, "end"),
            Err(refusal) => refused(rt, refusal),
        }
        let after = walk::place_after(walk.chain, walk.at);
        return say(rt, format_args!(", then at {after}"));
    }
}
