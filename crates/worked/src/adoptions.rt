// A delivered chain against the held one: `choose`, before any byte is copied, and `adopt`.
use crate::fields::Case;
use crate::print::{Bytes, refused};
use console::say;

// choose GENESIS NOW HELD DELIVERED VERDICTS: which of the two chains is shown, or bytes that are neither.
pub fn choose(rt: &impl Print, case: &Case) {
    let (held, delivered) = (case.string(3), case.string(4));
    let (shown, judgement) = adopt::choose(
        case.string(1),
        case.slot(2),
        held,
        delivered,
        case.string(5),
    );
    say(rt, "shows ");
    if held == delivered && shown == held {
        say(rt, "either");
    } else if shown == held {
        say(rt, "held");
    } else if shown == delivered {
        say(rt, "delivered");
    } else {
        say(rt, Bytes(shown));
    }
    let (number, place) = match judgement {
        Ok(_) => (0, 0),
        Err(refused) => (refused.refusal.number(), refused.place.0),
    };
    say(rt, format_args!(" {number} {place}"));
}

// adopt GENESIS NOW BUFFER LENGTH DELIVERED VERDICTS
pub fn adopt(rt: &impl Print, case: &Case, space: &mut [u8]) {
    let buffer = case.buffer(3, space);
    let adopted = adopt::adopt(
        case.string(1),
        case.slot(2),
        buffer,
        case.place(4),
        case.string(5),
        case.string(6),
    );
    match adopted {
        Ok(adopted) => {
            let (length, count) = (adopted.length, adopted.count.0);
            say(rt, format_args!("length {length} count {count}"));
        }
        Err(refusal) => refused(rt, refusal),
    }
    say(rt, format_args!(" {}", Bytes(buffer)));
}
