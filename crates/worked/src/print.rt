// What answers are made of, as they are printed.
use block::{Block, Orders};
use chain::{Refused, Standing};
use console::{Hex, say};
use genesis::Genesis;
use order::{Order, Release};
use pool::{Entry, Pool};
use std::fmt;

// A refusal with its place, which is 0 where no block is refused.
pub fn refused(rt: &impl Print, refused: impl Into<Refused>) {
    say(rt, refused.into());
}

// A number with its name, or a refusal, and then every byte of a buffer.
pub fn written(
    rt: &impl Print,
    name: &str,
    number: Result<usize, impl Into<Refused>>,
    buffer: &[u8],
) {
    match number {
        Ok(number) => say(rt, format_args!("{name} {number}")),
        Err(refusal) => refused(rt, refusal),
    }
    say(rt, format_args!(" {}", Bytes(buffer)));
}

// Bytes in the form of a case's field: pieces of hexadecimal digits, where a byte that stands four times or more is written once.
#[derive(Clone, Copy)]
pub struct Bytes<'a>(pub &'a [u8]);

impl fmt::Display for Bytes<'_> {
    fn fmt<W: fmt::Write>(&self, f: &mut fmt::Formatter<W>) -> fmt::Result {
        if self.0.is_empty() {
            return f.write_str("-");
        }
        let mut in_digits = false;
        for (place, run) in self.0.chunk_by(|byte, next| *byte == *next).enumerate() {
            let once = run.len() < 4;
            if place > 0 && !(in_digits && once) {
                f.write_str("+")?;
            }
            match run {
                [byte, ..] if !once => write!(f, "{byte:02x}*{}", run.len())?,
                _ => write!(f, "{}", Hex(run))?,
            }
            in_digits = once;
        }
        Ok(())
    }
}

// A value of the library.
#[derive(Clone, Copy)]
pub struct Shown<'a, T>(pub &'a T);

// The displays whose release is not 0, each with its release.
impl fmt::Display for Shown<'_, [Release; 64]> {
    fn fmt<W: fmt::Write>(&self, f: &mut fmt::Formatter<W>) -> fmt::Result {
        for (display, release) in self.0.iter().enumerate() {
            if *release != 0 {
                write!(f, " {display}:{release}")?;
            }
        }
        Ok(())
    }
}

impl fmt::Display for Shown<'_, Order> {
    fn fmt<W: fmt::Write>(&self, f: &mut fmt::Formatter<W>) -> fmt::Result {
        let Order {
            display,
            expected,
            new,
        } = *self.0;
        write!(f, " {display} {expected} {new}")
    }
}

impl fmt::Display for Shown<'_, Orders> {
    fn fmt<W: fmt::Write>(&self, f: &mut fmt::Formatter<W>) -> fmt::Result {
        write!(f, "orders {}", self.0.count)?;
        for order in self.0.as_slice() {
            write!(f, "{}", Shown(order))?;
        }
        Ok(())
    }
}

impl fmt::Display for Shown<'_, Block> {
    fn fmt<W: fmt::Write>(&self, f: &mut fmt::Formatter<W>) -> fmt::Result {
        let front = &self.0.front;
        write!(f, "link {} {}", Bytes(&front.link), Shown(&front.orders))?;
        write!(f, " slot {}", front.slot.0)?;
        write!(f, " signatures {}", Bytes(&front.slot_signature))?;
        write!(f, " {}", Bytes(&self.0.block_signature))
    }
}

impl fmt::Display for Shown<'_, Genesis> {
    fn fmt<W: fmt::Write>(&self, f: &mut fmt::Formatter<W>) -> fmt::Result {
        let Genesis {
            n,
            t,
            u,
            releases,
            keys_at,
        } = *self.0;
        let releases = Shown(&releases);
        write!(f, "n {n} t {t} u {u} keys at {keys_at} releases{releases}")
    }
}

impl fmt::Display for Shown<'_, Standing> {
    fn fmt<W: fmt::Write>(&self, f: &mut fmt::Formatter<W>) -> fmt::Result {
        let Standing {
            count,
            length,
            stamp,
            ..
        } = *self.0;
        let (count, stamp) = (count.0, stamp.0);
        write!(f, "count {count} length {length} stamp {stamp}")?;
        let (link, releases) = (Bytes(&self.0.link), Shown(&self.0.releases));
        write!(f, " link {link} releases{releases}")
    }
}

impl fmt::Display for Shown<'_, Entry> {
    fn fmt<W: fmt::Write>(&self, f: &mut fmt::Formatter<W>) -> fmt::Result {
        let Entry { order, slot, depot } = *self.0;
        let (order, slot) = (Shown(&order), slot.0);
        write!(f, "{order} {slot} {depot}")
    }
}

// The entries within the count, and of those past it each that is not of zeros, with its place.
impl fmt::Display for Shown<'_, Pool> {
    fn fmt<W: fmt::Write>(&self, f: &mut fmt::Formatter<W>) -> fmt::Result {
        write!(f, "pool {}", self.0.count)?;
        for (place, entry) in self.0.entries.iter().enumerate() {
            if place < self.0.count as usize {
                write!(f, "{}", Shown(entry))?;
            } else if *entry != Entry::default() {
                write!(f, " past {place}{}", Shown(entry))?;
            }
        }
        Ok(())
    }
}
