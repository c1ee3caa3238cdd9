// What the report program prints (01, "Worked by hand"): from the bytes of its input to the bytes of its output.
#![tactic(auto)]

mod decimal;
mod lines;

ghost use Rattle.std.specs.Prelude.{◌≡◌, leb};
ghost use Rattle.laws.specs.Pick.{pick};
ghost use Rattle.laws.specs.Placed.{placed, placing};
ghost use Rattle.refusal.specs.Answers.{told};
ghost use Rattle.printed.specs.Station as spec;
ghost use Rattle.printed.specs.Answers.{told_genesis, told_asked};

use buffer::fits;
use chain::Refused;
use lines::put_text;
use number::Number;
use order::{LAST_SLOT, Slot};
use refusal::Refusal;
use report::Reported;

// The most bytes that a genesis has.
pub const LONGEST_GENESIS: Number = 1315;

// The most bytes that are printed.
pub const LONGEST_TEXT: usize = 2751;

// The report that the input asks for, and its slot.
#[derive(Clone, Copy, Debug, PartialEq, Eq)]
pub struct Asked {
    pub clock: Slot,
    pub report: Reported,
}

// Prints the report that an input asks for into a lent buffer, and answers how many bytes it has.
pub fn station(input: &[u8], out: &mut [u8]) -> Result<usize, Refusal>
    ensures answer { told result ≡ placed out.old 0 (spec.station_text input.now) }
    ensures buffer { out.new ≡ placing out.old 0 (spec.station_text input.now) }
{
    let mut text = [0; LONGEST_TEXT];
    let length = put_text(&mut text, answered(input));
    buffer::put(out, 0, &text[..length])
}

// Takes the input apart and reports on it.
#[tactic(auto, unfolding(crate::specs::Station::answered))]
fn answered(input: &[u8]) -> Result<Asked, Refused>
    ensures { told_asked result ≡ spec.answered input.now }
{
    let (genesis, at) = genesis_at(input)?;
    let Ok((clock, at)) = number::read(input, at) else {
        return Err(Refusal::BadClock.into());
    };
    stated(genesis, clock, &input[at..])
}

// The genesis, and the place of now behind it. Whatever is wrong before now is a bad genesis.
fn genesis_at(input: &[u8]) -> Result<(&[u8], usize), Refusal>
    ensures { told_genesis result ≡ spec.genesis_at input.now }
{
    read_genesis(input).or(Err(Refusal::BadGenesis))
}

// The genesis is judged here already, and once more for the report: a bad one comes before a badly written now.
fn read_genesis(input: &[u8]) -> Result<(&[u8], usize), Refusal>
    ensures { told_genesis result ≡ spec.genesis_read input.now }
{
    let (size, at) = number::read(input, 0)?;
    if LONGEST_GENESIS < size {
        return Err(Refusal::BadGenesis);
    }
    if !fits(input.len(), at, size as usize) {
        return Err(Refusal::Cut);
    }
    let end = at + size as usize;
    let genesis = &input[at..end];
    genesis::read(genesis)?;
    Ok((genesis, end))
}

// The report at a slot, on a chain that is a whole slice.
fn stated(genesis: &[u8], clock: Number, held: &[u8]) -> Result<Asked, Refused>
    ensures { told_asked result ≡ spec.stated genesis.now clock held.now }
{
    let clock = slot_of(clock);
    let report = report::report(genesis, clock, held, held.len())?;
    Ok(Asked { clock, report })
}

// A number as a slot. One above the last is no slot, and 0 is none either. With an `Option` the refusal of a bad now would stand once more here,
// behind that of a bad genesis.
fn slot_of(clock: Number) -> Slot
    ensures { result.0 ≡ pick (leb clock 256) clock 0 }
{
    if clock <= LAST_SLOT as Number {
        return Slot(clock as u32);
    }
    Slot(0)
}
