// Numbers of seven-bit groups (01, "Numbers and digests"): read at a place of a slice, written at a place of a lent buffer, and their length.
#![tactic(auto)]

ghost use Rattle.std.specs.Prelude.{◌≡◌, ◌+◌, ◌<◌, ◌≤◌, leb, length};
ghost use Rattle.std.proofs.lemmas.List.Edits.{sets};
ghost use Rattle.laws.specs.Placed.{placed_if, placing_if};
ghost use Rattle.number.specs.Number.{largest, written, read_groups, number_at};
ghost use Rattle.number.specs.Steps.{finished};
ghost use Rattle.refusal.specs.Answers.{told, told_found};

use buffer::fits;
use refusal::Refusal;

pub type Number = u64;

pub const LARGEST: Number = 34359738367;

// The number at a place of a slice, and the place after it.
pub fn read(s: &[u8], at: usize) -> Result<(Number, usize), Refusal>
    ensures { told_found result ≡ number_at s.now at }
{
    if s.len() <= at {
        return Err(Refusal::Cut);
    }
    let first = s[at] as Number;
    if first < 128 {
        return Ok((first, at + 1));
    }
    rest(s, at + 1, first % 128)
}

// The number whose lowest group is `low` and whose other groups, four at most, begin at `from`.
fn rest(s: &[u8], from: usize, low: Number) -> Result<(Number, usize), Refusal>
    requires { low < 128 }
    ensures { told_found result ≡ finished low 128 (read_groups 4 s.now from) }
{
    let mut at = from;
    let mut value = low;
    let mut scale: Number = 128;
    for _groups in 1..5usize {
        if s.len() <= at {
            return Err(Refusal::Cut);
        }
        let group = s[at] as Number;
        at += 1;
        if group == 0 {
            return Err(Refusal::BadNumber);
        }
        if group < 128 {
            return Ok((value + group * scale, at));
        }
        value += group % 128 * scale;
        scale *= 128;
    }
    Err(Refusal::BadNumber)
}

// How many bytes a number takes.
pub fn length(value: Number) -> usize
    ensures { result ≡ length (written value) }
{
    if value < 128 {
        1
    } else if value < 16384 {
        2
    } else if value < 2097152 {
        3
    } else if value < 268435456 {
        4
    } else {
        5
    }
}

// Writes a number at a place, and answers the place after it. Where it is too large or does not fit no byte is changed.
pub fn write(out: &mut [u8], at: usize, value: Number) -> Result<usize, Refusal>
    ensures answer { told result ≡ placed_if (leb value largest) 4 out.old at (written value) }
    ensures buffer { out.new ≡ placing_if (leb value largest) out.old at (written value) }
{
    if LARGEST < value {
        return Err(Refusal::BadNumber);
    }
    let size = length(value);
    if !fits(out.len(), at, size) {
        return Err(Refusal::ShortBuffer);
    }
    put(out, at, value);
    Ok(at + size)
}

// Writes a number for which there is room. The loop ends by what is left of the number, so there is nothing to count with `for`.
fn put(out: &mut [u8], at: usize, value: Number)
    requires { (value ≤ largest) × (at + length (written value) ≤ length out.old) }
    ensures { out.new ≡ sets out.old at (written value) }
{
    let mut place = at;
    let mut left = value;
    while 128 <= left {
        out[place] = (128 + left % 128) as u8;
        place += 1;
        left /= 128;
    }
    out[place] = left as u8;
}
