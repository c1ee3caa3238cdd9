// Numbers in decimal digits.
ghost use Rattle.laws.specs.Placed.{Room, Wrote};
ghost use Rattle.printed.specs.Decimal as spec;

// Writes a number for which there is room.
pub fn put(out: &mut [u8], at: usize, value: u64) -> usize
    requires { Room out.old at (spec.decimal value) }
    ensures { Wrote out.old at (spec.decimal value) result out.new }
{
    if value < 10 {
        out[at] = b'0' + value as u8;
        return at + 1;
    }
    let last = put(out, at, value / 10);
    out[last] = b'0' + (value % 10) as u8;
    last + 1
}
