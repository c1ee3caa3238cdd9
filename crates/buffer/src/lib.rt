// Lent buffers: bytes written at a place, or refused as a whole (01, refusal 15: "lent output too short").
#![tactic(auto)]

ghost use Rattle.std.specs.Prelude.{◌≡◌, ◌+◌, leb, length};
ghost use Rattle.laws.specs.Placed.{placed, placing};
ghost use Rattle.refusal.specs.Answers.{told};

use refusal::Refusal;

// Whether `size` bytes fit a buffer of `room` bytes at a place.
pub fn fits(room: usize, at: usize, size: usize) -> bool
    ensures { result ≡ leb (at + size) room }
{
    size <= room && at <= room - size
}

// Writes bytes at a place, and answers the place after them. Where the buffer is too short no byte is changed.
pub fn put(out: &mut [u8], at: usize, bytes: &[u8]) -> Result<usize, Refusal>
    ensures answer { told result ≡ placed out.old at bytes.now }
    ensures buffer { out.new ≡ placing out.old at bytes.now }
{
    if !fits(out.len(), at, bytes.len()) {
        return Err(Refusal::ShortBuffer);
    }
    let end = at + bytes.len();
    // one by one: `copy_from_slice` calls `memmove`, which not every host has
    for (i, byte) in bytes.iter().enumerate() {
        out[at + i] = *byte;
    }
    Ok(end)
}
