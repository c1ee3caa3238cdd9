// Numbers and the digest.
ghost use Rattle.std.specs.Prelude.{◌≡◌, leb};
ghost use Rattle.laws.specs.Placed.{placed_if, placing_if};
ghost use Rattle.number.specs.Number.{largest, written, number_at};
ghost use Rattle.refusal.specs.Answers.{told};
ghost use Rattle.ledger.specs.Answers.{number_answer, write_answer, digest_answer};

use crate::NOWHERE;
use number::Number;
use order::BlockCount;
use refusal::Refusal;

// A number, and the place after it.
#[repr(C)]
#[derive(Drop)]
pub struct NumberAnswer {
    pub refusal: u32,
    pub place: BlockCount,
    pub value: Number,
    pub next: usize,
}

// The place after what was written.
#[repr(C)]
#[derive(Drop)]
pub struct WriteAnswer {
    pub refusal: u32,
    pub place: BlockCount,
    pub next: usize,
}

#[repr(C)]
#[derive(Drop)]
pub struct DigestAnswer {
    pub refusal: u32,
    pub place: BlockCount,
    pub digest: [u8; 32],
}

impl From<Result<usize, Refusal>> for WriteAnswer {
    ghost from_gives = { λ written answer. answer ≡ write_answer (told written) };

    fn from(written: Result<usize, Refusal>) -> WriteAnswer {
        match written {
            Ok(next) => WriteAnswer {
                refusal: 0,
                place: NOWHERE,
                next,
            },
            Err(refusal) => WriteAnswer {
                refusal: refusal.number(),
                place: NOWHERE,
                next: 0,
            },
        }
    }
}

#[unsafe(no_mangle)]
pub extern "C" fn ledger_read_number(bytes: &[u8], at: usize) -> NumberAnswer
    ensures { result ≡ number_answer (number_at bytes.now at) }
{
    match number::read(bytes, at) {
        Ok((value, next)) => NumberAnswer {
            refusal: 0,
            place: NOWHERE,
            value,
            next,
        },
        Err(refusal) => NumberAnswer {
            refusal: refusal.number(),
            place: NOWHERE,
            value: 0,
            next: 0,
        },
    }
}

#[unsafe(no_mangle)]
pub extern "C" fn ledger_write_number(value: Number, at: usize, out: &mut [u8]) -> WriteAnswer
    ensures answer { result ≡ write_answer (placed_if (leb value largest) 4 out.old at (written value)) }
    ensures out { out.new ≡ placing_if (leb value largest) out.old at (written value) }
{
    number::write(out, at, value).into()
}

#[unsafe(no_mangle)]
pub extern "C" fn ledger_digest(message: &[u8]) -> DigestAnswer
    ensures { result ≡ digest_answer message.now }
{
    match sha256::digest(message) {
        Ok(digest) => DigestAnswer {
            refusal: 0,
            place: NOWHERE,
            digest,
        },
        Err(refusal) => DigestAnswer {
            refusal: refusal.number(),
            place: NOWHERE,
            digest: [0; 32],
        },
    }
}
