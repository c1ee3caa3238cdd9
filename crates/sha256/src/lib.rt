// SHA-256 (FIPS 180-4) of a slice of up to 65,536 bytes (01, "Numbers and digests").
#![tactic(auto)]

mod bits;
mod padding;
mod rounds;

ghost use Rattle.std.specs.Prelude.{◌≡◌, ◌/◌, ◌≤◌, length};
ghost use Rattle.laws.specs.Bytes.{part};
ghost use Rattle.laws.specs.Every.{same};
ghost use Rattle.laws.specs.Tabulate.{tabulate};
ghost use Rattle.refusal.specs.Answers.{told};
ghost use Rattle.sha256.specs.Sha256.{longest, padded, hashed, digest_byte, digest_of};

use refusal::Refusal;
use std::array;

pub const LONGEST: usize = 65536;

const INITIAL: [u32; 8] = [
    0x6a09e667, 0xbb67ae85, 0x3c6ef372, 0xa54ff53a, 0x510e527f, 0x9b05688c, 0x1f83d9ab, 0x5be0cd19,
];

#[tactic(auto, unfolding(crate::specs::Sha256::sha256))]
pub fn digest(s: &[u8]) -> Result<[u8; 32], Refusal>
    ensures { told result ≡ digest_of s.now }
{
    if LONGEST < s.len() {
        return Err(Refusal::TooLong);
    }
    Ok(bytes_of(hash(s)))
}

// The hash after the last block.
fn hash(s: &[u8]) -> [u32; 8]
    requires { length s.now ≤ longest }
    ensures { result ≡ hashed (padded s.now) (length (padded s.now) / 64) }
{
    let mut hash = INITIAL;
    // the padding takes nine bytes or more
    for n in 0..(s.len() + 8) / 64 + 1 {
        let next = rounds::compress(hash, padding::block(s, n));
        hash = next;
    }
    hash
}

fn bytes_of(hash: [u32; 8]) -> [u8; 32]
    ensures { result ≡ tabulate 32 (digest_byte hash) }
{
    array::from_fn(|i| hash[i / 4].to_be_bytes()[i % 4])
}

// Whether a digest stands at a place of a slice. It does not where the slice ends before it.
pub fn stands_at(s: &[u8], at: usize, digest: [u8; 32]) -> bool
    ensures { result ≡ same (part s.now at 32) digest }
{
    s.get(at..).is_some_and(|rest| rest.starts_with(&digest))
}
