// The padded message of FIPS 180-4, sections 5.1.1 and 5.2.1, word by word. Tried: its last blocks laid out in a buffer take 104 bytes more of the stack
// than `LEDGER_STACK_DIGEST` of include/ledger.h has room for, and run at 0.98 of the speed.
ghost use Rattle.std.specs.Prelude.{◌≡◌, ◌+◌, ◌*◌, ◌/◌, ◌<◌, ◌≤◌, length};
ghost use Rattle.sha256.specs.Sha256.{longest, padded, word_at, block_at};
ghost use Rattle.sha256.specs.Steps.{block_count};

use std::array;

// The words of block n.
pub fn block(s: &[u8], n: usize) -> [u32; 16]
    requires { (length s.now ≤ longest) × (n < block_count (length s.now)) }
    ensures { result ≡ block_at (padded s.now) n }
{
    if 64 * n + 64 <= s.len() {
        return array::from_fn(|t| word(s, 64 * n + 4 * t));
    }
    let edge = edge_word(s);
    array::from_fn(|t| padded_word(s, edge, n, t))
}

// Four bytes as a word, the highest first.
fn word(s: &[u8], i: usize) -> u32
    requires { i + 4 ≤ length s.now }
    ensures { result ≡ word_at s.now i }
{
    u32::from_be_bytes([s[i], s[i + 1], s[i + 2], s[i + 3]])
}

// Word t of block n, with the word in which the message ends. The length in bits takes no more than the last word of the last block, in which the
// message leaves room for eight bytes.
#[tactic(auto, using(crate::proofs::Padded::word_inside, crate::proofs::Padded::word_zero, crate::proofs::Padded::word_last))]
fn padded_word(s: &[u8], edge: u32, n: usize, t: usize) -> u32
    requires { (length s.now ≤ longest) × (n < block_count (length s.now)) × (t < 16) × (edge ≡ word_at (padded s.now) (length s.now / 4 * 4)) }
    ensures { result ≡ word_at (padded s.now) (64 * n + 4 * t) }
{
    let i = 64 * n + 4 * t;
    if i + 4 <= s.len() {
        word(s, i)
    } else if i <= s.len() {
        edge
    } else if t == 15 && s.len() < 64 * n + 56 {
        (8 * s.len()) as u32
    } else {
        0
    }
}

// The word in which the message ends: what is left of it, the byte 80, and zeros.
fn edge_word(s: &[u8]) -> u32
    requires { length s.now ≤ longest }
    ensures { result ≡ word_at (padded s.now) (length s.now / 4 * 4) }
{
    match &s[s.len() / 4 * 4..] {
        &[] => u32::from_be_bytes([0x80, 0, 0, 0]),
        &[a] => u32::from_be_bytes([a, 0x80, 0, 0]),
        &[a, b] => u32::from_be_bytes([a, b, 0x80, 0]),
        &[a, b, c, ..] => u32::from_be_bytes([a, b, c, 0x80]),
    }
}
