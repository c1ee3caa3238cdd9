// The strings of RFC 8554: numbers in them, values in them, and how they are put together and hashed.
ghost use Rattle.std.specs.Prelude.{◌≡◌, ◌+◌, ◌≤◌, length, take};
ghost use Rattle.laws.specs.Bytes.{part, joined};
ghost use Rattle.sha256.specs.Sha256.{longest, sha256};
ghost use Rattle.lms.specs.Lms.{str_tou32, identifier, prefix};

use crate::{KEY_BYTES, SIGNATURE_BYTES};

pub type Key = [u8; KEY_BYTES];

pub type Signature = [u8; SIGNATURE_BYTES];

pub fn number_at(s: &[u8], at: usize) -> u32
    requires { at + 4 ≤ length s.now }
    ensures { result ≡ str_tou32 s.now at }
{
    u32::from_be_bytes([s[at], s[at + 1], s[at + 2], s[at + 3]])
}

pub fn value_at(s: &[u8], at: usize) -> [u8; 32]
    requires { at + 32 ≤ length s.now }
    ensures { result ≡ part s.now at 32 }
{
    s[at..at + 32].try_into().unwrap()
}

// Lays parts one behind the other from the front of a text, and answers where they end.
pub fn lay(text: &mut [u8], parts: &[&[u8]]) -> usize
    requires { length (joined (λ part. part.now) parts.now) ≤ length text.old }
    ensures end { result ≡ length (joined (λ part. part.now) parts.now) }
    ensures front { take result text.new ≡ joined (λ part. part.now) parts.now }
{
    let mut end = 0;
    for part in parts {
        let start = end;
        end += part.len();
        text[start..end].copy_from_slice(part);
    }
    end
}

// Parts that make a text of N bytes.
pub fn text_of<const N: usize>(parts: &[&[u8]]) -> [u8; N]
    requires { length (joined (λ part. part.now) parts.now) ≡ N }
    ensures { result ≡ joined (λ part. part.now) parts.now }
{
    let mut text = [0u8; N];
    lay(&mut text, parts);
    text
}

// What each hashed string begins with: the key's identifier, a number, and the tag of what the string is for.
#[tactic(auto, unfolding(crate::specs::Lms::prefix))]
pub fn front(key: &Key, number: u32, tag: u16) -> [u8; 22]
    ensures { result ≡ prefix (identifier key.now) number tag }
{
    text_of(&[&key[8..24], &number.to_be_bytes(), &tag.to_be_bytes()])
}

pub fn hash(s: &[u8]) -> [u8; 32]
    requires { length s.now ≤ longest }
    ensures { result ≡ sha256 s.now }
{
    sha256::digest(s).unwrap()
}
