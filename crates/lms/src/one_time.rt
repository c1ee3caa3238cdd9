// The one-time signature (RFC 8554, section 4): the hash of the public key that it stands for.
ghost use Rattle.std.specs.Prelude.{◌≡◌, ◌++◌, ◌-◌, ◌≤◌, length};
ghost use Rattle.sha256.specs.Sha256.{sha256};
ghost use Rattle.lms.specs.Lms as spec;

use crate::strings::{Key, Signature, front, hash, lay, text_of, value_at};

const KEY_TAG: u16 = 0x8080;

const MESSAGE_TAG: u16 = 0x8181;

// The candidate for the hash of the one-time public key.
#[tactic(auto, unfolding(crate::specs::Lms::key_hash_of))]
pub fn key_hash(key: &Key, q: u32, signature: &Signature, message: &[u8]) -> [u8; 32]
    requires { length message.now ≤ spec.longest_message }
    ensures { result ≡ spec.key_hash_of (spec.identifier key.now) q signature.now message.now }
{
    let digits = digits_of(message_hash(key, q, signature, message));
    ends_hash(key, q, signature, digits)
}

#[tactic(auto, unfolding(crate::specs::Lms::message_hash))]
fn message_hash(key: &Key, q: u32, signature: &Signature, message: &[u8]) -> [u8; 32]
    requires { length message.now ≤ spec.longest_message }
    ensures { result ≡ spec.message_hash (spec.identifier key.now) q signature.now message.now }
{
    let mut text = [0u8; 310];
    let end = lay(
        &mut text,
        &[&front(key, q, MESSAGE_TAG), &signature[8..40], message],
    );
    hash(&text[..end])
}

// A hash with its checksum behind it: where each chain begins.
#[tactic(auto, unfolding(crate::specs::Lms::digits))]
fn digits_of(hash: [u8; 32]) -> [u8; 34]
    ensures { result ≡ spec.digits hash }
{
    let sum = checksum(&hash);
    text_of(&[&hash, &sum.to_be_bytes()])
}

// The sum of what is left of each chain behind its digit.
fn checksum(hash: &[u8; 32]) -> u16
    ensures { result ≡ spec.checksum hash.now 32 }
{
    hash.iter().map(|&digit| 255 - digit as u16).sum()
}

// The hash over the ends of all chains.
fn ends_hash(key: &Key, q: u32, signature: &Signature, digits: [u8; 34]) -> [u8; 32]
    ensures { result ≡ sha256 (spec.prefix (spec.identifier key.now) q spec.key_tag
        ++ spec.chain_ends (spec.identifier key.now) q signature.now digits 34) }
{
    let mut text = [0u8; 1110];
    text[..22].copy_from_slice(&front(key, q, KEY_TAG));
    for i in 0..34 {
        let end = chain(
            front(key, q, i as u16),
            digits[i],
            value_at(signature, 40 + 32 * i),
        );
        text[22 + 32 * i..54 + 32 * i].copy_from_slice(&end);
    }
    hash(&text)
}

// Carries a value along its chain, from a digit to the chain's end.
#[tactic(auto, using(crate::proofs::Chains::chained_none))]
fn chain(front: [u8; 22], digit: u8, start: [u8; 32]) -> [u8; 32]
    ensures { result ≡ spec.chained front digit start (255 - digit) }
{
    let mut value = start;
    for j in digit..255 {
        let text: [u8; 55] = text_of(&[&front, &[j], &value]);
        let next = hash(&text);
        value = next;
    }
    value
}
