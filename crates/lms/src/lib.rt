// LMS signatures verified (RFC 8554): LMS_SHA256_M32_H5 over LMOTS_SHA256_N32_W8, and no other types (02, l).
#![tactic(auto)]

mod one_time;
mod strings;
mod tree;

ghost use Rattle.std.specs.Prelude.{◌≡◌, ◌≤◌, length};
ghost use Rattle.lms.specs.Lms as spec;
ghost use Rattle.refusal.specs.Answers.{told};

use refusal::Refusal;
use strings::{Key, Signature, number_at};

pub const KEY_BYTES: usize = 56;

pub const SIGNATURE_BYTES: usize = 1292;

pub const LONGEST_MESSAGE: usize = 256;

const LMS_SHA256_M32_H5: u32 = 5;

const LMOTS_SHA256_N32_W8: u32 = 4;

pub fn verify(key: &[u8], signature: &[u8], message: &[u8]) -> Result<(), Refusal>
    ensures { told result ≡ spec.verified key.now signature.now message.now }
{
    if LONGEST_MESSAGE < message.len() {
        return Err(Refusal::TooLong);
    }
    let Ok(key) = <&Key>::try_from(key) else {
        return Err(Refusal::BadForm);
    };
    let Ok(signature) = <&Signature>::try_from(signature) else {
        return Err(Refusal::BadForm);
    };
    if !well_typed(key, signature) {
        return Err(Refusal::BadForm);
    }
    if !verifies(key, signature, message) {
        return Err(Refusal::BadSignature);
    }
    Ok(())
}

// Whether the type codes fit.
fn well_typed(key: &Key, signature: &Signature) -> bool
    ensures { result ≡ spec.well_formed key.now signature.now }
{
    number_at(key, 0) == LMS_SHA256_M32_H5
        && number_at(key, 4) == LMOTS_SHA256_N32_W8
        && number_at(signature, 4) == LMOTS_SHA256_N32_W8
        && number_at(signature, 1128) == LMS_SHA256_M32_H5
}

#[tactic(auto, unfolding(crate::specs::Lms::verifies))]
fn verifies(key: &Key, signature: &Signature, message: &[u8]) -> bool
    requires { length message.now ≤ spec.longest_message }
    ensures { result ≡ spec.verifies key.now signature.now message.now }
{
    let q = number_at(signature, 0);
    if 32 <= q {
        return false;
    }
    let hash = one_time::key_hash(key, q, signature, message);
    sha256::stands_at(key, 24, tree::root(key, q, signature, hash))
}
