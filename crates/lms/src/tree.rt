// The tree of a key (RFC 8554, section 5): from a leaf up to the root.
ghost use Rattle.std.specs.Prelude.{◌≡◌, ◌++◌, ◌+◌, ◌<◌};
ghost use Rattle.sha256.specs.Sha256.{sha256};
ghost use Rattle.lms.specs.Lms as spec;

use crate::strings::{Key, Signature, front, hash, text_of, value_at};

const LEAF_TAG: u16 = 0x8282;

const INNER_TAG: u16 = 0x8383;

// The candidate for the root, over the five nodes of a signature's path.
#[tactic(auto, using(crate::proofs::Chains::climbed_next), unfolding(crate::specs::Lms::climbed))]
pub fn root(key: &Key, q: u32, signature: &Signature, key_hash: [u8; 32]) -> [u8; 32]
    requires { q < 32 }
    ensures { result ≡ spec.root_from (spec.identifier key.now) q signature.now key_hash }
{
    let node = 32 + q;
    let mut value = leaf(key, node, key_hash);
    for i in 0..5 {
        let next = parent(key, node >> i, value_at(signature, 1132 + 32 * i), value);
        value = next;
    }
    value
}

fn leaf(key: &Key, node: u32, key_hash: [u8; 32]) -> [u8; 32]
    ensures { result ≡ sha256 (spec.prefix (spec.identifier key.now) node spec.leaf_tag ++ key_hash) }
{
    let text: [u8; 54] = text_of(&[&front(key, node, LEAF_TAG), &key_hash]);
    hash(&text)
}

// The value above a node and its neighbour on the path, the left one first: a node with an odd number is the right one.
#[tactic(auto, unfolding(crate::specs::Lms::parent))]
fn parent(key: &Key, node: u32, path: [u8; 32], value: [u8; 32]) -> [u8; 32]
    ensures { result ≡ spec.parent (spec.identifier key.now) node path value }
{
    let front = front(key, node / 2, INNER_TAG);
    let text: [u8; 86] = if node % 2 == 1 {
        text_of(&[&front, &path, &value])
    } else {
        text_of(&[&front, &value, &path])
    };
    hash(&text)
}
