// One block of FIPS 180-4, section 6.2.2: 64 rounds of the eight working words. Of the message schedule only the last sixteen words are kept, and
// each word is made as it is needed. Both go by value from helper to helper.
ghost use Rattle.std.specs.Prelude.{◌≡◌, ℕ, ◌+◌, ◌≤◌, List};
ghost use Rattle.sha256.specs.Sha256 as sha;
ghost use Rattle.sha256.specs.Steps.{Reached, mixed_of, moved_on};

use crate::bits::{big_sigma_0, big_sigma_1, ch, maj, sigma_0, sigma_1, sum};
use std::array;

const ROUND_CONSTANTS: [u32; 64] = [
    0x428a2f98, 0x71374491, 0xb5c0fbcf, 0xe9b5dba5, 0x3956c25b, 0x59f111f1, 0x923f82a4, 0xab1c5ed5,
    0xd807aa98, 0x12835b01, 0x243185be, 0x550c7dc3, 0x72be5d74, 0x80deb1fe, 0x9bdc06a7, 0xc19bf174,
    0xe49b69c1, 0xefbe4786, 0x0fc19dc6, 0x240ca1cc, 0x2de92c6f, 0x4a7484aa, 0x5cb0a9dc, 0x76f988da,
    0x983e5152, 0xa831c66d, 0xb00327c8, 0xbf597fc7, 0xc6e00bf3, 0xd5a79147, 0x06ca6351, 0x14292967,
    0x27b70a85, 0x2e1b2138, 0x4d2c6dfc, 0x53380d13, 0x650a7354, 0x766a0abb, 0x81c2c92e, 0x92722c85,
    0xa2bfe8a1, 0xa81a664b, 0xc24b8b70, 0xc76c51a3, 0xd192e819, 0xd6990624, 0xf40e3585, 0x106aa070,
    0x19a4c116, 0x1e376c08, 0x2748774c, 0x34b0bcb5, 0x391c0cb3, 0x4ed8aa4a, 0x5b9cca4f, 0x682e6ff3,
    0x748f82ee, 0x78a5636f, 0x84c87814, 0x8cc70208, 0x90befffa, 0xa4506ceb, 0xbef9a3f7, 0xc67178f2,
];

// The hash after one more block.
pub fn compress(hash: [u32; 8], block: [u32; 16]) -> [u32; 8]
    ensures { result ≡ sha.compressed hash block }
{
    let s = Words {
        working: hash,
        window: block,
    }
    .rounds();
    array::from_fn(|i| sum(hash[i], s[i]))
}

// The working words, and the window: the sixteen words of the schedule that the next rounds read.
#[derive(Drop)]
struct Words {
    working: [u32; 8],
    window: [u32; 16],
}

impl Words {
    // All rounds of a block, from its hash and its words. Tried, and slower: a loop over two rounds runs at 0.81 of the speed, one over sixteen at 0.96.
    fn rounds(self) -> [u32; 8]
        ensures { result ≡ sha.working (sha.schedule self.window 64) self.working 64 }
    {
        self.sixteen_rounds(0)
            .sixteen_rounds(16)
            .sixteen_rounds(32)
            .sixteen_rounds(48)
            .working
    }

    // Put in at every call, so that each place in the table is a numeral, and each constant part of an instruction.
    #[inline(always)]
    fn sixteen_rounds(self, t: usize) -> Words
        requires { t ≤ 48 }
        ensures { (hash block : List ℕ) (next : ℕ) → next ≡ t + 16 → Reached hash block t self.working self.window
            → Reached hash block next result.working result.window }
    {
        self.two_rounds(t)
            .two_rounds(t + 2)
            .two_rounds(t + 4)
            .two_rounds(t + 6)
            .two_rounds(t + 8)
            .two_rounds(t + 10)
            .two_rounds(t + 12)
            .two_rounds(t + 14)
    }

    // Two rounds from round t on, and the window moved on past their words.
    #[inline(always)]
    fn two_rounds(self, t: usize) -> Words
        requires { t ≤ 62 }
        ensures { (hash block : List ℕ) (next : ℕ) → next ≡ t + 2 → Reached hash block t self.working self.window
            → Reached hash block next result.working result.window }
    {
        let s = self.working;
        let w = self.window;
        let half = round(s, ROUND_CONSTANTS[t], w[0]);
        Words {
            working: round(half, ROUND_CONSTANTS[t + 1], w[1]),
            window: moved_on(w),
        }
    }
}

// The window without its first two words, and with the next two. Tried, and slower: by `array::from_fn` the digest runs at 0.24 of the speed.
fn moved_on(w: [u32; 16]) -> [u32; 16]
    ensures { result ≡ moved_on w }
{
    [
        w[2],
        w[3],
        w[4],
        w[5],
        w[6],
        w[7],
        w[8],
        w[9],
        w[10],
        w[11],
        w[12],
        w[13],
        w[14],
        w[15],
        mixed(w[0], w[1], w[9], w[14]),
        mixed(w[1], w[2], w[10], w[15]),
    ]
}

// A word of the schedule, from those 16, 15, 7 and 2 places before it.
fn mixed(before_16: u32, before_15: u32, before_7: u32, before_2: u32) -> u32
    ensures { result ≡ mixed_of before_16 before_15 before_7 before_2 }
{
    sum(
        sum(sum(sigma_1(before_2), before_7), sigma_0(before_15)),
        before_16,
    )
}

// One round with a constant and a word of the schedule. Σ₀ and maj stand first: behind the other sum they take 24 bytes more of the stack.
#[tactic(auto, unfolding(crate::specs::Sha256::round))]
fn round(s: [u32; 8], constant: u32, word: u32) -> [u32; 8]
    ensures { result ≡ sha.round constant word s }
{
    let [a, b, c, d, e, f, g, h] = s;
    let t2 = sum(big_sigma_0(a), maj(a, b, c));
    let t1 = sum(
        sum(sum(sum(h, big_sigma_1(e)), ch(e, f, g)), constant),
        word,
    );
    [sum(t1, t2), a, b, c, sum(d, t1), e, f, g]
}
