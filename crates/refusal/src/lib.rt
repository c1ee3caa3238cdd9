// The refusals of 01, "Refusal numbers", and of 02: the error of every call that may refuse, by its number.
#![tactic(auto)]

ghost use Rattle.std.specs.Prelude.{◌≡◌};
ghost use Rattle.refusal.specs.Answers.{number_of};

use std::error::Error;
use std::fmt;

#[derive(Clone, Copy, Debug, PartialEq, Eq)]
pub enum Refusal {
    // genesis bytes break a rule
    BadGenesis = 1,
    // now is not 1 to 256
    BadClock = 2,
    // bytes end inside a block or number, or inside the digest of a manifest
    Cut = 3,
    // a number is not shortest, or too large
    BadNumber = 4,
    // order count, display or slot out of its range; a release above the largest in an offer or a block to be written; a depot above 3 in an offer
    OutOfRange = 5,
    // a stamp not above the one before; draft or append: held chain ends at now
    BadStamp = 6,
    // a delivered stamp not below now
    LateStamp = 7,
    // verdict not 3, or missing
    BadVerdict = 8,
    // link wrong
    BadLink = 9,
    // an order not valid at its point
    BadOrder = 10,
    // not more blocks than held
    NotLonger = 11,
    // controller not 1 to n, or not its turn
    WrongController = 12,
    // the pool has 64 entries: it can't occur, since each of the four depots has room for 16 of them
    PoolFull = 13,
    // new order not valid where it would stand
    BadOffer = 14,
    // lent output too short
    ShortBuffer = 15,
    // delivered chain over 64,256 bytes, or a slice to digest or an image over 65,536
    TooLong = 16,
    // held chain bad
    BadHeld = 17,
    // pool bad
    BadPool = 18,
    // the depot has 16 entries, counting or not
    DepotFull = 20,
    // wrong length or type code of a signature or of its key
    BadForm = 23,
    // a signature does not verify
    BadSignature = 24,
    // the digest is not the image's
    WrongImage = 25,
    // the release is not the settled one
    WrongRelease = 26,
}

impl Refusal {
    pub fn number(self) -> u32
        ensures { result ≡ number_of self }
    {
        self as u32
    }
}

impl fmt::Display for Refusal {
    fn fmt<W: fmt::Write>(&self, f: &mut fmt::Formatter<W>) -> fmt::Result {
        write!(f, "refused {}", self.number())
    }
}

impl Error for Refusal {}
