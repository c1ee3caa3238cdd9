// A refusal of a call on a chain, with its place.
ghost use Rattle.std.specs.Prelude.{◌≡◌};

use order::BlockCount;
use refusal::Refusal;
use std::error::Error;
use std::fmt;

#[derive(Clone, Copy, Debug, PartialEq, Eq)]
pub struct Refused {
    pub refusal: Refusal,
    // the block that was refused, counted from 1, or 0
    pub place: BlockCount,
}

// What refuses no block has place 0.
impl From<Refusal> for Refused {
    ghost from_gives = { λ refusal refused. refused ≡ record { refusal = refusal; place = record { 0 = 0 } } };

    fn from(refusal: Refusal) -> Refused {
        Refused {
            refusal,
            place: BlockCount(0),
        }
    }
}

// As the report program prints it.
impl fmt::Display for Refused {
    fn fmt<W: fmt::Write>(&self, f: &mut fmt::Formatter<W>) -> fmt::Result {
        write!(f, "{} {}", self.refusal, self.place.0)
    }
}

impl Error for Refused {}
