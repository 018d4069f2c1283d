// Why a call is refused, and the number that says so.
#![tactic(auto)]

ghost use Rattle.std.specs.Prelude.{◌≡◌};
ghost use Rattle.refusals.specs.Numbers.{number_of};

use std::error::Error;
use std::fmt;

// What refuses a call. A refused call changes nothing.
#[derive(Clone, Copy, Debug, PartialEq, Eq)]
pub enum Refusal {
    // a number that no call takes: a kind, a sequence number, a mask; a sample table or a key list of a wrong length; a bad record
    Malformed,
    // a mode, a set-up or keep limits outside their bounds
    OutOfBounds,
    // the no-writers event of an instance that is not held
    UnknownInstance,
    // an add for a new instance, and as many are held as are allowed
    NoMoreInstances,
    // an add, and each slot holds a live sample
    NoFreeSlot,
    // an add, and no key later than the last one issued exists
    NoLaterKey,
    // an add for a rebirth from the greatest generation total
    NoMoreGenerations,
    // a key list that names a pair that is not live, or a pair twice
    BadList,
    // a lent buffer too short for the whole answer
    NoRoom,
    // a record before an accepted set-up, or a set-up after one
    OutOfTurn,
}

impl Refusal {
    pub fn number(self) -> u64
        ensures { result ≡ number_of self }
    {
        match self {
            Refusal::Malformed => 1,
            Refusal::OutOfBounds => 2,
            Refusal::UnknownInstance => 3,
            Refusal::NoMoreInstances => 4,
            Refusal::NoFreeSlot => 5,
            Refusal::NoLaterKey => 6,
            Refusal::NoMoreGenerations => 7,
            Refusal::BadList => 8,
            Refusal::NoRoom => 9,
            Refusal::OutOfTurn => 10,
        }
    }
}

// A refusal reads as its number.
impl fmt::Display for Refusal {
    fn fmt<W: fmt::Write>(&self, f: &mut fmt::Formatter<W>) -> fmt::Result {
        let number = self.number();
        write!(f, "{number}")
    }
}

impl Error for Refusal {}
