// The refusals of document 01, as specs/Refusal.antt numbers them, and where one stands.
ghost use Rattle.std.specs.Prelude.{◌≡◌};
ghost use Rattle.format.specs.Refusals.{number_of};

use std::fmt;

// Why bytes, a record or a scene are refused.
#[derive(Clone, Copy, PartialEq, Eq, Debug)]
pub enum Refusal {
    WrongTrack = 1,
    // A block's head or body ends early.
    CutBlock,
    LongBlock,
    WrongAngle,
    // The block ends inside a message, or the asked place is past the end.
    CutMessage,
    UnknownMessage,
    WrongString,
    ReservedBit,
    WrongNumber,
    WrongTime,
    AfterDisconnect,
    ShortRoom,
    // A record to write that no bytes read to in the scene given.
    Unreadable,
    // A scene outside its ranges, or player lines not 16.
    WrongScene,
}

// Its number in document 01.
impl From<Refusal> for u8 {
    ghost from_gives = { λ refusal number. number ≡ number_of refusal };

    fn from(refusal: Refusal) -> u8 {
        refusal as u8
    }
}

// A refusal, and the place that it is about.
#[derive(Clone, Copy, PartialEq, Eq, Debug)]
pub struct Refused {
    pub refusal: Refusal,
    pub place: usize,
}

impl fmt::Display for Refused {
    fn fmt<W: fmt::Write>(&self, f: &mut fmt::Formatter<W>) -> fmt::Result {
        write!(f, "refused {} at {}", u8::from(self.refusal), self.place)
    }
}
