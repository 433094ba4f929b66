// What the set refuses: each refusal with its number and its words.
use promises::{FieldOutOfRange, ListRefusal, MakeRefusal, WalkRefusal};
use thiserror::Error;

#[derive(Clone, Copy, Debug, PartialEq, Eq, Error)]
pub enum Refusal {
    #[error("1, the region is not well formed")]
    Malformed,
    #[error("2, a number outside its range")]
    OutOfRange,
    #[error("3, slice shorter than the total")]
    TooShort,
    #[error("4, bad lengths")]
    BadLengths,
    #[error("5, unknown code")]
    UnknownCode,
    #[error("6, word too large")]
    WordTooLarge,
    #[error("8, walk start above the member count")]
    StartTooFar,
    #[error("9, no room")]
    NoRoom,
    #[error("10, key field out of range")]
    FieldOutOfRange,
}

impl From<MakeRefusal> for Refusal {
    fn from(refusal: MakeRefusal) -> Refusal {
        match refusal {
            MakeRefusal::OutOfRange => Refusal::OutOfRange,
            MakeRefusal::TooShort => Refusal::TooShort,
        }
    }
}

impl From<WalkRefusal> for Refusal {
    fn from(refusal: WalkRefusal) -> Refusal {
        match refusal {
            WalkRefusal::Malformed => Refusal::Malformed,
            WalkRefusal::StartTooFar => Refusal::StartTooFar,
        }
    }
}

impl From<FieldOutOfRange> for Refusal {
    fn from(_refusal: FieldOutOfRange) -> Refusal {
        Refusal::FieldOutOfRange
    }
}

impl From<ListRefusal> for Refusal {
    fn from(refusal: ListRefusal) -> Refusal {
        match refusal {
            ListRefusal::Malformed => Refusal::Malformed,
            ListRefusal::BadLengths => Refusal::BadLengths,
            ListRefusal::UnknownCode(_) => Refusal::UnknownCode,
            ListRefusal::WordTooLarge(_) => Refusal::WordTooLarge,
            ListRefusal::NoRoom(_) => Refusal::NoRoom,
        }
    }
}
