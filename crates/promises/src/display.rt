// Each refusal as a plain sentence.
use crate::{
    AskRefusal, CombineRefusal, FieldOutOfRange, ListRefusal, MakeRefusal, Malformed,
    UnpackRefusal, WalkRefusal,
};
use std::error::Error;
use std::fmt;

impl fmt::Display for MakeRefusal {
    fn fmt<W: fmt::Write>(&self, f: &mut fmt::Formatter<W>) -> fmt::Result {
        match self {
            MakeRefusal::OutOfRange => write!(f, "a number is outside its range"),
            MakeRefusal::TooShort => write!(f, "the slice is shorter than the region"),
        }
    }
}

impl Error for MakeRefusal {}

impl fmt::Display for Malformed {
    fn fmt<W: fmt::Write>(&self, f: &mut fmt::Formatter<W>) -> fmt::Result {
        write!(f, "the region is not well formed")
    }
}

impl Error for Malformed {}

impl fmt::Display for ListRefusal {
    fn fmt<W: fmt::Write>(&self, f: &mut fmt::Formatter<W>) -> fmt::Result {
        match self {
            ListRefusal::Malformed => write!(f, "the region is not well formed"),
            ListRefusal::BadLengths => write!(f, "the lengths of the lists do not fit"),
            ListRefusal::UnknownCode(k) => write!(f, "command {k} has an unknown code"),
            ListRefusal::WordTooLarge(k) => write!(f, "word {k} has too many bits"),
            ListRefusal::NoRoom(k) => write!(f, "there is no room for command {k}"),
        }
    }
}

impl Error for ListRefusal {}

impl fmt::Display for AskRefusal {
    fn fmt<W: fmt::Write>(&self, f: &mut fmt::Formatter<W>) -> fmt::Result {
        match self {
            AskRefusal::Malformed => write!(f, "the region is not well formed"),
            AskRefusal::TooMany => write!(f, "there are too many words"),
            AskRefusal::WordTooLarge(k) => write!(f, "word {k} has too many bits"),
        }
    }
}

impl Error for AskRefusal {}

impl fmt::Display for WalkRefusal {
    fn fmt<W: fmt::Write>(&self, f: &mut fmt::Formatter<W>) -> fmt::Result {
        match self {
            WalkRefusal::Malformed => write!(f, "the region is not well formed"),
            WalkRefusal::StartTooFar => write!(f, "the start is past the last member"),
        }
    }
}

impl Error for WalkRefusal {}

impl fmt::Display for CombineRefusal {
    fn fmt<W: fmt::Write>(&self, f: &mut fmt::Formatter<W>) -> fmt::Result {
        match self {
            CombineRefusal::Malformed(k) => write!(f, "region {k} is not well formed"),
            CombineRefusal::UnknownCode => write!(f, "the code is unknown"),
            CombineRefusal::SetsDiffer => write!(f, "the sets differ in the bits of their words"),
            CombineRefusal::NoRoom => write!(f, "there is no room for the result"),
        }
    }
}

impl Error for CombineRefusal {}

impl fmt::Display for FieldOutOfRange {
    fn fmt<W: fmt::Write>(&self, f: &mut fmt::Formatter<W>) -> fmt::Result {
        write!(f, "field {} is out of range", self.0)
    }
}

impl Error for FieldOutOfRange {}

impl fmt::Display for UnpackRefusal {
    fn fmt<W: fmt::Write>(&self, f: &mut fmt::Formatter<W>) -> fmt::Result {
        match self {
            UnpackRefusal::WordTooLarge => write!(f, "the word has too many bits"),
            UnpackRefusal::FieldOutOfRange(k) => write!(f, "field {k} is out of range"),
        }
    }
}

impl Error for UnpackRefusal {}
