// Why each entry refuses, as an enum of its own, and the fields of a preview key. specs/Answers gives the number and the place of each refusal.
#![tactic(auto)]

mod display;

ghost use Rattle.std.specs.Prelude.{◌≡◌};
ghost use Rattle.promises.specs.declared.ListRefusal.{ListRefusal};
ghost use Rattle.promises.specs.declared.AskRefusal.{AskRefusal};
ghost use Rattle.promises.specs.declared.WalkRefusal.{WalkRefusal};
ghost use Rattle.promises.specs.declared.UnpackRefusal.{UnpackRefusal};

// Making a region.
#[derive(Clone, Copy, Debug, PartialEq, Eq)]
pub enum MakeRefusal {
    OutOfRange,
    TooShort,
}

// Checking a region: it is not well formed.
#[derive(Clone, Copy, Debug, PartialEq, Eq)]
pub struct Malformed;

// Running a command list; with the place where that is not 0.
#[derive(Clone, Copy, Debug, PartialEq, Eq)]
pub enum ListRefusal {
    Malformed,
    BadLengths,
    UnknownCode(usize),
    WordTooLarge(usize),
    NoRoom(usize),
}

// Asking whether all words of a list are members.
#[derive(Clone, Copy, Debug, PartialEq, Eq)]
pub enum AskRefusal {
    Malformed,
    TooMany,
    WordTooLarge(usize),
}

// Walking from a place.
#[derive(Clone, Copy, Debug, PartialEq, Eq)]
pub enum WalkRefusal {
    Malformed,
    StartTooFar,
}

// Combining two sets into a third. Malformed holds which of the three regions is the first bad one.
#[derive(Clone, Copy, Debug, PartialEq, Eq)]
pub enum CombineRefusal {
    Malformed(usize),
    UnknownCode,
    SetsDiffer,
    NoRoom,
}

// The fields of a preview key, each of a type of its own, so that none is passed for another by accident.
#[derive(Clone, Copy, Debug, PartialEq, Eq)]
pub struct Card(pub u64);

#[derive(Clone, Copy, Debug, PartialEq, Eq)]
pub struct Rollover(pub u64);

#[derive(Clone, Copy, Debug, PartialEq, Eq)]
pub struct Folder(pub u64);

#[derive(Clone, Copy, Debug, PartialEq, Eq)]
pub struct Frame(pub u64);

#[derive(Clone, Copy, Debug, PartialEq, Eq)]
pub struct Kind(pub u64);

#[derive(Clone, Copy, Debug, PartialEq, Eq)]
pub struct Fields {
    pub card: Card,
    pub rollover: Rollover,
    pub folder: Folder,
    pub frame: Frame,
    pub kind: Kind,
}

// Packing a preview key: which field is the first bad one.
#[derive(Clone, Copy, Debug, PartialEq, Eq)]
pub struct FieldOutOfRange(pub usize);

// Unpacking a preview key.
#[derive(Clone, Copy, Debug, PartialEq, Eq)]
pub enum UnpackRefusal {
    WordTooLarge,
    FieldOutOfRange(usize),
}

impl From<Malformed> for ListRefusal {
    ghost from_gives = { λ _ r. r ≡ ListRefusal.Malformed };

    fn from(_m: Malformed) -> ListRefusal {
        ListRefusal::Malformed
    }
}

impl From<Malformed> for AskRefusal {
    ghost from_gives = { λ _ r. r ≡ AskRefusal.Malformed };

    fn from(_m: Malformed) -> AskRefusal {
        AskRefusal::Malformed
    }
}

impl From<Malformed> for WalkRefusal {
    ghost from_gives = { λ _ r. r ≡ WalkRefusal.Malformed };

    fn from(_m: Malformed) -> WalkRefusal {
        WalkRefusal::Malformed
    }
}

impl From<FieldOutOfRange> for UnpackRefusal {
    ghost from_gives = { λ f r. r ≡ UnpackRefusal.FieldOutOfRange f.0 };

    fn from(f: FieldOutOfRange) -> UnpackRefusal {
        UnpackRefusal::FieldOutOfRange(f.0)
    }
}
