// Pack and unpack for C and Rust: numbers in, a verdict of numbers out.
ghost use Rattle.model.specs.Keys.{fields_are};
ghost use Rattle.promises.specs.Answers.{packed, unpacked};
ghost use Rattle.promises.specs.Keys.{PackPromise, UnpackPromise};
ghost use Rattle.brothowl.specs.Verdicts.{Crosses, pack_verdict, unpack_verdict, with_fields};
ghost use Rattle.std.specs.Prelude.{◌≡◌};

use promises::{Card, FieldOutOfRange, Fields, Folder, Frame, Kind, Rollover, UnpackRefusal};

// number 0 and place 0: packed, with its key. Else the refusal's number and place, and key 0.
#[repr(C)]
#[derive(Clone, Copy)]
pub struct PackVerdict {
    pub number: u64,
    pub place: u64,
    pub key: u64,
}

// number 0 and place 0: unpacked, with its fields. Else the refusal's number and place, and all fields 0.
#[repr(C)]
#[derive(Clone, Copy)]
pub struct UnpackVerdict {
    pub number: u64,
    pub place: u64,
    pub card: u64,
    pub rollover: u64,
    pub folder: u64,
    pub frame: u64,
    pub kind: u64,
}

impl From<Result<u64, FieldOutOfRange>> for PackVerdict {
    ghost from_gives = { λ answer v. v ≡ pack_verdict (packed answer) };

    fn from(answer: Result<u64, FieldOutOfRange>) -> PackVerdict {
        match answer {
            Ok(key) => PackVerdict {
                number: 0,
                place: 0,
                key,
            },
            Err(FieldOutOfRange(field)) => PackVerdict {
                number: 10,
                place: field as u64,
                key: 0,
            },
        }
    }
}

impl UnpackVerdict {
    fn refused(number: u64, place: usize) -> UnpackVerdict
        ensures { result ≡ with_fields number place (fields_are 0 0 0 0 0) }
    {
        UnpackVerdict {
            number,
            place: place as u64,
            card: 0,
            rollover: 0,
            folder: 0,
            frame: 0,
            kind: 0,
        }
    }
}

impl From<Result<Fields, UnpackRefusal>> for UnpackVerdict {
    ghost from_gives = { λ answer v. v ≡ unpack_verdict (unpacked answer) };

    fn from(answer: Result<Fields, UnpackRefusal>) -> UnpackVerdict {
        match answer {
            Ok(f) => UnpackVerdict {
                number: 0,
                place: 0,
                card: f.card.0,
                rollover: f.rollover.0,
                folder: f.folder.0,
                frame: f.frame.0,
                kind: f.kind.0,
            },
            Err(UnpackRefusal::WordTooLarge) => UnpackVerdict::refused(6, 0),
            Err(UnpackRefusal::FieldOutOfRange(field)) => UnpackVerdict::refused(10, field),
        }
    }
}

pub fn brothowl_pack(card: u64, rollover: u64, folder: u64, frame: u64, kind: u64) -> PackVerdict
    ensures { Crosses pack_verdict (PackPromise (fields_are card rollover folder frame kind)) result }
{
    let f = Fields {
        card: Card(card),
        rollover: Rollover(rollover),
        folder: Folder(folder),
        frame: Frame(frame),
        kind: Kind(kind),
    };
    keys::pack(f).into()
}

pub fn brothowl_unpack(word: u64) -> UnpackVerdict
    ensures { Crosses unpack_verdict (UnpackPromise word) result }
{
    keys::unpack(word).into()
}
