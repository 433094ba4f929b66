// Where the fields stand in a key: 12, 3, 10, 14 and 1 bits from the top.
ghost use Rattle.std.specs.Prelude.{◌≡◌};
ghost use Rattle.model.specs.Keys.{key_of, fields_of};
ghost use Rattle.promises.specs.Answers.{fields};
ghost use Rattle.keys.specs.Range.{first_out};

use promises::{Card, Fields, Folder, Frame, Kind, Rollover};

// The key of fields that are all in range.
pub fn key(f: Fields) -> u64
    requires { first_out (fields f) ≡ 5 }
    ensures { result ≡ key_of (fields f) }
{
    (f.card.0 << 28) + (f.rollover.0 << 25) + (f.folder.0 << 15) + (f.frame.0 << 1) + f.kind.0
}

// The fields of a word; a word past 40 bits has a card past 12.
pub fn fields(word: u64) -> Fields
    ensures { fields result ≡ fields_of word }
{
    Fields {
        card: Card(word >> 28),
        rollover: Rollover((word >> 25) & 7),
        folder: Folder((word >> 15) & 1023),
        frame: Frame((word >> 1) & 16383),
        kind: Kind(word & 1),
    }
}
