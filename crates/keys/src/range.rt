// Which field of a key is the first out of range.
ghost use Rattle.promises.specs.Answers.{fields};
ghost use Rattle.keys.specs.Range.{OutAt, Judged};

use promises::{FieldOutOfRange, Fields};

// The first field out of range. Field by field: a table of the five tests and `position` make all five, and a call takes a third longer.
fn first_bad(f: Fields) -> Option<usize>
    ensures { OutAt (fields f) result }
{
    if 4095 < f.card.0 {
        return Some(0);
    }
    if 7 < f.rollover.0 {
        return Some(1);
    }
    if f.folder.0 < 100 {
        return Some(2);
    }
    if 999 < f.folder.0 {
        return Some(2);
    }
    if 9999 < f.frame.0 {
        return Some(3);
    }
    if 1 < f.kind.0 {
        return Some(4);
    }
    None
}

// Refuses fields of which one is out of range.
pub fn in_range(f: Fields) -> Result<(), FieldOutOfRange>
    ensures { Judged (fields f) result }
{
    match first_bad(f) {
        Some(field) => Err(FieldOutOfRange(field)),
        None => Ok(()),
    }
}
