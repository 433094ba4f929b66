// Preview keys: pack five fields into a word of 40 bits, and unpack them. The fields' types and the refusals are of `promises`.
#![tactic(auto)]

mod layout;
mod range;

ghost use Rattle.promises.specs.Answers.{fields, packed, unpacked};
ghost use Rattle.promises.specs.Keys.{PackPromise, UnpackPromise};

use promises::{FieldOutOfRange, Fields, UnpackRefusal};

pub fn pack(f: Fields) -> Result<u64, FieldOutOfRange>
    ensures { PackPromise (fields f) (packed result) }
{
    range::in_range(f)?;
    Ok(layout::key(f))
}

pub fn unpack(word: u64) -> Result<Fields, UnpackRefusal>
    ensures { UnpackPromise word (unpacked result) }
{
    // 6 comes before 10: above 40 bits the card has more than its 12.
    if 1 << 40 <= word {
        return Err(UnpackRefusal::WordTooLarge);
    }
    let f = layout::fields(word);
    range::in_range(f)?;
    Ok(f)
}
