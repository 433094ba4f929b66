// How the desk prints what it has in hand.
use super::script::{Batch, Kind};
use promises::Fields;
use std::fmt;

// So many of a thing that is named.
#[derive(Clone, Copy)]
pub struct Count(pub usize, pub &'static str);

impl fmt::Display for Count {
    fn fmt<W: fmt::Write>(&self, f: &mut fmt::Formatter<W>) -> fmt::Result {
        let Count(many, name) = self;
        match many {
            1 => write!(f, "1 {name}"),
            _ => write!(f, "{many} {name}s"),
        }
    }
}

// A word of the set, shown by its fields.
#[derive(Clone, Copy)]
pub struct Key(pub u64);

// The fields of a word, if it is a key.
pub fn fields_of(word: u64) -> Option<Fields> {
    keys::unpack(word).ok()
}

impl fmt::Display for Key {
    fn fmt<W: fmt::Write>(&self, f: &mut fmt::Formatter<W>) -> fmt::Result {
        let Some(fields) = fields_of(self.0) else {
            return write!(f, "{}, which is no key", self.0);
        };
        let kind = if fields.kind.0 == 0 {
            Kind::Raw
        } else {
            Kind::Sidecar
        };
        write!(
            f,
            "card {}, rollover {}, folder {}, frame {}, {kind}",
            fields.card.0, fields.rollover.0, fields.folder.0, fields.frame.0
        )
    }
}

impl fmt::Display for Batch {
    fn fmt<W: fmt::Write>(&self, f: &mut fmt::Formatter<W>) -> fmt::Result {
        let Batch {
            verb,
            card,
            rollover,
            folder,
            first,
            last,
            kind,
        } = self;
        write!(
            f,
            "{verb} card {card}, rollover {rollover}, folder {folder}"
        )?;
        if first == last {
            write!(f, ", frame {first}, {kind}")
        } else {
            write!(f, ", frames {first} to {last}, {kind}")
        }
    }
}
