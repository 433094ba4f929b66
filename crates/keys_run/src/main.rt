// Packs and unpacks preview keys at every bound of their fields, the cases K1 to K3 of document 01 among them, one line a case.
#![tactic(auto)]

use promises::{Card, FieldOutOfRange, Fields, Folder, Frame, Kind, Rollover, UnpackRefusal};
use std::{fmt, io};

// Fields, shown by their names.
#[derive(Clone, Copy)]
struct Shown(Fields);

impl fmt::Display for Shown {
    fn fmt<W: fmt::Write>(&self, f: &mut fmt::Formatter<W>) -> fmt::Result {
        let Fields {
            card: Card(card),
            rollover: Rollover(rollover),
            folder: Folder(folder),
            frame: Frame(frame),
            kind: Kind(kind),
        } = self.0;
        write!(
            f,
            "card {card}, rollover {rollover}, folder {folder}, frame {frame}, "
        )?;
        match kind {
            0 => write!(f, "raw"),
            1 => write!(f, "sidecar"),
            _ => write!(f, "kind {kind}"),
        }
    }
}

// A line: the fields, and their key or the refusal.
fn pack(rt: &impl Print, numbers: [u64; 5]) -> io::Result<()> {
    let [card, rollover, folder, frame, kind] = numbers;
    let fields = Fields {
        card: Card(card),
        rollover: Rollover(rollover),
        folder: Folder(folder),
        frame: Frame(frame),
        kind: Kind(kind),
    };
    let shown = Shown(fields);
    match keys::pack(fields) {
        Ok(key) => println!(rt; "  {shown} -> key {key}"),
        Err(FieldOutOfRange(k)) => println!(rt; "  {shown} -> refused 10, field {k}"),
    }
}

// A line: the word, and its fields or the refusal.
fn unpack(rt: &impl Print, word: u64) -> io::Result<()> {
    match keys::unpack(word) {
        Ok(fields) => println!(rt; "  word {word} -> {}", Shown(fields)),
        Err(UnpackRefusal::WordTooLarge) => println!(rt; "  word {word} -> refused 6"),
        Err(UnpackRefusal::FieldOutOfRange(k)) => println!(rt;
            "  word {word} -> refused 10, field {k}"
        ),
    }
}

// Lines of card, rollover, folder, frame and kind, below what they show.
fn all_packed(rt: &impl Print, title: &str, cases: &[[u64; 5]]) -> io::Result<()> {
    println!(rt; "{title}:")?;
    for numbers in cases {
        pack(rt, *numbers)?;
    }
    Ok(())
}

// Each field at its bounds and one past them, the others in range.
fn bounds(rt: &impl Print) -> io::Result<()> {
    all_packed(rt, "K1", &[[5, 0, 100, 1, 0]])?;
    all_packed(
        rt,
        "card",
        &[
            [0, 0, 100, 1, 0],
            [4095, 0, 100, 1, 0],
            [4096, 0, 100, 1, 0],
            [u64::MAX, 0, 100, 1, 0],
        ],
    )?;
    all_packed(rt, "rollover", &[[5, 7, 100, 1, 0], [5, 8, 100, 1, 0]])?;
    all_packed(
        rt,
        "folder, K2",
        &[
            [5, 0, 0, 1, 0],
            [5, 0, 99, 1, 0],
            [5, 0, 999, 1, 0],
            [5, 0, 1000, 1, 0],
        ],
    )?;
    all_packed(
        rt,
        "frame, K3",
        &[
            [5, 0, 100, 0, 0],
            [5, 0, 100, 9999, 0],
            [5, 0, 100, 10000, 0],
        ],
    )?;
    all_packed(rt, "kind", &[[5, 0, 100, 1, 1], [5, 0, 100, 1, 2]])
}

// Several bad at once: the first from the top is named.
fn first_bad(rt: &impl Print) -> io::Result<()> {
    all_packed(
        rt,
        "several bad at once",
        &[
            [4096, 8, 99, 10000, 2],
            [5, 8, 99, 10000, 2],
            [5, 0, 99, 10000, 2],
            [5, 0, 100, 10000, 2],
        ],
    )
}

fn extremes(rt: &impl Print) -> io::Result<()> {
    all_packed(
        rt,
        "the smallest and the largest key",
        &[[0, 0, 100, 0, 0], [4095, 7, 999, 9999, 1]],
    )
}

fn words(rt: &impl Print) -> io::Result<()> {
    println!(rt; "unpack:")?;
    let taken: [u64; 4] = [
        // K1, and the smallest and the largest key
        1345454082,
        3276800,
        1099510828575,
        // frame 9,999
        3296798,
    ];
    let refused: [u64; 7] = [
        // frame 10,000, folder 99 and 1000
        3296800,
        3244034,
        32768002,
        // both bad: the folder comes first
        0,
        // all 40 bits, one more, and all 64
        1099511627775,
        1099511627776,
        u64::MAX,
    ];
    for word in taken.iter().chain(refused.iter()) {
        unpack(rt, *word)?;
    }
    Ok(())
}

fn main(rt: HostRuntime) -> io::Result<()> {
    bounds(&rt)?;
    first_bad(&rt)?;
    extremes(&rt)?;
    words(&rt)
}
