// What a line of a script asks for, or what was expected instead.
use std::alloc::{AllocError, Global};
use std::fmt;
use std::ops::RangeInclusive;
use std::slice::Iter;
use thiserror::Error;

#[derive(Clone, Copy, Debug, PartialEq, Eq)]
pub enum Verb {
    Look,
    Cache,
    Delete,
}

#[derive(Clone, Copy, Debug, PartialEq, Eq)]
pub enum Kind {
    Raw,
    Sidecar,
}

// Frames of one folder, first and last included, of one kind.
#[derive(Clone, Copy, Debug)]
pub struct Batch {
    pub verb: Verb,
    pub card: u64,
    pub rollover: u64,
    pub folder: u64,
    pub first: u64,
    pub last: u64,
    pub kind: Kind,
}

#[derive(Clone, Copy, Debug)]
pub enum Command {
    Region { cards: u64, nodes: u64 },
    Frames(Batch),
    Open(u64),
    Walk,
    Count,
}

#[derive(Clone, Copy, Debug, PartialEq, Eq, Error)]
pub enum Expected {
    #[error("expected region, cache, delete, look, open, walk or count")]
    Command,
    #[error("expected region CARDS NODES before anything else")]
    Region,
    #[error("expected no second region: one is made already")]
    OneRegion,
    #[error("expected room for cards, 1 to 8")]
    Cards,
    #[error("expected room for trie nodes, 0 to 64")]
    Nodes,
    #[error("expected a card, 0 to 4095")]
    Card,
    #[error("expected a rollover, 0 to 7")]
    Rollover,
    #[error("expected a folder, 100 to 999")]
    Folder,
    #[error("expected a frame, 0 to 9999, or FIRST-LAST")]
    Frames,
    #[error("expected FIRST-LAST with the first not above the last")]
    Order,
    #[error("expected raw or sidecar")]
    Kind,
    #[error("expected the end of the line")]
    End,
}

impl Verb {
    // The code of the command in a list.
    pub fn code(self) -> u8 {
        match self {
            Verb::Look => 0,
            Verb::Cache => 1,
            Verb::Delete => 2,
        }
    }
}

impl fmt::Display for Verb {
    fn fmt<W: fmt::Write>(&self, f: &mut fmt::Formatter<W>) -> fmt::Result {
        f.write_str(match self {
            Verb::Look => "look",
            Verb::Cache => "cache",
            Verb::Delete => "delete",
        })
    }
}

impl Kind {
    // The number of the kind in a key.
    pub fn code(self) -> u64 {
        match self {
            Kind::Raw => 0,
            Kind::Sidecar => 1,
        }
    }
}

impl fmt::Display for Kind {
    fn fmt<W: fmt::Write>(&self, f: &mut fmt::Formatter<W>) -> fmt::Result {
        f.pad(match self {
            Kind::Raw => "raw",
            Kind::Sidecar => "sidecar",
        })
    }
}

// The words of a line that are still to be read.
type Rest<'a, 'b> = Iter<'a, &'b str>;

// The words of a line: blanks are spaces, tabs and carriage returns, and a word that starts with '#' opens a comment.
pub fn words<'a>(alloc: Global, line: &'a str) -> Result<Vec<&'a str>, AllocError> {
    line.split([' ', '\t', '\r'])
        .filter(|word| !word.is_empty())
        .take_while(|word| !word.starts_with('#'))
        .collect(alloc)
}

// The number that a word is. It has digits alone: `parse` would take a sign too.
fn number(word: &str) -> Option<u64> {
    if word.bytes().all(|b| b.is_ascii_digit()) {
        word.parse().ok()
    } else {
        None
    }
}

// The number of a range that a word is.
fn number_in(word: &str, range: RangeInclusive<u64>) -> Option<u64> {
    number(word).filter(|n| range.contains(n))
}

fn next_number(
    rest: &mut Rest<'_, '_>,
    range: RangeInclusive<u64>,
    expected: Expected,
) -> Result<u64, Expected> {
    let word = rest.next().ok_or(expected)?;
    number_in(word, range).ok_or(expected)
}

// FRAME or FIRST-LAST
fn frames(rest: &mut Rest<'_, '_>) -> Result<(u64, u64), Expected> {
    let word = rest.next().ok_or(Expected::Frames)?;
    let (first, last) = word.split_once('-').unwrap_or((word, word));
    let first = number_in(first, 0..=9999).ok_or(Expected::Frames)?;
    let last = number_in(last, 0..=9999).ok_or(Expected::Frames)?;
    if last < first {
        return Err(Expected::Order);
    }
    Ok((first, last))
}

fn raw_or_sidecar(rest: &mut Rest<'_, '_>) -> Result<Kind, Expected> {
    match rest.next() {
        Some(&"raw") => Ok(Kind::Raw),
        Some(&"sidecar") => Ok(Kind::Sidecar),
        _ => Err(Expected::Kind),
    }
}

// CARD ROLLOVER FOLDER FRAME KIND
fn some_frames(verb: Verb, rest: &mut Rest<'_, '_>) -> Result<Command, Expected> {
    let card = next_number(rest, 0..=4095, Expected::Card)?;
    let rollover = next_number(rest, 0..=7, Expected::Rollover)?;
    let folder = next_number(rest, 100..=999, Expected::Folder)?;
    let (first, last) = frames(rest)?;
    let kind = raw_or_sidecar(rest)?;
    Ok(Command::Frames(Batch {
        verb,
        card,
        rollover,
        folder,
        first,
        last,
        kind,
    }))
}

// CARDS NODES
fn new_region(rest: &mut Rest<'_, '_>) -> Result<Command, Expected> {
    let cards = next_number(rest, 1..=8, Expected::Cards)?;
    let nodes = next_number(rest, 0..=64, Expected::Nodes)?;
    Ok(Command::Region { cards, nodes })
}

// What a name and the words behind it ask for. `made` says whether there is a region.
fn named(name: &str, rest: &mut Rest<'_, '_>, made: bool) -> Result<Command, Expected> {
    match name {
        "region" if made => Err(Expected::OneRegion),
        "region" => new_region(rest),
        "look" | "cache" | "delete" | "open" | "walk" | "count" if !made => Err(Expected::Region),
        "look" => some_frames(Verb::Look, rest),
        "cache" => some_frames(Verb::Cache, rest),
        "delete" => some_frames(Verb::Delete, rest),
        "open" => Ok(Command::Open(next_number(rest, 0..=4095, Expected::Card)?)),
        "walk" => Ok(Command::Walk),
        "count" => Ok(Command::Count),
        _ => Err(Expected::Command),
    }
}

// What the words of a line ask for, if there are any.
pub fn read(words: &[&str], made: bool) -> Result<Option<Command>, Expected> {
    let mut rest = words.iter();
    let Some(name) = rest.next() else {
        return Ok(None);
    };
    let command = named(name, &mut rest, made)?;
    match rest.next() {
        Some(_) => Err(Expected::End),
        None => Ok(Some(command)),
    }
}
