// Runs document 01's worked numbers K6 to K9 and K11, and the ticket, through make, the list and the walk, and writes what a person can hold against the document.
#![tactic(auto)]

use promises::{
    Card, Fields, Folder, Frame, Kind, ListRefusal, MakeRefusal, Rollover, UnpackRefusal,
    WalkRefusal,
};
use std::alloc::{AllocError, Global};
use std::{fmt, io};

// As long as the region of the ticket asks: 4,200 + 265·24.
const WORDS: usize = 10560;

// What every answer holds before a list, so that one that is not written shows.
const OLD: u8 = 9;

const RAW: Kind = Kind(0);

const SIDECAR: Kind = Kind(1);

// What a command of a list does, by its code.
#[derive(Clone, Copy)]
enum Action {
    Lookup = 0,
    Insert = 1,
    Remove = 2,
}

// What a list told, with the number of its refusal.
#[derive(Clone, Copy)]
struct Told(Result<(), ListRefusal>);

impl fmt::Display for Told {
    fn fmt<W: fmt::Write>(&self, f: &mut fmt::Formatter<W>) -> fmt::Result {
        match self.0 {
            Ok(()) => write!(f, "done"),
            Err(ListRefusal::Malformed) => write!(f, "1, region not well formed"),
            Err(ListRefusal::BadLengths) => write!(f, "4, lengths"),
            Err(ListRefusal::UnknownCode(_)) => write!(f, "5, unknown code"),
            Err(ListRefusal::WordTooLarge(_)) => write!(f, "6, word too large"),
            Err(ListRefusal::NoRoom(i)) => write!(f, "9, no room, at command {i}"),
        }
    }
}

// A word of the set, shown by its card, its folder and its frame.
#[derive(Clone, Copy)]
struct Key(u64);

impl fmt::Display for Key {
    fn fmt<W: fmt::Write>(&self, f: &mut fmt::Formatter<W>) -> fmt::Result {
        match keys::unpack(self.0) {
            Ok(
                Fields {
                    card: Card(card),
                    folder: Folder(folder),
                    frame: Frame(frame),
                    ..
                },
            ) => write!(f, "card {card}, folder {folder}, frame {frame}"),
            Err(UnpackRefusal::WordTooLarge) => write!(f, "6, word too large"),
            Err(UnpackRefusal::FieldOutOfRange(_)) => write!(f, "10, field out of range"),
        }
    }
}

// What is said of a walk that is refused.
fn why(refusal: WalkRefusal) -> &'static str {
    match refusal {
        WalkRefusal::Malformed => "1, region not well formed",
        WalkRefusal::StartTooFar => "8, start too far",
    }
}

// So many words from `first` on, each `step` after the one before, modulo 2^64.
fn in_a_row(alloc: Global, first: u64, step: u64, many: u64) -> Result<Vec<u64>, AllocError> {
    (0..many)
        .map(|i| first.wrapping_add(step.wrapping_mul(i)))
        .collect(alloc)
}

// A line: what a list of one action on all the words tells, its answers, and what words 5 to 7 of the header count then.
fn list(
    rt: &impl Print,
    alloc: Global,
    name: &str,
    region: &mut [u64],
    action: Action,
    words: &[u64],
) -> io::Result<()> {
    let codes = vec![in alloc; action as u8; words.len()]?;
    let mut answers = vec![in alloc; OLD; words.len()]?;
    let told = Told(wordset_list::list(region, &codes, words, &mut answers));
    let ones = answers.iter().filter(|answer| **answer == 1).count();
    let zeros = answers.iter().filter(|answer| **answer == 0).count();
    print!(rt; "{name}: {told}; answers 1: {ones}, answers 0: {zeros}")?;
    let [_, _, _, _, _, containers, nodes, members, ..] = region else {
        return Ok(());
    };
    println!(rt; "; containers {containers}, nodes {nodes}, members {members}")
}

fn fresh(rt: &impl Print, name: &str, region: &mut [u64], s: u64, n: u64) -> io::Result<()> {
    let answer = match make::make(region, 12, s, 4, n) {
        Ok(()) => "made",
        Err(MakeRefusal::OutOfRange) => "2, out of range",
        Err(MakeRefusal::TooShort) => "3, too short",
    };
    println!(rt; "\n{name}: {answer}")
}

// A line of the walk: how many words, the first and the last, and whether they ascend.
fn walk(rt: &impl Print, alloc: Global, region: &[u64]) -> io::Result<()> {
    let mut words = vec![in alloc; 0u64; 1100]?;
    match wordset_walk::walk(region, 0, &mut words) {
        Ok(many) => words.truncate(many),
        Err(refusal) => return println!(rt; "  walk: {}", why(refusal)),
    }
    let many = words.len();
    let ascending = if words.is_sorted_by(|a, b| a < b) {
        "ascending"
    } else {
        "not ascending"
    };
    match (words.first(), words.last()) {
        (Some(first), Some(last)) => {
            println!(rt; "  walk: {many} words, {first} to {last}, {ascending}")
        }
        _ => println!(rt; "  walk: {many} words"),
    }
}

// K6, K7 and K9. The inserts go down, so that the order of K9 is not the order of the inserts.
fn thresholds(rt: &impl Print, alloc: Global, region: &mut [u64]) -> io::Result<()> {
    fresh(rt, "P=12, S=28, C=4, N=8", region, 28, 8)?;
    let down = in_a_row(alloc, 1023, u64::MAX, 1024)?;
    list(
        rt,
        alloc,
        "K6 insert 1,023 down to 0",
        region,
        Action::Insert,
        &down,
    )?;
    walk(rt, alloc, region)?;
    list(
        rt,
        alloc,
        "K7 insert 1,024",
        region,
        Action::Insert,
        &[1024],
    )?;
    walk(rt, alloc, region)?;
    list(
        rt,
        alloc,
        "K9 remove 1,024",
        region,
        Action::Remove,
        &[1024],
    )?;
    walk(rt, alloc, region)
}

// K7 where a node is missing, and K8.
fn node_slots(rt: &impl Print, alloc: Global, region: &mut [u64]) -> io::Result<()> {
    let words = in_a_row(alloc, 0, 1, 1025)?;
    fresh(rt, "P=12, S=28, C=4, N=8", region, 28, 8)?;
    list(
        rt,
        alloc,
        "K7 insert 0 to 1,024",
        region,
        Action::Insert,
        &words,
    )?;
    fresh(rt, "P=12, S=28, C=4, N=7", region, 28, 7)?;
    list(
        rt,
        alloc,
        "K7 insert 0 to 1,024",
        region,
        Action::Insert,
        &words,
    )?;
    walk(rt, alloc, region)?;
    fresh(rt, "P=12, S=16, C=4, N=6", region, 16, 6)?;
    list(
        rt,
        alloc,
        "K8 insert 0 to 1,024",
        region,
        Action::Insert,
        &words,
    )
}

fn absent(rt: &impl Print, alloc: Global, region: &mut [u64]) -> io::Result<()> {
    let even = in_a_row(alloc, 0, 2, 1025)?;
    let odd = in_a_row(alloc, 1, 2, 1025)?;
    let other = [(1 << 28) + 7];
    fresh(rt, "P=12, S=28, C=4, N=12", region, 28, 12)?;
    list(
        rt,
        alloc,
        "K11 insert even 0 to 2,048",
        region,
        Action::Insert,
        &even,
    )?;
    list(
        rt,
        alloc,
        "K11 remove odd 1 to 2,049",
        region,
        Action::Remove,
        &odd,
    )?;
    walk(rt, alloc, region)?;
    list(
        rt,
        alloc,
        "K11 insert suffix 7 under prefix 1",
        region,
        Action::Insert,
        &other,
    )?;
    walk(rt, alloc, region)
}

// The key of a frame, or a word that every list refuses.
fn key_of(card: u64, folder: u64, frame: u64, kind: Kind) -> u64 {
    let fields = Fields {
        card: Card(card),
        rollover: Rollover(0),
        folder: Folder(folder),
        frame: Frame(frame),
        kind,
    };
    keys::pack(fields).unwrap_or(u64::MAX)
}

// The keys of frames 100-0001 to 100-2000 of a card.
fn frames(alloc: Global, card: u64, kind: Kind) -> Result<Vec<u64>, AllocError> {
    (1..=2000u64)
        .map(|frame| key_of(card, 100, frame, kind))
        .collect(alloc)
}

// How many words stand on a card.
fn on_card(words: &[u64], card: u64) -> usize {
    words.iter().filter(|word| **word >> 28 == card).count()
}

// What each card shows: its words in the walk.
fn cards(rt: &impl Print, alloc: Global, region: &[u64]) -> io::Result<()> {
    let mut words = vec![in alloc; 0u64; 2100]?;
    match wordset_walk::walk(region, 0, &mut words) {
        Ok(many) => words.truncate(many),
        Err(refusal) => return println!(rt; "  {}", why(refusal)),
    }
    print!(rt;
        "  card 5 shows {}, card 6 shows {}",
        on_card(&words, 5),
        on_card(&words, 6)
    )?;
    if let Some(last) = words.last() {
        print!(rt; "; the last is {}", Key(*last))?;
    }
    println!(rt)
}

// docs/TICKET.md: raw keys are cached, then as many sidecars that never were are deleted.
fn delete_batch(rt: &impl Print, alloc: Global, region: &mut [u64]) -> io::Result<()> {
    let raws = frames(alloc, 5, RAW)?;
    let sidecars = frames(alloc, 5, SIDECAR)?;
    let deleted = "delete the 2,000 sidecars of card 5, none cached";
    let looked = "look up the 2,000 raw keys of card 5";
    fresh(rt, "The ticket, P=12, S=28, C=4, N=24", region, 28, 24)?;
    list(
        rt,
        alloc,
        "cache 2,000 raw keys of card 5",
        region,
        Action::Insert,
        &raws,
    )?;
    list(rt, alloc, deleted, region, Action::Remove, &sidecars)?;
    list(rt, alloc, looked, region, Action::Lookup, &raws)
}

// Then the next card is opened.
fn next_card(rt: &impl Print, alloc: Global, region: &mut [u64]) -> io::Result<()> {
    let first = [key_of(6, 101, 1, RAW)];
    let raws = frames(alloc, 6, RAW)?;
    let looked = "look up the same 2,000 raw keys of card 6";
    list(
        rt,
        alloc,
        "cache 101-0001 of card 6",
        region,
        Action::Insert,
        &first,
    )?;
    list(rt, alloc, looked, region, Action::Lookup, &raws)?;
    cards(rt, alloc, region)
}

fn main(rt: HostRuntime) -> io::Result<()> {
    let alloc = rt.alloc();
    let mut region = vec![in alloc; 0u64; WORDS]?;
    println!(rt; "Each line: what the list tells, its answers, and the header's counts.")?;
    thresholds(&rt, alloc, &mut region)?;
    node_slots(&rt, alloc, &mut region)?;
    absent(&rt, alloc, &mut region)?;
    delete_batch(&rt, alloc, &mut region)?;
    next_card(&rt, alloc, &mut region)
}
