// Replays the oracle's answers on the map of a node (answers/tiny.txt, on standard input) over the proved TinyBitvector, and compares every number.
// Where an operation has a second form, which works on the map's words in place or goes from each byte to the next, that is replayed too.
#![tactic(auto)]

mod walk;

use bitvector::tiny;
use bitvector::tiny::TinyBitvector;
use replay::input;
use replay::stop::Stop;
use replay::tally::Tally;
use std::alloc::{AllocError, Global};
use std::io;

// The most bytes that are read of the text.
const LONGEST: usize = 262144;

// The row of an operation's second form is so much above the operation.
const SECOND: u64 = 10;

// A yes or no, and the map that is left.
fn and_map(alloc: Global, answer: bool, map: [u64; 4]) -> Result<Vec<u64>, AllocError> {
    let [a, b, c, d] = map;
    Ok(vec![in alloc; u64::from(answer), a, b, c, d]?)
}

fn first_form(
    alloc: Global,
    op: u64,
    map: TinyBitvector,
    x: u8,
) -> Result<Option<Vec<u64>>, AllocError> {
    let came = match op {
        1 => vec![in alloc; u64::from(map.contains(x))]?,
        2 => {
            let r = map.insert(x);
            and_map(alloc, r.absent, r.map.w)?
        }
        3 => {
            let r = map.remove(x);
            and_map(alloc, r.present, r.map.w)?
        }
        4 => vec![in alloc; u64::from(map.is_empty())]?,
        5 => vec![in alloc; map.count() as u64]?,
        6 => vec![in alloc; map.rank(x) as u64]?,
        7 => walk::by_taking(alloc, map)?,
        _ => return Ok(None),
    };
    Ok(Some(came))
}

fn second_form(
    alloc: Global,
    op: u64,
    map: TinyBitvector,
    x: u8,
) -> Result<Option<Vec<u64>>, AllocError> {
    let mut w = map.w;
    let came = match op {
        1 => vec![in alloc; u64::from(tiny::contains_in(&w, x))]?,
        2 => {
            let absent = tiny::insert_in(&mut w, x);
            and_map(alloc, absent, w)?
        }
        3 => {
            let present = tiny::remove_in(&mut w, x);
            and_map(alloc, present, w)?
        }
        7 => walk::by_next(alloc, map)?,
        _ => return Ok(None),
    };
    Ok(Some(came))
}

// Carries a line out in its forms, and compares.
fn carry_out(rt: &impl Print, alloc: Global, tally: &mut Tally, line: &[u64]) -> Result<(), Stop> {
    let (op, map, x, recorded) = match line {
        [op @ (1 | 2 | 3 | 6), a, b, c, d, x, recorded @ ..] => {
            (*op, [*a, *b, *c, *d], *x, recorded)
        }
        [op @ (4 | 5 | 7), a, b, c, d, recorded @ ..] => (*op, [*a, *b, *c, *d], 0, recorded),
        [1..=7, ..] | [] => return Err(Stop::BadNumbers),
        [op, ..] => return Err(Stop::Unknown(*op)),
    };
    let map = TinyBitvector { w: map };
    let x = u8::try_from(x).map_err(|_| Stop::BadNumbers)?;
    if let Some(came) = first_form(alloc, op, map, x)? {
        tally.judge(rt, op, recorded, &came)?;
    }
    if let Some(came) = second_form(alloc, op, map, x)? {
        tally.judge(rt, op.saturating_add(SECOND), recorded, &came)?;
    }
    Ok(())
}

fn all_lines(rt: &impl Print, alloc: Global, tally: &mut Tally, text: &[u8]) -> Result<(), Stop> {
    for line in text.split_inclusive(|b| *b == b'\n') {
        if let Some(numbers) = tally.take(line)? {
            carry_out(rt, alloc, tally, &numbers)?;
        }
    }
    tally.at_end()
}

fn main(rt: HostRuntime) -> io::Result<()> {
    let alloc = rt.alloc();
    let text = input::read(&rt, LONGEST)?;
    println!(rt; "answers/tiny.txt over TinyBitvector:")?;
    let mut tally = Tally::new(alloc);
    let end = all_lines(&rt, alloc, &mut tally, &text);
    let to_the_end = tally.came_to_end(&rt, end)?;
    tally.say_rows(
        &rt,
        &[
            ("contains", 1),
            ("insert", 2),
            ("remove", 3),
            ("is empty", 4),
            ("count", 5),
            ("rank", 6),
            ("walk", 7),
            ("contains in place", 11),
            ("insert in place", 12),
            ("remove in place", 13),
            ("walk by next", 17),
        ],
    )?;
    tally.verdict(&rt, to_the_end, 0)
}
