// Replays the oracle's answers on suffix bytes and the parts of a word (answers/sliced_int.txt, on standard input) over the proved SlicedInt,
// and compares every number. The parts of a word are held against the definitions of document 01.
#![tactic(auto)]

ghost use Rattle.std.specs.Prelude.{◌<◌, ◌≤◌};

mod parts;

use replay::input;
use replay::stop::Stop;
use replay::tally::Tally;
use sliced_int::SlicedInt;
use std::alloc::Global;
use std::cmp::Ordering;
use std::io;

// The most bytes that are read of the text.
const LONGEST: usize = 262144;

fn order_of(order: Ordering) -> u64 {
    match order {
        Ordering::Less => 0,
        Ordering::Equal => 1,
        Ordering::Greater => 2,
    }
}

// What an operation on suffixes of so many bytes comes to, and what is recorded of it.
fn on_bytes(alloc: Global, op: u64, b: usize, line: &[u64]) -> Result<(Vec<u64>, &[u64]), Stop>
    requires { b ≤ 5 }
{
    match (op, line) {
        (1, [v, recorded @ ..]) if !recorded.is_empty() => {
            let x = SlicedInt::from_int(*v, b);
            let mut bytes = Vec::new(alloc);
            for j in 0..b {
                bytes.push(x.get(j) as u64)?;
            }
            Ok((bytes, recorded))
        }
        (2, [v, recorded @ ..]) if !recorded.is_empty() => {
            let number = SlicedInt::from_int(*v, b).to_int();
            Ok((vec![in alloc; number]?, recorded))
        }
        (3, [u, v, recorded @ ..]) => {
            let x = SlicedInt::from_int(*u, b);
            let order = x.compare_same_len(SlicedInt::from_int(*v, b));
            Ok((vec![in alloc; order_of(order)]?, recorded))
        }
        _ => Err(Stop::BadNumbers),
    }
}

// The same for the parts of a word, of which the prefix has 1 to 24 bits, and the suffix 1 to 40.
fn on_words(alloc: Global, op: u64, line: &[u64]) -> Result<(Vec<u64>, &[u64]), Stop> {
    match (op, line) {
        (4, [1..=24, s @ 1..=40, word, recorded @ ..]) if !recorded.is_empty() => {
            let (prefix, suffix) = (parts::prefix(*s, *word), parts::suffix(*s, *word));
            Ok((vec![in alloc; prefix, suffix]?, recorded))
        }
        (5, [1..=24, s @ 1..=40, prefix, suffix, recorded @ ..]) => {
            Ok((vec![in alloc; parts::word(*s, *prefix, *suffix)]?, recorded))
        }
        _ => Err(Stop::BadNumbers),
    }
}

// The same for any operation. A suffix has 1 to 5 bytes.
fn answered(alloc: Global, op: u64, line: &[u64]) -> Result<(Vec<u64>, &[u64]), Stop> {
    match (op, line) {
        (1..=3, [b @ 1..=5, line @ ..]) => on_bytes(alloc, op, *b as usize, line),
        (1..=3, _) => Err(Stop::BadNumbers),
        (4 | 5, _) => on_words(alloc, op, line),
        _ => Err(Stop::Unknown(op)),
    }
}

fn all_lines(rt: &impl Print, alloc: Global, tally: &mut Tally, text: &[u8]) -> Result<(), Stop> {
    for line in text.split_inclusive(|b| *b == b'\n') {
        if let Some(numbers) = tally.take(line)? {
            let (op, line) = numbers.split_first().ok_or(Stop::BadNumbers)?;
            let (came, recorded) = answered(alloc, *op, line)?;
            tally.judge(rt, *op, recorded, &came)?;
        }
    }
    tally.at_end()
}

fn main(rt: HostRuntime) -> io::Result<()> {
    let alloc = rt.alloc();
    let text = input::read(&rt, LONGEST)?;
    println!(rt; "answers/sliced_int.txt over SlicedInt and document 01's parts of a word:")?;
    let mut tally = Tally::new(alloc);
    let end = all_lines(&rt, alloc, &mut tally, &text);
    let to_the_end = tally.came_to_end(&rt, end)?;
    tally.say_rows(
        &rt,
        &[
            ("bytes of a suffix", 1),
            ("bytes read back", 2),
            ("order", 3),
            ("prefix and suffix of a word", 4),
            ("word of a prefix and a suffix", 5),
        ],
    )?;
    tally.verdict(&rt, to_the_end, 0)
}
