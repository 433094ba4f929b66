// A trie in an arena: looked at once, then commands in a row.
ghost use Rattle.std.specs.Prelude.{◌≡◌, ◌*◌, ◌^◌, ◌<◌, true, length};
ghost use Rattle.leaves.specs.Kept.{Kept};

use super::REFUSED;
use super::checks::{limit, rooted};
use arena::Shape;
use trie::Removed;

// How many commands were done, REFUSED if none could be, and the nodes in use.
#[repr(C)]
#[derive(Clone, Copy)]
pub struct Ran {
    pub done: u64,
    pub used: u64,
}

// Whether the trie is still there to go on with, what the command answered, and the nodes in use. `on` makes no option of it: the other two count either way.
#[derive(Clone, Copy)]
struct Step {
    on: bool,
    answer: u8,
    used: usize,
}

// 1 new, 0 old, 2 no room.
fn put(arena: &mut [u64], shape: Shape, used: usize, root: usize, suffix: u64) -> Step
    requires kept { Kept shape.slots shape.b root used arena.old }
    requires suffix_bound { suffix < 2 ^ (8 * shape.b) }
    ensures { result.on ≡ true → Kept shape.slots shape.b root result.used arena.new }
{
    match trie::insert(arena, shape, used, root, suffix) {
        Ok(Some(left)) => Step {
            on: true,
            answer: 1,
            used: left,
        },
        Ok(None) => Step {
            on: true,
            answer: 0,
            used,
        },
        Err(_) => Step {
            on: false,
            answer: 2,
            used,
        },
    }
}

// 1 gone, 0 absent, 2 gone and it was the last.
fn drop(arena: &mut [u64], shape: Shape, used: usize, root: usize, suffix: u64) -> Step
    requires kept { Kept shape.slots shape.b root used arena.old }
    requires suffix_bound { suffix < 2 ^ (8 * shape.b) }
    ensures { result.on ≡ true → Kept shape.slots shape.b root result.used arena.new }
{
    match trie::remove(arena, shape, used, root, suffix) {
        Removed::Gone(left) => Step {
            on: true,
            answer: 1,
            used: left,
        },
        Removed::Last(left) => Step {
            on: false,
            answer: 2,
            used: left,
        },
        Removed::Absent => Step {
            on: true,
            answer: 0,
            used,
        },
    }
}

// One command: 0 asks, 1 inserts, any other removes.
fn one(arena: &mut [u64], shape: Shape, used: usize, root: usize, code: u8, suffix: u64) -> Step
    requires kept { Kept shape.slots shape.b root used arena.old }
    requires suffix_bound { suffix < 2 ^ (8 * shape.b) }
    ensures { result.on ≡ true → Kept shape.slots shape.b root result.used arena.new }
{
    match code {
        0 => Step {
            on: true,
            answer: u8::from(trie::contains(arena, shape, root, suffix)),
            used,
        },
        1 => put(arena, shape, used, root, suffix),
        _ => drop(arena, shape, used, root, suffix),
    }
}

fn run(
    arena: &mut [u64],
    shape: Shape,
    used: usize,
    root: usize,
    codes: &[u8],
    suffixes: &[u64],
    answers: &mut [u8],
) -> Ran
    requires kept { Kept shape.slots shape.b root used arena.old }
    requires codes_len { (length codes.now ≡ length suffixes.now) × (length answers.old ≡ length suffixes.now) }
{
    let end = limit(shape.b);
    let mut left = used;
    for (i, &s) in suffixes.iter().enumerate() {
        if s >= end {
            return Ran {
                done: i as u64,
                used: left as u64,
            };
        }
        let step = one(arena, shape, left, root, codes[i], s);
        answers[i] = step.answer;
        left = step.used;
        if !step.on {
            return Ran {
                done: i as u64 + 1,
                used: left as u64,
            };
        }
    }
    Ran {
        done: suffixes.len() as u64,
        used: left as u64,
    }
}

// Commands on the trie with the root, each with its answer: 2 is no room, or the last suffix gone, and ends the row.
// So does a suffix that has more than b bytes, which is not done.
pub fn leaf_trie_run(
    arena: &mut [u64],
    slots: u64,
    used: u64,
    b: u64,
    root: u64,
    codes: &[u8],
    suffixes: &[u64],
    answers: &mut [u8],
) -> Ran {
    let refused = Ran {
        done: REFUSED,
        used,
    };
    if codes.len() != suffixes.len() || answers.len() != suffixes.len() {
        return refused;
    }
    let Some(shape) = rooted(arena, slots, used, b, root) else {
        return refused;
    };
    run(
        arena,
        shape,
        used as usize,
        root as usize,
        codes,
        suffixes,
        answers,
    )
}
