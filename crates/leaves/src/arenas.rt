// An arena, looked at once: its tries asked, counted, walked, made of a strip and poured out.
ghost use Rattle.std.specs.Prelude.{◌≡◌, ◌≤◌, length};
ghost use Rattle.arena.specs.Arena.{Arena};
ghost use Rattle.leaves.specs.Kept.{Kept};
ghost use Rattle.leaves.specs.Checked.{Narrow, Plantable};

use super::REFUSED;
use super::checks::{checked, is_arena, measured, narrow, plantable, rooted};
use arena::{NoRoom, Shape};
use trie_look::contains_each;

// The C interface's number for no room.
const NO_ROOM: u64 = u64::MAX - 1;

// The root of a new trie, REFUSED or NO_ROOM if there is none, and the nodes in use.
#[repr(C)]
#[derive(Clone, Copy)]
pub struct Built {
    pub root: u64,
    pub used: u64,
}

// How many suffixes were written, REFUSED if the trie was not poured out, and the nodes in use.
#[repr(C)]
#[derive(Clone, Copy)]
pub struct Poured {
    pub written: u64,
    pub used: u64,
}

// 1 if the arena is well formed, else 0.
pub fn leaf_arena_check(arena: &[u64], slots: u64, used: u64, b: u64) -> u64 {
    let Some(shape) = measured(arena, slots, b) else {
        return REFUSED;
    };
    u64::from(is_arena(arena, shape.slots, used as usize, shape.b))
}

// The suffixes, 64 at a time.
fn ask(arena: &[u64], shape: Shape, used: usize, root: usize, suffixes: &[u64], answers: &mut [u8])
    requires kept { Kept shape.slots shape.b root used arena.now }
    requires narrow { Narrow shape.b suffixes.now }
    requires answers_len { length answers.old ≡ length suffixes.now }
{
    let roots = [root as u64; 64];
    let mut i = 0;
    while i < suffixes.len() {
        let n = (suffixes.len() - i).min(64);
        contains_each(
            arena,
            shape,
            &roots[0..n],
            &suffixes[i..i + n],
            &mut answers[i..i + n],
        );
        i += n;
    }
}

// Whether the trie with the root has each suffix, 1 or 0, and how many were asked.
pub fn leaf_trie_ask(
    arena: &[u64],
    slots: u64,
    used: u64,
    b: u64,
    root: u64,
    suffixes: &[u64],
    answers: &mut [u8],
) -> u64 {
    if answers.len() != suffixes.len() {
        return REFUSED;
    }
    let Some(shape) = rooted(arena, slots, used, b, root) else {
        return REFUSED;
    };
    if !narrow(suffixes, shape.b) {
        return REFUSED;
    }
    ask(
        arena,
        shape,
        used as usize,
        root as usize,
        suffixes,
        answers,
    );
    suffixes.len() as u64
}

// How many suffixes the trie with the root has.
pub fn leaf_trie_count(arena: &[u64], slots: u64, used: u64, b: u64, root: u64) -> u64 {
    let Some(shape) = rooted(arena, slots, used, b, root) else {
        return REFUSED;
    };
    trie_walk::count(arena, shape, root as usize) as u64
}

// The suffixes of the trie with the root, ascending, from the one with number `start` on, and how many found room.
pub fn leaf_trie_walk(
    arena: &[u64],
    slots: u64,
    used: u64,
    b: u64,
    root: u64,
    start: u64,
    out: &mut [u64],
) -> u64 {
    let Some(shape) = rooted(arena, slots, used, b, root) else {
        return REFUSED;
    };
    trie_walk::walk(arena, shape, root as usize, start as usize, out) as u64
}

// The same from the first suffix, so many times: how many were written in all, modulo 2^64.
pub fn leaf_trie_walks(
    arena: &[u64],
    slots: u64,
    used: u64,
    b: u64,
    root: u64,
    times: u64,
    out: &mut [u64],
) -> u64 {
    let Some(shape) = rooted(arena, slots, used, b, root) else {
        return REFUSED;
    };
    let mut written: u64 = 0;
    for _ in 0..times {
        let n = trie_walk::walk(arena, shape, root as usize, 0, out) as u64;
        written = written.wrapping_add(n);
    }
    written
}

// A trie made of 1 to 1,025 different suffixes, under a container.
pub fn leaf_trie_build(
    arena: &mut [u64],
    slots: u64,
    used: u64,
    b: u64,
    container: u64,
    strip: &[u64],
) -> Built {
    let refused = Built {
        root: REFUSED,
        used,
    };
    let Some(shape) = checked(arena, slots, used, b) else {
        return refused;
    };
    if !plantable(strip, shape.b) {
        return refused;
    }
    match trie_pour::plant(arena, shape, used as usize, container as usize, strip) {
        Ok((root, left)) => Built {
            root: root as u64,
            used: left as u64,
        },
        Err(_) => Built {
            root: NO_ROOM,
            used,
        },
    }
}

// The suffixes of the trie with the root, ascending; its nodes are freed, the root too. Refused if they do not all find room.
pub fn leaf_trie_pour(
    arena: &mut [u64],
    slots: u64,
    used: u64,
    b: u64,
    root: u64,
    out: &mut [u64],
) -> Poured {
    let refused = Poured {
        written: REFUSED,
        used,
    };
    let Some(shape) = rooted(arena, slots, used, b, root) else {
        return refused;
    };
    let written = trie_walk::count(arena, shape, root as usize);
    if written > out.len() {
        return refused;
    }
    let left = trie_pour::pour(arena, shape, used as usize, root as usize, out);
    Poured {
        written: written as u64,
        used: left as u64,
    }
}

// A trie made of the strip and poured out again. The arena has as many nodes in use as before.
fn cross(
    arena: &mut [u64],
    shape: Shape,
    used: usize,
    container: usize,
    strip: &[u64],
    out: &mut [u64],
) -> Result<(), NoRoom>
    requires arena { Arena shape.slots shape.b used arena.old }
    requires plantable { Plantable shape.b strip.now }
    requires strip_in_bounds { length strip.now ≤ length out.old }
    ensures { Arena shape.slots shape.b used arena.new }
{
    let (root, left) = trie_pour::plant(arena, shape, used, container, strip)?;
    trie_pour::pour(arena, shape, left, root, out);
    Ok(())
}

// So many times a trie made of the strip and poured out again, and how many times there was room.
pub fn leaf_trie_cross(
    arena: &mut [u64],
    slots: u64,
    used: u64,
    b: u64,
    container: u64,
    strip: &[u64],
    out: &mut [u64],
    times: u64,
) -> u64 {
    if strip.len() > out.len() {
        return REFUSED;
    }
    let Some(shape) = checked(arena, slots, used, b) else {
        return REFUSED;
    };
    if !plantable(strip, shape.b) {
        return REFUSED;
    }
    for i in 0..times {
        if cross(arena, shape, used as usize, container as usize, strip, out).is_err() {
            return i;
        }
    }
    times
}
