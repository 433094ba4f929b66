// Inserts of several suffixes into one trie. One that differs from the one before only in its last two bytes begins at the node where that one's other bytes led.
#![tactic(auto)]

ghost use Rattle.std.specs.Prelude.{◌≡◌, true, ℕ, ◌+◌, ◌-◌, ◌*◌, ◌^◌, ◌<◌, ◌≤◌, length, get_or, IfSome, Some};
ghost use Rattle.arena.specs.Arena.{nodes_in, Root, Arena};
ghost use Rattle.trie.specs.Walked.{Walked};
ghost use Rattle.trie.specs.Answers.{InsertedAs};
ghost use Rattle.trie_each.specs.Each.{InsertedEach};
ghost use Rattle.trie_each.specs.Taking.{Beside, NodeAbove, Told, TookAs};

use arena::{NoRoom, Shape, read, write};
use sliced_int::byte;
use trie::{insert, lead};

// How many suffixes were taken, how many of them were new, and the nodes in use afterwards.
#[derive(Clone, Copy)]
pub struct Many {
    pub done: usize,
    pub added: usize,
    pub used: usize,
}

// How one suffix went for which there was room: whether it was new, the nodes in use, and, if there are two levels or more, the node to which all but its last two bytes lead.
#[derive(Clone, Copy)]
struct One {
    new: bool, // no Option with `used` inside: whether it is new and the nodes in use are two answers that always come together
    used: usize,
    above: Option<usize>,
}

// Inserts the suffix from node n on, to which all but its last two bytes lead. n stays that node.
fn insert_from(
    arena: &mut [u64],
    shape: Shape,
    used: usize,
    root: usize,
    suffix: u64,
    n: usize,
) -> Result<Option<usize>, NoRoom>
    requires arena { Arena shape.slots shape.b used arena.old }
    requires root { Root (nodes_in shape.slots arena.old) shape.slots root }
    requires le_b { 2 ≤ shape.b }
    requires suffix_bound { suffix < 2 ^ (8 * shape.b) }
    requires walked { Walked (nodes_in shape.slots arena.old) root suffix shape.b n (shape.b - 2) }
    ensures inserted { InsertedAs shape.slots shape.b used root suffix arena.old result arena.new }
    ensures stays { Walked (nodes_in shape.slots arena.new) root suffix shape.b n (shape.b - 2) }
{
    let Shape { slots, b } = shape;
    let x = byte(suffix, b, b - 2);
    let y = byte(suffix, b, b - 1);
    if read::test(arena, slots, n, x) {
        let f = read::child(arena, slots, n, x) as usize;
        if read::test(arena, slots, f, y) {
            return Ok(None);
        }
        write::set_bit(arena, slots, f, y);
        return Ok(Some(used));
    }
    if used >= slots {
        return Err(NoRoom);
    }
    let f = read::spare(arena, slots, slots - (used + 1)) as usize;
    write::hang(arena, slots, n, x, f, b - 1);
    write::set_bit(arena, slots, f, y);
    Ok(Some(used + 1))
}

// The node above the suffix before place i, if it is above the one at i too: they have the same bytes but for the last two.
fn beside(suffixes: &[u64], i: usize, above: Option<usize>) -> Option<usize>
    requires { i < length suffixes.now }
    ensures { IfSome result (λ n. (above ≡ Some n) × Beside suffixes.now i) }
{
    if i == 0 {
        return None;
    }
    if suffixes[i] >> 16 == suffixes[i - 1] >> 16 {
        return above;
    }
    None
}

// What an insert says for which there was room, with the node above passed on.
fn told(inserted: Option<usize>, used: usize, above: Option<usize>) -> One
    ensures { Told used above inserted result }
{
    One {
        new: inserted.is_some(),
        used: inserted.unwrap_or(used),
        above,
    }
}

// Inserts one suffix, from the node above it if that is known. The answer holds that node.
fn take_one(
    arena: &mut [u64],
    shape: Shape,
    used: usize,
    root: usize,
    suffix: u64,
    above: Option<usize>,
) -> Result<One, NoRoom>
    requires arena { Arena shape.slots shape.b used arena.old }
    requires root { Root (nodes_in shape.slots arena.old) shape.slots root }
    requires suffix_bound { suffix < 2 ^ (8 * shape.b) }
    requires above { NodeAbove (nodes_in shape.slots arena.old) root suffix shape.b above }
    ensures { TookAs shape.slots shape.b used root suffix arena.old result arena.new }
{
    if let Some(n) = above {
        let inserted = insert_from(arena, shape, used, root, suffix, n)?;
        return Ok(told(inserted, used, Some(n)));
    }
    let inserted = insert(arena, shape, used, root, suffix)?;
    if shape.b < 2 {
        return Ok(told(inserted, used, None));
    }
    let n = lead(arena, shape, root, suffix, shape.b - 2);
    Ok(told(inserted, used, Some(n)))
}

// Inserts the suffixes in order, until one finds no room. Ascending ones are quickest: those that lie side by side share a node.
pub fn insert_each(
    arena: &mut [u64],
    shape: Shape,
    used: usize,
    root: usize,
    suffixes: &[u64],
) -> Many
    requires arena { Arena shape.slots shape.b used arena.old }
    requires root { Root (nodes_in shape.slots arena.old) shape.slots root }
    requires by_index { (i : ℕ) → i < length suffixes.now → get_or suffixes.now i 0 < 2 ^ (8 * shape.b) }
    ensures { InsertedEach shape.slots shape.b used root suffixes.now arena.old result arena.new }
{
    let mut added: usize = 0;
    let mut left = used;
    // The node above the suffix before, where it is known.
    let mut above = None;
    for (i, &suffix) in suffixes.iter().enumerate() {
        let near = beside(suffixes, i, above);
        let Ok(one) = take_one(arena, shape, left, root, suffix, near) else {
            return Many {
                done: i,
                added,
                used: left,
            };
        };
        added += one.new as usize;
        left = one.used;
        above = one.above;
    }
    Many {
        done: suffixes.len(),
        added,
        used: left,
    }
}
