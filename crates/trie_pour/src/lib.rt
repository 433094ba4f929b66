// A trie made of a strip of suffixes, and one poured out into a strip.
#![tactic(auto)]

ghost use Rattle.std.specs.Prelude.{◌≡◌, false, [], ◌∷◌, ◌++◌, ℕ, ◌+◌, ◌-◌, ◌*◌, ◌^◌, ◌<◌, ◌≤◌, length, drop, get_or};
ghost use Rattle.lists.specs.Lists.{mem, put, sorted, Distinct};
ghost use Rattle.model.specs.Room.{trie_nodes};
ghost use Rattle.region.specs.Tries.{members};
ghost use Rattle.arena.specs.Arena.{nodes_in, Root, Arena, Became, Vanished, Planted};
ghost use Rattle.trie_pour.specs.Answers.{PlantedAs};

mod reap;
mod room;

use arena::{NoRoom, Shape, read, write};
use sliced_int::byte;

// A root, and the chain of nodes below it for one suffix.
fn plant_one(arena: &mut [u64], shape: Shape, used: usize, container: usize, suffix: u64) -> usize
    requires arena { Arena shape.slots shape.b used arena.old }
    requires suffix_bound { suffix < 2 ^ (8 * shape.b) }
    requires b_bound_2 { used + shape.b ≤ shape.slots }
    ensures { Planted shape.slots shape.b used arena.old container result (suffix ∷ []) (used + shape.b) arena.new }
{
    let Shape { slots, b } = shape;
    let root = read::spare(arena, slots, slots - (used + 1)) as usize;
    write::make_node(arena, slots, root, 1, container, 0);
    let mut n = root;
    let mut left = used + 1;
    for j in 0..b - 1 {
        let x = byte(suffix, b, j);
        let f = read::spare(arena, slots, slots - (left + 1)) as usize;
        write::hang(arena, slots, n, x, f, j + 1);
        n = f;
        left += 1;
    }
    write::set_bit(arena, slots, n, byte(suffix, b, b - 1));
    root
}

// Inserts a suffix that is new, where there is room for it. Answers the nodes in use afterwards.
fn add(arena: &mut [u64], shape: Shape, used: usize, root: usize, suffix: u64) -> usize
    requires arena { Arena shape.slots shape.b used arena.old }
    requires root { Root (nodes_in shape.slots arena.old) shape.slots root }
    requires suffix_bound { suffix < 2 ^ (8 * shape.b) }
    requires root_value { mem suffix (members (nodes_in shape.slots arena.old) shape.b root) ≡ false }
    requires root_bound { used + trie_nodes shape.b (put suffix (members (nodes_in shape.slots arena.old) shape.b root)) ≤ shape.slots + trie_nodes shape.b (members (nodes_in shape.slots arena.old) shape.b root) }
    ensures { Became shape.slots shape.b used arena.old root (put suffix (members (nodes_in shape.slots arena.old) shape.b root)) result arena.new }
{
    match trie::insert(arena, shape, used, root, suffix) {
        Ok(Some(left)) => left,
        Ok(None) | Err(NoRoom) => used, // not with a new suffix, and room for it
    }
}

// Inserts the suffixes of the strip before the last one, which is there. Answers the nodes in use afterwards.
fn grow(arena: &mut [u64], shape: Shape, used: usize, root: usize, strip: &[u64]) -> usize
    requires arena { Arena shape.slots shape.b used arena.old }
    requires root { Root (nodes_in shape.slots arena.old) shape.slots root }
    requires in_bounds { 1 ≤ length strip.now }
    requires by_index { (i : ℕ) → i < length strip.now → get_or strip.now i 0 < 2 ^ (8 * shape.b) }
    requires distinct { Distinct strip.now }
    requires root_value { members (nodes_in shape.slots arena.old) shape.b root ≡ get_or strip.now (length strip.now - 1) 0 ∷ [] }
    requires strip_bound { used + trie_nodes shape.b strip.now ≤ shape.slots + trie_nodes shape.b (members (nodes_in shape.slots arena.old) shape.b root) }
    ensures { Became shape.slots shape.b used arena.old root (sorted strip.now) result arena.new }
{
    let mut left = used;
    for i in (0..strip.len() - 1).rev() {
        left = add(arena, shape, left, root, strip[i]);
    }
    left
}

// Makes a trie of the suffixes of the strip, in any order, under a container: its root, and the nodes in use afterwards. Refused exactly when the nodes that they need pass what is there.
pub fn plant(
    arena: &mut [u64],
    shape: Shape,
    used: usize,
    container: usize,
    strip: &[u64],
) -> Result<(usize, usize), NoRoom>
    requires arena { Arena shape.slots shape.b used arena.old }
    requires in_bounds { 1 ≤ length strip.now }
    requires strip_len_bound { length strip.now ≤ 1025 }
    requires by_index { (i : ℕ) → i < length strip.now → get_or strip.now i 0 < 2 ^ (8 * shape.b) }
    requires distinct { Distinct strip.now }
    ensures { PlantedAs shape.slots shape.b used container strip.now arena.old result arena.new }
{
    let Shape { slots, b } = shape;
    if !room::fits(strip, b, slots - used) {
        return Err(NoRoom);
    }
    let root = plant_one(arena, shape, used, container, strip[strip.len() - 1]);
    let left = grow(arena, shape, used + b, root, strip);
    Ok((root, left))
}

// Writes the suffixes of the trie, ascending, and frees all its nodes, the root too. Never refused. Answers the nodes in use afterwards.
pub fn pour(arena: &mut [u64], shape: Shape, used: usize, root: usize, out: &mut [u64]) -> usize
    requires arena { Arena shape.slots shape.b used arena.old }
    requires root { Root (nodes_in shape.slots arena.old) shape.slots root }
    requires root_in_bounds { length (members (nodes_in shape.slots arena.old) shape.b root) ≤ length out.old }
    ensures written { out.new ≡ members (nodes_in shape.slots arena.old) shape.b root ++ drop (length (members (nodes_in shape.slots arena.old) shape.b root)) out.old }
    ensures vanished { Vanished shape.slots shape.b used arena.old root result arena.new }
{
    let n = trie_walk::walk(arena, shape, root, 0, out);
    reap::empty(arena, shape, used, root, &out[..n])
}
