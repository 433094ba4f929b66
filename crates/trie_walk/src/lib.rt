// The suffixes of a trie, read off its nodes: how many there are, and a part of them in ascending order.
#![tactic(auto)]

ghost use Rattle.std.specs.Prelude.{◌≡◌, ◌++◌, length, take, drop};
ghost use Rattle.region.specs.Tries.{members};
ghost use Rattle.arena.specs.Arena.{nodes_in, Tries, Root};
ghost use Rattle.trie_walk.specs.Pour.{window, state, poured, not_below};

mod batch;
mod words;

use arena::Shape;

// What is still to be passed over, and the place of the output for the next suffix.
#[derive(Clone, Copy)]
pub struct Step {
    pub skip: usize,
    pub at: usize,
}

// All suffixes of the trie with this root that are not below `from`: passed over, written, or left out for want of room.
fn pour(arena: &[u64], shape: Shape, root: usize, from: u64, skip: usize, out: &mut [u64]) -> Step
    requires tries { Tries shape.slots shape.b arena.now }
    requires root { Root (nodes_in shape.slots arena.now) shape.slots root }
    ensures { state result.skip result.at out.new ≡ poured (not_below from (members (nodes_in shape.slots arena.now) shape.b root)) (state skip 0 out.old) }
{
    let Shape { slots, b } = shape;
    let mut nodes = [0u64; 32];
    let leads = [0u64; 32];
    nodes[0] = root as u64;
    batch::below(arena, slots, b, &nodes, &leads, 1, from, skip, out, 0)
}

// How many suffixes the trie with this root has: as many as are passed over where none is written.
pub fn count(arena: &[u64], shape: Shape, root: usize) -> usize
    requires tries { Tries shape.slots shape.b arena.now }
    requires root { Root (nodes_in shape.slots arena.now) shape.slots root }
    ensures { result ≡ length (members (nodes_in shape.slots arena.now) shape.b root) }
{
    let mut none = [0u64; 1];
    let s = pour(arena, shape, root, 0, usize::MAX, &mut none);
    usize::MAX - s.skip
}

// Writes the suffixes of the trie with this root, ascending, from the one with number `start` on, as far as the output reaches.
// Answers how many were written.
pub fn walk(arena: &[u64], shape: Shape, root: usize, start: usize, out: &mut [u64]) -> usize
    requires tries { Tries shape.slots shape.b arena.now }
    requires root { Root (nodes_in shape.slots arena.now) shape.slots root }
    ensures number { result ≡ length (window start (length out.old) (members (nodes_in shape.slots arena.now) shape.b root)) }
    ensures written { out.new ≡ window start (length out.old) (members (nodes_in shape.slots arena.now) shape.b root) ++ drop (length (window start (length out.old) (members (nodes_in shape.slots arena.now) shape.b root))) out.old }
{
    // Where there is no room, nothing need be passed over.
    if out.len() == 0 {
        return 0;
    }
    let s = pour(arena, shape, root, 0, start, out);
    s.at
}

// Writes the suffixes of the trie with this root that are not below `from`, ascending, as far as the output reaches.
// Subtrees that end below `from` are not entered. Answers how many were written.
pub fn walk_from(arena: &[u64], shape: Shape, root: usize, from: u64, out: &mut [u64]) -> usize
    requires tries { Tries shape.slots shape.b arena.now }
    requires root { Root (nodes_in shape.slots arena.now) shape.slots root }
    ensures number { result ≡ length (take (length out.old) (not_below from (members (nodes_in shape.slots arena.now) shape.b root))) }
    ensures written { out.new ≡ take (length out.old) (not_below from (members (nodes_in shape.slots arena.now) shape.b root)) ++ drop (length (take (length out.old) (not_below from (members (nodes_in shape.slots arena.now) shape.b root)))) out.old }
{
    let s = pour(arena, shape, root, from, 0, out);
    s.at
}
