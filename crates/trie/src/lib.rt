// Tries over the node arena (src/trie.rs of the Rust). `used` is how many of the arena's node slots are in use.
#![tactic(auto)]

ghost use Rattle.std.specs.Prelude.{◌≡◌, true, ◌+◌, ◌*◌, ◌^◌, ◌<◌};
ghost use Rattle.lists.specs.Lists.{mem};
ghost use Rattle.region.specs.Tries.{byte_of, members};
ghost use Rattle.arena.specs.Arena.{nodes_in, Root, Tries, Arena};
ghost use Rattle.trie.specs.Walked.{Walked};
ghost use Rattle.trie.specs.Answers.{InsertedAs, RemovedAs};

use arena::{NoRoom, Shape, read, write};
use sliced_int::byte;

// A node, and how many bytes of a suffix lead to it.
#[derive(Clone, Copy)]
struct Spot {
    n: usize,
    j: usize,
}

// What a removal did: three outcomes, two of them with the nodes in use afterwards, so an enum of its own is plainest. After Last the root is free too.
#[derive(Clone, Copy, Debug, PartialEq, Eq)]
pub enum Removed {
    Gone(usize),
    Last(usize),
    Absent,
}

// The node to which the leading bytes of the suffix lead, before a bit that is clear or at the last level. A child is found with no rank.
fn descend(arena: &[u64], shape: Shape, root: usize, suffix: u64) -> Spot
    requires tries { Tries shape.slots shape.b arena.now }
    requires root { Root (nodes_in shape.slots arena.now) shape.slots root }
    ensures walked { Walked (nodes_in shape.slots arena.now) root suffix shape.b result.n result.j }
    ensures clear { result.j + 1 < shape.b → (nodes_in shape.slots arena.now).bit result.n (byte_of shape.b suffix result.j) ≡ 0 }
{
    let Shape { slots, b } = shape;
    let mut n = root;
    for j in 0..b - 1 {
        let x = byte(suffix, b, j);
        if !read::test(arena, slots, n, x) {
            return Spot { n, j };
        }
        n = read::child(arena, slots, n, x) as usize;
    }
    Spot { n, j: b - 1 }
}

// The node to which the first d bytes of a member lead. No bit is tested: those on the way to a member are set.
pub fn lead(arena: &[u64], shape: Shape, root: usize, suffix: u64, d: usize) -> usize
    requires tries { Tries shape.slots shape.b arena.now }
    requires root { Root (nodes_in shape.slots arena.now) shape.slots root }
    requires d_lt_b { d < shape.b }
    requires root_value { mem suffix (members (nodes_in shape.slots arena.now) shape.b root) ≡ true }
    ensures { Walked (nodes_in shape.slots arena.now) root suffix shape.b result d }
{
    let Shape { slots, b } = shape;
    let mut n = root;
    for j in 0..d {
        n = read::child(arena, slots, n, byte(suffix, b, j)) as usize;
    }
    n
}

// Whether the suffix is a member of the trie with the root.
pub fn contains(arena: &[u64], shape: Shape, root: usize, suffix: u64) -> bool
    requires tries { Tries shape.slots shape.b arena.now }
    requires root { Root (nodes_in shape.slots arena.now) shape.slots root }
    requires suffix_bound { suffix < 2 ^ (8 * shape.b) }
    ensures { result ≡ mem suffix (members (nodes_in shape.slots arena.now) shape.b root) }
{
    let Shape { slots, b } = shape;
    let Spot { n, j } = descend(arena, shape, root, suffix);
    if j + 1 < b {
        return false;
    }
    read::test(arena, slots, n, byte(suffix, b, j))
}

// Inserts the suffix. The nodes in use afterwards if it is new, None if it was there. Refused exactly when the nodes that the members would need pass what is there: one for each level below where the walk stops.
pub fn insert(
    arena: &mut [u64],
    shape: Shape,
    used: usize,
    root: usize,
    suffix: u64,
) -> Result<Option<usize>, NoRoom>
    requires arena { Arena shape.slots shape.b used arena.old }
    requires root { Root (nodes_in shape.slots arena.old) shape.slots root }
    requires suffix_bound { suffix < 2 ^ (8 * shape.b) }
    ensures { InsertedAs shape.slots shape.b used root suffix arena.old result arena.new }
{
    let Shape { slots, b } = shape;
    let Spot { mut n, j } = descend(arena, shape, root, suffix);
    if read::test(arena, slots, n, byte(suffix, b, j)) {
        return Ok(None);
    }
    if slots + (j + 1) < used + b {
        return Err(NoRoom);
    }
    let mut left = used;
    for i in j..b - 1 {
        let x = byte(suffix, b, i);
        let f = read::spare(arena, slots, slots - (left + 1)) as usize;
        write::hang(arena, slots, n, x, f, i + 1);
        n = f;
        left += 1;
    }
    write::set_bit(arena, slots, n, byte(suffix, b, b - 1));
    Ok(Some(left))
}

// Removes the suffix, and frees the nodes that it leaves empty, upward by the parent in word 5. The answer comes from the bit itself: that a path to it exists says nothing.
pub fn remove(arena: &mut [u64], shape: Shape, used: usize, root: usize, suffix: u64) -> Removed
    requires arena { Arena shape.slots shape.b used arena.old }
    requires root { Root (nodes_in shape.slots arena.old) shape.slots root }
    requires suffix_bound { suffix < 2 ^ (8 * shape.b) }
    ensures { RemovedAs shape.slots shape.b used root suffix arena.old result arena.new }
{
    let Shape { slots, b } = shape;
    let Spot { mut n, mut j } = descend(arena, shape, root, suffix);
    if j + 1 < b {
        return Removed::Absent; // no path
    }
    let y = byte(suffix, b, j);
    if !read::test(arena, slots, n, y) {
        return Removed::Absent; // a path, and no bit
    }
    write::clear_bit(arena, slots, n, y);
    let mut left = used;
    loop {
        if !read::is_empty(arena, slots, n) {
            return Removed::Gone(left);
        }
        if j == 0 {
            write::free(arena, slots, n, slots - left);
            return Removed::Last(left - 1);
        }
        let p = read::parent(arena, slots, n) as usize;
        let x = read::byte(arena, slots, n) as usize;
        write::unhang(arena, slots, p, x, n, slots - left);
        n = p;
        j -= 1;
        left -= 1;
    }
}
