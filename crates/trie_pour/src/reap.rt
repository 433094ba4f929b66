// A trie emptied: node by node of the last level, and the last suffix of each by a removal, which frees what it leaves empty.
ghost use Rattle.std.specs.Prelude.{◌≡◌, true, [], ◌∷◌, ◌+◌, ◌-◌, ◌/◌, ◌<◌, ◌≤◌, length, take, drop, get_or};
ghost use Rattle.lists.specs.Lists.{mem, without};
ghost use Rattle.region.specs.Tries.{members};
ghost use Rattle.arena.specs.Arena.{nodes_in, Root, Arena, Became, Vanished};

use arena::{Shape, write};
use sliced_int::byte;
use trie::{Removed, lead};

// Removes a member, and with the only one the trie. Answers the nodes in use afterwards.
fn one_less(arena: &mut [u64], shape: Shape, used: usize, root: usize, suffix: u64) -> usize
    requires arena { Arena shape.slots shape.b used arena.old }
    requires root { Root (nodes_in shape.slots arena.old) shape.slots root }
    requires root_value { mem suffix (members (nodes_in shape.slots arena.old) shape.b root) ≡ true }
    ensures became { 2 ≤ length (members (nodes_in shape.slots arena.old) shape.b root) → Became shape.slots shape.b used arena.old root (without suffix (members (nodes_in shape.slots arena.old) shape.b root)) result arena.new }
    ensures vanished { members (nodes_in shape.slots arena.old) shape.b root ≡ suffix ∷ [] → Vanished shape.slots shape.b used arena.old root result arena.new }
{
    match trie::remove(arena, shape, used, root, suffix) {
        Removed::Gone(left) | Removed::Last(left) => left,
        Removed::Absent => used, // not a member's
    }
}

// Removes the members from place i on that have the leading bytes of the one there, all but the last: they share a node, and it keeps a bit, so none is freed. Answers the place of that last one.
fn thin(arena: &mut [u64], shape: Shape, used: usize, root: usize, out: &[u64], i: usize) -> usize
    requires arena { Arena shape.slots shape.b used arena.old }
    requires root { Root (nodes_in shape.slots arena.old) shape.slots root }
    requires i_bound { i + 1 < length out.now }
    requires root_value { members (nodes_in shape.slots arena.old) shape.b root ≡ drop i out.now }
    requires i_value { get_or out.now (i + 1) 0 / 256 ≡ get_or out.now i 0 / 256 }
    ensures after { i < result }
    ensures inside { result < length out.now }
    ensures became { Became shape.slots shape.b used arena.old root (drop result out.now) used arena.new }
{
    let Shape { slots, b } = shape;
    let node = lead(arena, shape, root, out[i], b - 1);
    let head = out[i] >> 8;
    let mut k = i;
    // No `for`: a turn comes before each test, and the range's end would need an answer of its own.
    loop {
        write::clear_bit(arena, slots, node, byte(out[k], b, b - 1));
        k += 1;
        if k + 1 == out.len() {
            return k;
        }
        if out[k + 1] >> 8 != head {
            return k;
        }
    }
}

// Removes the members, which are the entries of `out`. Answers the nodes in use afterwards.
pub(crate) fn empty(arena: &mut [u64], shape: Shape, used: usize, root: usize, out: &[u64]) -> usize
    requires arena { Arena shape.slots shape.b used arena.old }
    requires root { Root (nodes_in shape.slots arena.old) shape.slots root }
    requires root_value { members (nodes_in shape.slots arena.old) shape.b root ≡ out.now }
    ensures { Vanished shape.slots shape.b used arena.old root result arena.new }
{
    let mut left = used;
    let mut i: usize = 0;
    // A `while`: a step is one place, or as many as `thin` took.
    while i + 1 < out.len() {
        if out[i + 1] >> 8 == out[i] >> 8 {
            i = thin(arena, shape, left, root, out, i);
            continue;
        }
        left = one_less(arena, shape, left, root, out[i]);
        i += 1;
    }
    one_less(arena, shape, left, root, out[i])
}
