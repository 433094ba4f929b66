// What the words of the arena say: each getter is the definition's own function.
ghost use Rattle.std.specs.Prelude.{◌≡◌, List, ℕ, ◌+◌, ◌*◌, ◌<◌, ◌≤◌, true, false, eqb, length, drop};
ghost use Rattle.region.specs.Geometry.{node_words};
ghost use Rattle.region.specs.Nodes.{node_word};
ghost use Rattle.region.specs.WellFormed.{NonEmpty};
ghost use Rattle.arena.specs.Arena.{spare_in, nodes_in};

use bitvector::word as bits;

// Word i of node n. The part is taken first, so that in a loop its start is computed once.
pub fn word(arena: &[u64], slots: usize, n: usize, i: usize) -> u64
    requires arena_len { length arena.now ≡ slots + node_words * slots }
    requires n_lt_slots { n < slots }
    requires i_lt_node_words { i < node_words }
    ensures { result ≡ node_word (drop slots arena.now) n i }
{
    let nodes = &arena[slots..];
    nodes[n * 264 + i]
}

// Word 4: level+1, or 0 if free.
pub fn level1(arena: &[u64], slots: usize, n: usize) -> u64
    requires arena_len { length arena.now ≡ slots + node_words * slots }
    requires n_lt_slots { n < slots }
    ensures { result ≡ (nodes_in slots arena.now).level1 n }
{
    word(arena, slots, n, 4)
}

// Word 5: the parent node (root: its container; free: its place in the stack).
pub fn parent(arena: &[u64], slots: usize, n: usize) -> u64
    requires arena_len { length arena.now ≡ slots + node_words * slots }
    requires n_lt_slots { n < slots }
    ensures { result ≡ (nodes_in slots arena.now).parent n }
{
    word(arena, slots, n, 5)
}

// Word 6: the byte under the parent.
pub fn byte(arena: &[u64], slots: usize, n: usize) -> u64
    requires arena_len { length arena.now ≡ slots + node_words * slots }
    requires n_lt_slots { n < slots }
    ensures { result ≡ (nodes_in slots arena.now).byte n }
{
    word(arena, slots, n, 6)
}

// Word 8+x: the child for byte x.
pub fn child(arena: &[u64], slots: usize, n: usize, x: usize) -> u64
    requires arena_len { length arena.now ≡ slots + node_words * slots }
    requires n_lt_slots { n < slots }
    requires x_bound { x < 256 }
    ensures { result ≡ (nodes_in slots arena.now).child n x }
{
    word(arena, slots, n, 8 + x)
}

// Whether byte x is set in the map of node n: bit x mod 64 of word x div 64.
pub fn test(arena: &[u64], slots: usize, n: usize, x: usize) -> bool
    requires arena_len { length arena.now ≡ slots + node_words * slots }
    requires n_lt_slots { n < slots }
    requires x_bound { x < 256 }
    ensures { result ≡ eqb ((nodes_in slots arena.now).bit n x) 1 }
{
    bits::test(word(arena, slots, n, x / 64), x % 64)
}

// Place i of the node free stack.
pub fn spare(arena: &[u64], slots: usize, i: usize) -> u64
    requires arena_len { length arena.now ≡ slots + node_words * slots }
    requires i_lt_slots { i < slots }
    ensures { result ≡ spare_in arena.now i }
{
    arena[i]
}

// Whether the map of node n is empty.
pub fn is_empty(arena: &[u64], slots: usize, n: usize) -> bool
    requires arena_len { length arena.now ≡ slots + node_words * slots }
    requires n_lt_slots { n < slots }
    ensures yes { result ≡ true → (y : ℕ) → y < 256 → (nodes_in slots arena.now).bit n y ≡ 0 }
    ensures no { result ≡ false → NonEmpty (nodes_in slots arena.now) n }
{
    for i in 0..4 {
        if word(arena, slots, n, i) != 0 {
            return false;
        }
    }
    true
}
