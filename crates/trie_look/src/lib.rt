// Lookups in tries, of several suffixes at a time: all go down one level before any goes on.
#![tactic(auto)]

ghost use Rattle.std.specs.Prelude.{◌≡◌, ℕ, ◌+◌, ◌-◌, ◌*◌, ◌^◌, ◌<◌, ◌≤◌, length, drop, get_or};
ghost use Rattle.region.specs.Geometry.{node_words};
ghost use Rattle.arena.specs.Arena.{nodes_in, Root, Tries};
ghost use Rattle.trie_look.specs.Each.{answer_at};
ghost use Rattle.trie_look.specs.Levels.{step_of, reach, tell_of, Changed};

use arena::{Shape, read};
use sliced_int::byte;

// The most lookups side by side.
const MOST: usize = 64;

// The child of n for byte j of the suffix, or `slots` for none. Tried: with Options in the arrays, a lookup in a trie takes up to 30 % longer.
fn step(arena: &[u64], shape: Shape, suffix: u64, j: usize, n: u64) -> u64
    requires arena_len { length arena.now ≡ shape.slots + node_words * shape.slots }
    requires j_lt_b { j < shape.b }
    ensures { result ≡ step_of (nodes_in shape.slots arena.now) shape.slots shape.b suffix j n }
{
    let Shape { slots, b } = shape;
    let none = slots as u64;
    if none <= n {
        return none;
    }
    let x = byte(suffix, b, j);
    if !read::test(arena, slots, n as usize, x) {
        return none;
    }
    read::child(arena, slots, n as usize, x)
}

// Each walk one level on.
fn level(arena: &[u64], shape: Shape, suffixes: &[u64], j: usize, nodes: &mut [u64])
    requires arena_len { length arena.now ≡ shape.slots + node_words * shape.slots }
    requires j_lt_b { j < shape.b }
    requires suffixes_in_bounds { length suffixes.now ≤ length nodes.old }
    ensures { Changed (λ (p n : ℕ). step_of (nodes_in shape.slots arena.now) shape.slots shape.b (get_or suffixes.now p 0) j n) (length suffixes.now) nodes.old nodes.new }
{
    for (i, &suffix) in suffixes.iter().enumerate() {
        nodes[i] = step(arena, shape, suffix, j, nodes[i]);
    }
}

// All levels but the last.
fn walk(arena: &[u64], shape: Shape, suffixes: &[u64], nodes: &mut [u64])
    requires arena_len { length arena.now ≡ shape.slots + node_words * shape.slots }
    requires suffixes_in_bounds { length suffixes.now ≤ length nodes.old }
    ensures { Changed (λ (p n : ℕ). reach (nodes_in shape.slots arena.now) shape.slots shape.b (get_or suffixes.now p 0) (shape.b - 1) n) (length suffixes.now) nodes.old nodes.new }
{
    for j in 0..shape.b - 1 {
        level(arena, shape, suffixes, j, nodes);
    }
}

// What a lookup leaves: the bit of the suffix's last byte if the walk came to a node. The root tells apart a walk that ended and one that never began.
fn told(arena: &[u64], shape: Shape, root: u64, suffix: u64, n: u64, old: u8) -> u8
    requires arena_len { length arena.now ≡ shape.slots + node_words * shape.slots }
    ensures { result ≡ tell_of (nodes_in shape.slots arena.now) shape.slots shape.b root suffix n old }
{
    let Shape { slots, b } = shape;
    let none = slots as u64;
    if none <= root {
        return old;
    }
    if none <= n {
        return 0;
    }
    if read::test(arena, slots, n as usize, byte(suffix, b, b - 1)) {
        return 1;
    }
    0
}

// Each walk's last level.
fn tell(
    arena: &[u64],
    shape: Shape,
    roots: &[u64],
    suffixes: &[u64],
    nodes: &[u64],
    answers: &mut [u8],
)
    requires arena_len { length arena.now ≡ shape.slots + node_words * shape.slots }
    requires roots_len { length roots.now ≡ length suffixes.now }
    requires suffixes_in_bounds { length suffixes.now ≤ length nodes.now }
    requires suffixes_in_bounds_2 { length suffixes.now ≤ length answers.old }
    ensures { Changed (λ (p old : ℕ). tell_of (nodes_in shape.slots arena.now) shape.slots shape.b (get_or roots.now p 0) (get_or suffixes.now p 0) (get_or nodes.now p 0) old) (length suffixes.now) answers.old answers.new }
{
    for (i, &suffix) in suffixes.iter().enumerate() {
        answers[i] = told(arena, shape, roots[i], suffix, nodes[i], answers[i]);
    }
}

// Each walk at its root.
fn start(roots: &[u64], nodes: &mut [u64])
    requires { length roots.now ≤ length nodes.old }
    ensures { Changed (λ (p n : ℕ). get_or roots.now p 0) (length roots.now) nodes.old nodes.new }
{
    nodes[..roots.len()].copy_from_slice(roots);
}

// Whether tries hold suffixes, up to 64 side by side: nodes lie far apart, and so the waits for memory overlap. A place whose root is none (slots or more) keeps its answer.
pub fn contains_each(
    arena: &[u64],
    shape: Shape,
    roots: &[u64],
    suffixes: &[u64],
    answers: &mut [u8],
)
    requires tries { Tries shape.slots shape.b arena.now }
    requires suffixes_len_bound { length suffixes.now ≤ 64 }
    requires roots_len { length roots.now ≡ length suffixes.now }
    requires suffixes_in_bounds { length suffixes.now ≤ length answers.old }
    requires by_index { (i : ℕ) → i < length roots.now → get_or roots.now i 0 < shape.slots → Root (nodes_in shape.slots arena.now) shape.slots (get_or roots.now i 0) }
    requires by_index_2 { (i : ℕ) → i < length suffixes.now → get_or suffixes.now i 0 < 2 ^ (8 * shape.b) }
    ensures each { (i : ℕ) → i < length suffixes.now → get_or answers.new i 0 ≡ answer_at (nodes_in shape.slots arena.now) shape.slots shape.b (get_or roots.now i 0) (get_or suffixes.now i 0) (get_or answers.old i 0) }
    ensures long { length answers.new ≡ length answers.old }
    ensures later { drop (length suffixes.now) answers.new ≡ drop (length suffixes.now) answers.old }
{
    let mut nodes: [u64; MOST] = [0; MOST];
    start(roots, &mut nodes);
    walk(arena, shape, suffixes, &mut nodes);
    tell(arena, shape, roots, suffixes, &nodes, answers);
}
