// The check of the tries, where the nodes hang together: each container of kind 2 has its root, its length and its suffixes, and each root has its container.
#![tactic(auto)]

ghost use Rattle.std.specs.Prelude.{◌≡◌, true, false, ℕ, ◌+◌, ◌-◌, ◌*◌, ◌^◌, ◌<◌, ◌≤◌, length};
ghost use Rattle.model.specs.Words.{bytes_of};
ghost use Rattle.region.specs.Geometry.{node_words};
ghost use Rattle.region.specs.Areas.{numbers};
ghost use Rattle.region.specs.Seen.{seen};
ghost use Rattle.region.specs.WellFormed.{Ready, Trie};
ghost use Rattle.region.specs.Tries.{members};
ghost use Rattle.arena.specs.Arena.{Arena, Tries, Root, nodes_in};
ghost use Rattle.arena_check.specs.Checks.{roots_in, last_bits};
ghost use Rattle.lens.specs.Parts.{arena_of};
ghost use Rattle.inspect_tries.specs.TrieAt.{TrieAt};
ghost use Rattle.inspect_tries.specs.AllTries.{AllTries};

use arena::{Shape, read as node};
use arena_check::Sound;
use lens::read;
use strip::trievec::TrieVec;
use trie_walk::count;

// Where the first byte of a suffix ends: the first byte has the bits that the other bytes leave.
fn first_end(bits: usize) -> usize
    requires { (1 ≤ bits) × (bits ≤ 40) }
    ensures { result ≡ 2 ^ (bits - 8 * (bytes_of bits - 1)) }
{
    let rest = bits.div_ceil(8) - 1;
    1usize << (bits - 8 * rest)
}

// Whether every byte in the map of node n is below `end`.
fn bytes_below(arena: &[u64], slots: usize, n: usize, end: usize) -> bool
    requires arena_len { length arena.now ≡ slots + node_words * slots }
    requires n_lt_slots { n < slots }
    ensures yes { result ≡ true → (x : ℕ) → x < 256 → (nodes_in slots arena.now).bit n x ≡ 1 → x < end }
    ensures no { result ≡ false → ((x : ℕ) → x < 256 → (nodes_in slots arena.now).bit n x ≡ 1 → x < end) → ⊥ }
{
    for x in end..256 {
        if node::test(arena, slots, n, x) {
            return false;
        }
    }
    true
}

// How many suffixes the trie with root n has. Under an only root hang all nodes: then they are the bits of the last level, and the trie is not walked.
fn suffixes(arena: &[u64], shape: Shape, n: usize, nodes: Sound) -> usize
    requires tries { Tries shape.slots shape.b arena.now }
    requires n_root { Root (nodes_in shape.slots arena.now) shape.slots n }
    requires roots_value { nodes.roots ≡ roots_in (nodes_in shape.slots arena.now) shape.slots }
    requires last_value { nodes.last ≡ last_bits (nodes_in shape.slots arena.now) shape.b shape.slots }
    ensures { result ≡ length (members (nodes_in shape.slots arena.now) shape.b n) }
{
    if nodes.roots == 1 {
        nodes.last
    } else {
        count(arena, shape, n)
    }
}

// Whether node n is the root of what the trie in slot c may hold. Suffixes are below 2^S if the bytes of the root are low enough: each has suffixes behind it.
fn root_ok(
    arena: &[u64],
    shape: Shape,
    bits: usize,
    n: usize,
    c: usize,
    len: usize,
    nodes: Sound,
) -> bool
    requires tries { Tries shape.slots shape.b arena.now }
    requires n_lt_slots { n < shape.slots }
    requires le_bits { (1 ≤ bits) × (bits ≤ 40) }
    requires levels { shape.b ≡ bytes_of bits }
    requires roots_value { nodes.roots ≡ roots_in (nodes_in shape.slots arena.now) shape.slots }
    requires last_value { nodes.last ≡ last_bits (nodes_in shape.slots arena.now) shape.b shape.slots }
    ensures yes { result ≡ true → TrieAt (nodes_in shape.slots arena.now) bits n c len }
    ensures no { result ≡ false → TrieAt (nodes_in shape.slots arena.now) bits n c len → ⊥ }
{
    node::level1(arena, shape.slots, n) == 1
        && node::parent(arena, shape.slots, n) == c as u64
        && bytes_below(arena, shape.slots, n, first_end(bits))
        && suffixes(arena, shape, n, nodes) == len
}

// Whether slot c holds what a trie may hold.
fn trie_ok(region: &[u64], c: usize, nodes: Sound) -> bool
    requires ready { Ready region.now }
    requires arena { Arena (numbers region.now).N (bytes_of (numbers region.now).S) (numbers region.now).used (arena_of (numbers region.now) region.now) }
    requires c_bound { c < (numbers region.now).C }
    requires roots_value { nodes.roots ≡ roots_in (nodes_in (numbers region.now).N (arena_of (numbers region.now) region.now)) (numbers region.now).N }
    requires last_value { nodes.last ≡ last_bits (nodes_in (numbers region.now).N (arena_of (numbers region.now) region.now)) (bytes_of (numbers region.now).S) (numbers region.now).N }
    ensures yes { result ≡ true → Trie (numbers region.now) (seen (numbers region.now) region.now) c }
    ensures no { result ≡ false → Trie (numbers region.now) (seen (numbers region.now) region.now) c → ⊥ }
{
    let len = read::size(region, c);
    if len <= TrieVec::THRESHOLD {
        return false;
    }
    let shape = read::shape(region);
    let root = read::link(region, c);
    if root >= shape.slots {
        return false;
    }
    let bits = read::s(region);
    let start = region[13] as usize;
    let end = region[15] as usize;
    root_ok(&region[start..end], shape, bits, root, c, len, nodes)
}

// Whether every trie holds what a trie may hold, and every root is that of the trie in the slot that its word 5 names.
// Each trie has a root of its own: so if there are as many roots as tries, each root has its trie, and the roots are not walked.
pub fn tries_ok(region: &[u64], nodes: Sound) -> bool
    requires ready { Ready region.now }
    requires arena { Arena (numbers region.now).N (bytes_of (numbers region.now).S) (numbers region.now).used (arena_of (numbers region.now) region.now) }
    requires roots_value { nodes.roots ≡ roots_in (nodes_in (numbers region.now).N (arena_of (numbers region.now) region.now)) (numbers region.now).N }
    requires last_value { nodes.last ≡ last_bits (nodes_in (numbers region.now).N (arena_of (numbers region.now) region.now)) (bytes_of (numbers region.now).S) (numbers region.now).N }
    ensures yes { result ≡ true → AllTries (numbers region.now) (seen (numbers region.now) region.now) }
    ensures no { result ≡ false → AllTries (numbers region.now) (seen (numbers region.now) region.now) → ⊥ }
{
    let slots = read::c(region);
    let mut tries: usize = 0;
    for c in 0..slots {
        if read::kind(region, c) == 2 {
            if !trie_ok(region, c, nodes) {
                return false;
            }
            tries += 1;
        }
    }
    tries == nodes.roots
}
