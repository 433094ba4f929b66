// The walk below up to 32 nodes of one level at a time. Nodes lie far apart: their maps are fetched together, so that the waits for memory overlap.
ghost use Rattle.std.specs.Prelude.{◌≡◌, cond, ℕ, ◌+◌, ◌*◌, ◌/◌, ◌%◌, ◌^◌, ◌<◌, ◌≤◌, leb, length, drop, get_or, set};
ghost use Rattle.region.specs.Geometry.{node_words};
ghost use Rattle.region.specs.Nodes.{node_word};
ghost use Rattle.arena.specs.Arena.{nodes_in};
ghost use Rattle.trie_walk.specs.Pour.{state, poured, not_below};
ghost use Rattle.trie_walk.specs.Batch.{Batch, Copied, all_listed};

use super::{Step, words};
use arena::read;
use bitvector::word;

// Copies the map of node n to place i.
fn copy(arena: &[u64], slots: usize, n: usize, i: usize, maps: &mut [u64; 128])
    requires arena_len { length arena.now ≡ slots + node_words * slots }
    requires n_lt_slots { n < slots }
    requires i_bound { i < 32 }
    requires maps_len { length maps.old ≡ 128 }
    ensures { Copied (node_word (drop slots arena.now) n) i maps.old maps.new }
{
    maps[4 * i] = read::word(arena, slots, n, 0);
    maps[4 * i + 1] = read::word(arena, slots, n, 1);
    maps[4 * i + 2] = read::word(arena, slots, n, 2);
    maps[4 * i + 3] = read::word(arena, slots, n, 3);
}

// Nodes, their leading bytes and their number stay apart. Tried: as one struct, a walk takes a tenth longer.

// Copies the maps of the first `count` nodes.
fn gather(arena: &[u64], slots: usize, nodes: &[u64; 32], count: usize, maps: &mut [u64; 128])
    requires arena_len { length arena.now ≡ slots + node_words * slots }
    requires count_bound { count ≤ 32 }
    requires by_index { (i : ℕ) → i < count → get_or nodes.now i 0 < slots }
    requires maps_len { length maps.old ≡ 128 }
    ensures { (e : ℕ) → e < 4 * count → get_or maps.new e 0 ≡ node_word (drop slots arena.now) (get_or nodes.now (e / 4) 0) (e % 4) }
{
    for i in 0..count {
        copy(arena, slots, nodes[i] as usize, i, maps);
    }
}

// Puts the child behind place x of the maps, and its leading bytes, at place c, unless they are below `bound`. Answers the next place.
fn push(
    arena: &[u64],
    slots: usize,
    nodes: &[u64; 32],
    leads: &[u64; 32],
    x: usize,
    bound: u64,
    children: &mut [u64; 32],
    behind: &mut [u64; 32],
    c: usize,
) -> usize
    requires arena_len { length arena.now ≡ slots + node_words * slots }
    requires x_bound { x < 32 * 256 }
    requires x_bound_2 { get_or nodes.now (x / 256) 0 < slots }
    requires x_bound_3 { get_or leads.now (x / 256) 0 < 2 ^ 32 }
    requires c_bound { c < 32 }
    ensures next { result ≡ cond (leb bound (get_or leads.now (x / 256) 0 * 256 + x % 256)) (c + 1) c }
    ensures child { children.new ≡ cond (leb bound (get_or leads.now (x / 256) 0 * 256 + x % 256)) (set children.old c ((nodes_in slots arena.now).child (get_or nodes.now (x / 256) 0) (x % 256))) children.old }
    ensures lead { behind.new ≡ cond (leb bound (get_or leads.now (x / 256) 0 * 256 + x % 256)) (set behind.old c (get_or leads.now (x / 256) 0 * 256 + x % 256)) behind.old }
{
    let i = x / 256;
    let lead = leads[i] * 256 + (x % 256) as u64;
    if lead < bound {
        return c;
    }
    children[c] = read::child(arena, slots, nodes[i] as usize, x % 256);
    behind[c] = lead;
    c + 1
}

// The suffixes below the first `count` nodes, which have d levels left, each behind its leading bytes, that are not below `from`.
pub(crate) fn below(
    arena: &[u64],
    slots: usize,
    d: usize,
    nodes: &[u64; 32],
    leads: &[u64; 32],
    count: usize,
    from: u64,
    skip: usize,
    out: &mut [u64],
    at: usize,
) -> Step
    requires batch { Batch slots d count nodes.now leads.now arena.now }
    requires count_bound { count ≤ 32 }
    ensures { state result.skip result.at out.new ≡ poured (not_below from (all_listed (nodes_in slots arena.now) d nodes.now leads.now count)) (state skip at out.old) }
{
    let mut maps = [0u64; 128];
    gather(arena, slots, nodes, count, &mut maps);
    if d == 1 {
        return words::last(&maps, leads, count, from, skip, out, at);
    }
    // A child whose leading bytes are below these has suffixes below `from` alone.
    let bound = from >> (8 * (d - 1));
    let mut children = [0u64; 32];
    let mut behind = [0u64; 32];
    let mut c = 0;
    let mut skip = skip;
    let mut at = at;
    for e in 0..4 * count {
        // Of the word the bits that are left, and the place of its first.
        let mut w = maps[e];
        let p = e * 64;
        while w != 0 {
            if c == 32 {
                let s = below(
                    arena,
                    slots,
                    d - 1,
                    &children,
                    &behind,
                    c,
                    from,
                    skip,
                    out,
                    at,
                );
                skip = s.skip;
                at = s.at;
                c = 0;
                // Nothing is left to pass over, and the output is full.
                if skip == 0 {
                    if at >= out.len() {
                        return Step { skip, at };
                    }
                }
            } else {
                let k = word::lowest(w);
                c = push(
                    arena,
                    slots,
                    nodes,
                    leads,
                    p + k,
                    bound,
                    &mut children,
                    &mut behind,
                    c,
                );
                w = word::without(w, k);
            }
        }
    }
    below(
        arena,
        slots,
        d - 1,
        &children,
        &behind,
        c,
        from,
        skip,
        out,
        at,
    )
}
