// Stores into the arena, each with what it changes and nothing else.
ghost use Rattle.std.specs.Prelude.{◌≡◌, ◌≢◌, ℕ, ◌+◌, ◌*◌, ◌<◌, length};
ghost use Rattle.region.specs.Geometry.{node_words};
ghost use Rattle.arena.specs.Arena.{nodes_in};
ghost use Rattle.arena.specs.Changes.{SpareStays, Pushed, WordPut, BitMade, ChildMade, NodeMade, Hung, Freed, Unhung};

use super::read;
use bitvector::word as bits;

// Word i of node n.
fn put(arena: &mut [u64], slots: usize, n: usize, i: usize, a: u64)
    requires arena_len { length arena.old ≡ slots + node_words * slots }
    requires n_lt_slots { n < slots }
    requires i_lt_node_words { i < node_words }
    ensures { WordPut slots arena.old n i a arena.new }
{
    arena[slots + (n * 264 + i)] = a;
}

// Sets byte x in the map of node n.
pub fn set_bit(arena: &mut [u64], slots: usize, n: usize, x: usize)
    requires arena_len { length arena.old ≡ slots + node_words * slots }
    requires n_lt_slots { n < slots }
    requires x_bound { x < 256 }
    ensures made { BitMade (nodes_in slots arena.old) n x 1 (nodes_in slots arena.new) }
    ensures spare { SpareStays slots arena.old arena.new }
{
    let w = read::word(arena, slots, n, x / 64);
    put(arena, slots, n, x / 64, bits::with(w, x % 64));
}

// Clears byte x in the map of node n.
pub fn clear_bit(arena: &mut [u64], slots: usize, n: usize, x: usize)
    requires arena_len { length arena.old ≡ slots + node_words * slots }
    requires n_lt_slots { n < slots }
    requires x_bound { x < 256 }
    ensures made { BitMade (nodes_in slots arena.old) n x 0 (nodes_in slots arena.new) }
    ensures spare { SpareStays slots arena.old arena.new }
{
    let w = read::word(arena, slots, n, x / 64);
    put(arena, slots, n, x / 64, bits::without(w, x % 64));
}

// Makes f the child of node n for byte x.
fn set_child(arena: &mut [u64], slots: usize, n: usize, x: usize, f: usize)
    requires arena_len { length arena.old ≡ slots + node_words * slots }
    requires n_lt_slots { n < slots }
    requires x_bound { x < 256 }
    ensures made { ChildMade (nodes_in slots arena.old) n x f (nodes_in slots arena.new) }
    ensures spare { SpareStays slots arena.old arena.new }
{
    put(arena, slots, n, 8 + x, f as u64);
}

// Makes node f anew: an empty map, its word 4, and its back link.
pub fn make_node(arena: &mut [u64], slots: usize, f: usize, level1: usize, parent: usize, x: usize)
    requires arena_len { length arena.old ≡ slots + node_words * slots }
    requires f_lt_slots { f < slots }
    ensures made { NodeMade (nodes_in slots arena.old) f level1 parent x (nodes_in slots arena.new) }
    ensures spare { SpareStays slots arena.old arena.new }
{
    put(arena, slots, f, 0, 0);
    put(arena, slots, f, 1, 0);
    put(arena, slots, f, 2, 0);
    put(arena, slots, f, 3, 0);
    put(arena, slots, f, 4, level1 as u64);
    put(arena, slots, f, 5, parent as u64);
    put(arena, slots, f, 6, x as u64);
}

// Hangs node f, its map empty and its level given, under node n for byte x.
pub fn hang(arena: &mut [u64], slots: usize, n: usize, x: usize, f: usize, level: usize)
    requires arena_len { length arena.old ≡ slots + node_words * slots }
    requires n_lt_slots { n < slots }
    requires f_lt_slots { f < slots }
    requires x_bound { x < 256 }
    requires n_nonzero { n ≢ f }
    requires level_bound { level < 256 }
    ensures hung { Hung (nodes_in slots arena.old) n x f level (nodes_in slots arena.new) }
    ensures spare { SpareStays slots arena.old arena.new }
{
    set_bit(arena, slots, n, x);
    make_node(arena, slots, f, level + 1, n, x);
    set_child(arena, slots, n, x, f);
}

// Puts node f on the stack, at a place.
fn push(arena: &mut [u64], slots: usize, place: usize, f: usize)
    requires arena_len { length arena.old ≡ slots + node_words * slots }
    requires place_lt_slots { place < slots }
    ensures pushed { Pushed slots arena.old place f arena.new }
    ensures nodes { nodes_in slots arena.new ≡ nodes_in slots arena.old }
{
    arena[place] = f as u64;
}

// Frees node f onto the stack, at the place that becomes its top.
pub fn free(arena: &mut [u64], slots: usize, f: usize, place: usize)
    requires arena_len { length arena.old ≡ slots + node_words * slots }
    requires f_lt_slots { f < slots }
    requires place_lt_slots { place < slots }
    ensures freed { Freed (nodes_in slots arena.old) f place (nodes_in slots arena.new) }
    ensures pushed { Pushed slots arena.old place f arena.new }
{
    put(arena, slots, f, 4, 0);
    put(arena, slots, f, 5, place as u64);
    push(arena, slots, place, f);
}

// Takes node f from under p for byte x, and frees it.
pub fn unhang(arena: &mut [u64], slots: usize, p: usize, x: usize, f: usize, place: usize)
    requires arena_len { length arena.old ≡ slots + node_words * slots }
    requires p_lt_slots { p < slots }
    requires f_lt_slots { f < slots }
    requires x_bound { x < 256 }
    requires place_lt_slots { place < slots }
    ensures unhung { Unhung (nodes_in slots arena.old) p x f place (nodes_in slots arena.new) }
    ensures pushed { Pushed slots arena.old place f arena.new }
{
    clear_bit(arena, slots, p, x);
    free(arena, slots, f, place);
}
