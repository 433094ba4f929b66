// Whether the words of an arena are well formed, on any contents: one pass over the nodes, no marks, nothing changed.
// A free node names its stack place, a node below a root its parent's bit, no two the same one: so if there are as many
// such nodes as places and bits, each place and each bit has its node, and neither the stack nor the children are walked.
#![tactic(auto)]

ghost use Rattle.std.specs.Prelude.{◌≡◌, true, false, cond, ℕ, ◌+◌, ◌-◌, ◌*◌, ◌<◌, ◌≤◌, eqb, length, MatchOption};
ghost use Rattle.region.specs.Geometry.{node_words};
ghost use Rattle.region.specs.WellFormed.{StackedNode, NonEmpty, nodes_used};
ghost use Rattle.arena.specs.Arena.{nodes_in, spare_in};
ghost use Rattle.arena_check.specs.Checks.{OwnOk, Hangs, BackInRange, Tallied, set_bits, branches};
ghost use Rattle.arena_check.specs.Answers.{CheckedAs};

use arena::read;
use bitvector::tiny::TinyBitvector;

// How many nodes are taken at a time: three short loops over them, so that many loads are under way at once.
const BLOCK: usize = 32;

// What an arena that is well formed holds: how many roots, and how many bits in the maps of the last level.
#[derive(Clone, Copy, Debug, PartialEq, Eq)]
pub struct Sound {
    pub roots: usize,
    pub last: usize,
}

// How many roots there are among the nodes so far, and how many bits want a child or are at the last level.
#[derive(Clone, Copy)]
struct Tally {
    roots: usize,
    bits: usize,
    last: usize,
}

// Whether node n stands in the stack's first `free` places, at the one that it is linked to.
fn stacked(arena: &[u64], slots: usize, free: usize, n: usize) -> bool
    requires arena_len { length arena.now ≡ slots + node_words * slots }
    requires free_le_slots { (free ≤ slots) × (n < slots) }
    ensures yes { result ≡ true → StackedNode free (spare_in arena.now) (nodes_in slots arena.now) n }
    ensures no { result ≡ false → StackedNode free (spare_in arena.now) (nodes_in slots arena.now) n → ⊥ }
{
    let place = read::parent(arena, slots, n);
    place < free as u64 && read::spare(arena, slots, place as usize) == n as u64
}

// Whether the map of node n has a bit.
fn non_empty(arena: &[u64], slots: usize, n: usize) -> bool
    requires arena_len { length arena.now ≡ slots + node_words * slots }
    requires n_lt_slots { n < slots }
    ensures yes { result ≡ true → NonEmpty (nodes_in slots arena.now) n }
    ensures no { result ≡ false → NonEmpty (nodes_in slots arena.now) n → ⊥ }
{
    let at = slots + n * 264;
    let map = TinyBitvector::load(&arena[at..]);
    !map.is_empty()
}

// How many bits the map of node n has.
fn set_bits(arena: &[u64], slots: usize, n: usize) -> usize
    requires arena_len { length arena.now ≡ slots + node_words * slots }
    requires n_lt_slots { n < slots }
    ensures { result ≡ set_bits (nodes_in slots arena.now) n }
{
    let at = slots + n * 264;
    let map = TinyBitvector::load(&arena[at..]);
    map.count()
}

// Whether the back link of node n, which is below a root, is to a node and a byte.
fn back_in_range(arena: &[u64], slots: usize, n: usize) -> bool
    requires arena_len { length arena.now ≡ slots + node_words * slots }
    requires n_lt_slots { n < slots }
    requires bound { 2 ≤ (nodes_in slots arena.now).level1 n }
    ensures yes { result ≡ true → BackInRange slots (nodes_in slots arena.now) n }
    ensures no { result ≡ false → BackInRange slots (nodes_in slots arena.now) n → ⊥ }
{
    read::parent(arena, slots, n) < slots as u64 && read::byte(arena, slots, n) < 256
}

// Whether node n, whose word 4 is level1, keeps what it must by its own words.
fn own_ok(arena: &[u64], slots: usize, free: usize, b: usize, n: usize, level1: u64) -> bool
    requires arena_len { length arena.now ≡ slots + node_words * slots }
    requires free_le_slots { (free ≤ slots) × (n < slots) × (b ≤ 5) }
    requires level1_value { level1 ≡ (nodes_in slots arena.now).level1 n }
    ensures yes { result ≡ true → OwnOk slots b free (spare_in arena.now) (nodes_in slots arena.now) n }
    ensures no { result ≡ false → OwnOk slots b free (spare_in arena.now) (nodes_in slots arena.now) n → ⊥ }
{
    if level1 == 0 {
        return stacked(arena, slots, free, n);
    }
    // word 5 of a root is its container, and its word 6 says nothing
    level1 <= b as u64
        && non_empty(arena, slots, n)
        && (level1 == 1 || back_in_range(arena, slots, n))
}

// How many bits of node n, whose word 4 is level1, want a child: those above the last level.
fn branches(arena: &[u64], slots: usize, b: usize, n: usize, level1: u64) -> usize
    requires arena_len { length arena.now ≡ slots + node_words * slots }
    requires n_lt_slots { n < slots }
    requires level1_value { level1 ≡ (nodes_in slots arena.now).level1 n }
    ensures { result ≡ branches (nodes_in slots arena.now) b n }
{
    if level1 == 0 {
        return 0;
    }
    if level1 >= b as u64 {
        return 0;
    }
    set_bits(arena, slots, n)
}

// How many bits of node n, whose word 4 is level1, are at the last of b levels.
fn at_last(arena: &[u64], slots: usize, b: usize, n: usize, level1: u64) -> usize
    requires arena_len { length arena.now ≡ slots + node_words * slots }
    requires n_lt_slots { n < slots }
    requires level1_value { level1 ≡ (nodes_in slots arena.now).level1 n }
    ensures { result ≡ cond (eqb ((nodes_in slots arena.now).level1 n) b) (set_bits (nodes_in slots arena.now) n) 0 }
{
    if level1 != b as u64 {
        return 0;
    }
    set_bits(arena, slots, n)
}

// How many nodes are in use before `end`, where `taken` are before `from`. It reads one word a node: it also brings the
// nodes of the block near for the loops that follow.
fn in_use(arena: &[u64], slots: usize, from: usize, end: usize, taken: usize) -> usize
    requires arena_len { length arena.now ≡ slots + node_words * slots }
    requires from_le_end { (from ≤ end) × (end ≤ slots) }
    requires taken_value { taken ≡ nodes_used (nodes_in slots arena.now) from }
    ensures { result ≡ nodes_used (nodes_in slots arena.now) end }
{
    let mut all = taken;
    for n in from..end {
        let level1 = read::level1(arena, slots, n);
        all += usize::from(level1 != 0);
    }
    all
}

// The tally goes on over the nodes up to `end`, if they keep what they must by their own words.
fn own_all(
    arena: &[u64],
    slots: usize,
    free: usize,
    b: usize,
    from: usize,
    end: usize,
    tally: Tally,
) -> Option<Tally>
    requires arena_len { length arena.now ≡ slots + node_words * slots }
    requires free_le_slots { (free ≤ slots) × (b ≤ 5) }
    requires from_le_end { (from ≤ end) × (end ≤ slots) }
    requires tallied { Tallied slots b free (spare_in arena.now) (nodes_in slots arena.now) from tally.roots tally.bits tally.last }
    ensures { MatchOption result (((n : ℕ) → n < slots → OwnOk slots b free (spare_in arena.now) (nodes_in slots arena.now) n) → ⊥) (λ t. Tallied slots b free (spare_in arena.now) (nodes_in slots arena.now) end t.roots t.bits t.last) }
{
    let Tally {
        mut roots,
        mut bits,
        mut last,
    } = tally;
    for n in from..end {
        let level1 = read::level1(arena, slots, n);
        if !own_ok(arena, slots, free, b, n, level1) {
            return None;
        }
        roots += usize::from(level1 == 1);
        bits += branches(arena, slots, b, n, level1);
        last += at_last(arena, slots, b, n, level1);
    }
    Some(Tally { roots, bits, last })
}

// Whether node n, if it is below a root, is named by its parent.
fn hangs(arena: &[u64], slots: usize, n: usize) -> bool
    requires arena_len { length arena.now ≡ slots + node_words * slots }
    requires n_lt_slots { n < slots }
    requires back_in_range { BackInRange slots (nodes_in slots arena.now) n }
    ensures yes { result ≡ true → Hangs slots (nodes_in slots arena.now) n }
    ensures no { result ≡ false → Hangs slots (nodes_in slots arena.now) n → ⊥ }
{
    let level1 = read::level1(arena, slots, n);
    if level1 < 2 {
        return true;
    }
    let p = read::parent(arena, slots, n) as usize;
    let x = read::byte(arena, slots, n) as usize;
    read::level1(arena, slots, p) == level1 - 1
        && read::test(arena, slots, p, x)
        && read::child(arena, slots, p, x) == n as u64
}

// Whether the nodes up to `end` are named by their parents, where those before `from` are.
fn all_hang(arena: &[u64], slots: usize, from: usize, end: usize) -> bool
    requires arena_len { length arena.now ≡ slots + node_words * slots }
    requires from_le_end { (from ≤ end) × (end ≤ slots) }
    requires by_index { (n : ℕ) → n < end → BackInRange slots (nodes_in slots arena.now) n }
    requires by_index_2 { (n : ℕ) → n < from → Hangs slots (nodes_in slots arena.now) n }
    ensures yes { result ≡ true → (n : ℕ) → n < end → Hangs slots (nodes_in slots arena.now) n }
    ensures no { result ≡ false → ((n : ℕ) → n < slots → Hangs slots (nodes_in slots arena.now) n) → ⊥ }
{
    for n in from..end {
        if !hangs(arena, slots, n) {
            return false;
        }
    }
    true
}

// Where the block that begins with node n ends.
fn block_end(n: usize, slots: usize) -> usize
    requires { n < slots }
    ensures { (n < result) × (result ≤ slots) }
{
    n + BLOCK.min(slots - n)
}

// Whether the arena is well formed, for tries of b levels and with `used` nodes in use.
pub fn well_formed(arena: &[u64], slots: usize, used: usize, b: usize) -> Option<Sound>
    requires arena_len { length arena.now ≡ slots + node_words * slots }
    requires b_bound { b ≤ 5 }
    ensures { CheckedAs slots b used arena.now result }
{
    // with more in use than there are, slots - used would wrap
    if used > slots {
        return None;
    }
    let free = slots - used;
    let mut taken = 0;
    let mut tally = Tally {
        roots: 0,
        bits: 0,
        last: 0,
    };
    let mut n = 0;
    while n < slots {
        let end = block_end(n, slots);
        taken = in_use(arena, slots, n, end, taken);
        tally = own_all(arena, slots, free, b, n, end, tally)?;
        if !all_hang(arena, slots, n, end) {
            return None;
        }
        n = end;
    }
    if taken != used {
        return None;
    }
    // a node in use is a root, or the child of a bit
    if tally.roots + tally.bits != used {
        return None;
    }
    Some(Sound {
        roots: tally.roots,
        last: tally.last,
    })
}
