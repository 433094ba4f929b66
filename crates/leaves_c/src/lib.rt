// The leaves for a program of the tests, exported to C under their names: no part of what users link. Nothing is asked of a caller.
#![tactic(auto)]

use leaves::arenas::{Built, Poured};
use leaves::tries::Ran;
use leaves::{arenas, bits, bytes, map, tries};

// 1 if the arena is well formed, else 0.
#[unsafe(no_mangle)]
pub extern "C" fn leaf_arena_check(arena: &[u64], slots: u64, used: u64, b: u64) -> u64 {
    arenas::leaf_arena_check(arena, slots, used, b)
}

// Whether the trie with the root has each suffix, 1 or 0, and how many were asked.
#[unsafe(no_mangle)]
pub extern "C" fn leaf_trie_ask(
    arena: &[u64],
    slots: u64,
    used: u64,
    b: u64,
    root: u64,
    suffixes: &[u64],
    answers: &mut [u8],
) -> u64 {
    arenas::leaf_trie_ask(arena, slots, used, b, root, suffixes, answers)
}

// How many suffixes the trie with the root has.
#[unsafe(no_mangle)]
pub extern "C" fn leaf_trie_count(arena: &[u64], slots: u64, used: u64, b: u64, root: u64) -> u64 {
    arenas::leaf_trie_count(arena, slots, used, b, root)
}

// The suffixes of the trie with the root, ascending, from the one with number `start` on, and how many found room.
#[unsafe(no_mangle)]
pub extern "C" fn leaf_trie_walk(
    arena: &[u64],
    slots: u64,
    used: u64,
    b: u64,
    root: u64,
    start: u64,
    out: &mut [u64],
) -> u64 {
    arenas::leaf_trie_walk(arena, slots, used, b, root, start, out)
}

// The same from the first suffix, so many times: how many were written in all, modulo 2^64.
#[unsafe(no_mangle)]
pub extern "C" fn leaf_trie_walks(
    arena: &[u64],
    slots: u64,
    used: u64,
    b: u64,
    root: u64,
    times: u64,
    out: &mut [u64],
) -> u64 {
    arenas::leaf_trie_walks(arena, slots, used, b, root, times, out)
}

// A trie made of 1 to 1,025 different suffixes, under a container.
#[unsafe(no_mangle)]
pub extern "C" fn leaf_trie_build(
    arena: &mut [u64],
    slots: u64,
    used: u64,
    b: u64,
    container: u64,
    strip: &[u64],
) -> Built {
    arenas::leaf_trie_build(arena, slots, used, b, container, strip)
}

// The suffixes of the trie with the root, ascending; its nodes are freed, the root too. Refused if they do not all find room.
#[unsafe(no_mangle)]
pub extern "C" fn leaf_trie_pour(
    arena: &mut [u64],
    slots: u64,
    used: u64,
    b: u64,
    root: u64,
    out: &mut [u64],
) -> Poured {
    arenas::leaf_trie_pour(arena, slots, used, b, root, out)
}

// So many times a trie made of the strip and poured out again, and how many times there was room.
#[unsafe(no_mangle)]
pub extern "C" fn leaf_trie_cross(
    arena: &mut [u64],
    slots: u64,
    used: u64,
    b: u64,
    container: u64,
    strip: &[u64],
    out: &mut [u64],
    times: u64,
) -> u64 {
    arenas::leaf_trie_cross(arena, slots, used, b, container, strip, out, times)
}

// How many bits below each place are set, summed.
#[unsafe(no_mangle)]
pub extern "C" fn leaf_bitmap_rank(words: &[u64], places: &[u64]) -> u64 {
    bits::leaf_bitmap_rank(words, places)
}

// How many of the places are set.
#[unsafe(no_mangle)]
pub extern "C" fn leaf_bitmap_test(words: &[u64], places: &[u64]) -> u64 {
    bits::leaf_bitmap_test(words, places)
}

// Sets the bit, and says whether it was clear.
#[unsafe(no_mangle)]
pub extern "C" fn leaf_bitmap_set(words: &mut [u64], place: u64) -> u64 {
    bits::leaf_bitmap_set(words, place)
}

// Clears the bit, and says whether it was set.
#[unsafe(no_mangle)]
pub extern "C" fn leaf_bitmap_clear(words: &mut [u64], place: u64) -> u64 {
    bits::leaf_bitmap_clear(words, place)
}

// The b bytes of each suffix, one behind the other, and how many suffixes found room.
#[unsafe(no_mangle)]
pub extern "C" fn leaf_bytes(suffixes: &[u64], b: u64, out: &mut [u8]) -> u64 {
    bytes::leaf_bytes(suffixes, b, out)
}

// The number that the b bytes of a suffix are.
#[unsafe(no_mangle)]
pub extern "C" fn leaf_value(s: u64, b: u64) -> u64 {
    bytes::leaf_value(s, b)
}

// 0 if the bytes of s come before those of t, 1 if they are the same, 2 if they come after.
#[unsafe(no_mangle)]
pub extern "C" fn leaf_compare(s: u64, t: u64, b: u64) -> u64 {
    bytes::leaf_compare(s, t, b)
}

// How many of the bytes are in the map, one that comes twice twice.
#[unsafe(no_mangle)]
pub extern "C" fn leaf_map_contains(map: &[u64], xs: &[u8]) -> u64 {
    map::leaf_map_contains(map, xs)
}

// The commands in order, each with its answer; the map is written once, at the end.
#[unsafe(no_mangle)]
pub extern "C" fn leaf_map_change(
    map: &mut [u64],
    codes: &[u8],
    xs: &[u8],
    answers: &mut [u8],
) -> u64 {
    map::leaf_map_change(map, codes, xs, answers)
}

// Inserts a byte of xs and removes one of ys, in turn, and says how many did something.
#[unsafe(no_mangle)]
pub extern "C" fn leaf_map_pairs(map: &mut [u64], xs: &[u8], ys: &[u8]) -> u64 {
    map::leaf_map_pairs(map, xs, ys)
}

// The ranks of the bytes, summed.
#[unsafe(no_mangle)]
pub extern "C" fn leaf_map_rank(map: &[u64], xs: &[u8]) -> u64 {
    map::leaf_map_rank(map, xs)
}

// The counts of maps that stand one behind the other, summed; words past the last whole map do not count.
#[unsafe(no_mangle)]
pub extern "C" fn leaf_map_count(maps: &[u64]) -> u64 {
    map::leaf_map_count(maps)
}

// The bytes of the map, ascending, and how many.
#[unsafe(no_mangle)]
pub extern "C" fn leaf_map_walk(map: &[u64], out: &mut [u8]) -> u64 {
    map::leaf_map_walk(map, out)
}

// The least byte of the map at or past `from`; 256 if there is none.
#[unsafe(no_mangle)]
pub extern "C" fn leaf_map_next(map: &[u64], from: u64) -> u64 {
    map::leaf_map_next(map, from)
}

// 1 if the map has no byte, else 0.
#[unsafe(no_mangle)]
pub extern "C" fn leaf_map_is_empty(map: &[u64]) -> u64 {
    map::leaf_map_is_empty(map)
}

// Commands on the trie with the root, each with its answer: 2 is no room, or the last suffix gone, and ends the row.
// So does a suffix that has more than b bytes, which is not done.
#[unsafe(no_mangle)]
pub extern "C" fn leaf_trie_run(
    arena: &mut [u64],
    slots: u64,
    used: u64,
    b: u64,
    root: u64,
    codes: &[u8],
    suffixes: &[u64],
    answers: &mut [u8],
) -> Ran {
    tries::leaf_trie_run(arena, slots, used, b, root, codes, suffixes, answers)
}
