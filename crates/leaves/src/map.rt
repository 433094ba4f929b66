// The map of a node, in a slice of four words.
use super::REFUSED;
use bitvector::tiny::{TinyBitvector, contains_in, insert_in, remove_in};

// The map of the words, if they are four.
fn loaded(map: &[u64]) -> Option<TinyBitvector> {
    if map.len() != 4 {
        return None;
    }
    Some(TinyBitvector::load(map))
}

// How many of the bytes are in the map, one that comes twice twice.
pub fn leaf_map_contains(map: &[u64], xs: &[u8]) -> u64 {
    let Some(m) = loaded(map) else {
        return REFUSED;
    };
    let mut n: u64 = 0;
    for &x in xs {
        n = n.wrapping_add(u64::from(contains_in(&m.w, x)));
    }
    n
}

// One command: 0 asks, 1 inserts, any other removes.
fn change(w: &mut [u64; 4], code: u8, x: u8) -> u8 {
    u8::from(match code {
        0 => contains_in(w, x),
        1 => insert_in(w, x),
        _ => remove_in(w, x),
    })
}

// The commands in order, each with its answer; the map is written once, at the end.
pub fn leaf_map_change(map: &mut [u64], codes: &[u8], xs: &[u8], answers: &mut [u8]) -> u64 {
    if map.len() != 4 || codes.len() != xs.len() || answers.len() != xs.len() {
        return REFUSED;
    }
    let mut m = TinyBitvector::load(map);
    for (i, &x) in xs.iter().enumerate() {
        answers[i] = change(&mut m.w, codes[i], x);
    }
    m.store(map);
    0
}

// Inserts a byte of xs and removes one of ys, in turn, and says how many did something.
pub fn leaf_map_pairs(map: &mut [u64], xs: &[u8], ys: &[u8]) -> u64 {
    if map.len() != 4 || ys.len() != xs.len() {
        return REFUSED;
    }
    let mut m = TinyBitvector::load(map);
    let mut n: u64 = 0;
    for (&x, &y) in xs.iter().zip(ys) {
        n = n.wrapping_add(u64::from(insert_in(&mut m.w, x)));
        n = n.wrapping_add(u64::from(remove_in(&mut m.w, y)));
    }
    m.store(map);
    n
}

// The ranks of the bytes, summed.
pub fn leaf_map_rank(map: &[u64], xs: &[u8]) -> u64 {
    let Some(m) = loaded(map) else {
        return REFUSED;
    };
    let mut n: u64 = 0;
    for &x in xs {
        n = n.wrapping_add(m.rank(x) as u64);
    }
    n
}

// The counts of maps that stand one behind the other, summed; words past the last whole map do not count.
pub fn leaf_map_count(maps: &[u64]) -> u64 {
    let mut n: u64 = 0;
    for map in maps.chunks_exact(4) {
        n = n.wrapping_add(TinyBitvector::load(map).count() as u64);
    }
    n
}

// The bytes of the map, ascending, and how many.
pub fn leaf_map_walk(map: &[u64], out: &mut [u8]) -> u64 {
    if map.len() != 4 || out.len() < 256 {
        return REFUSED;
    }
    TinyBitvector::load(map).walk(out) as u64
}

// The least byte of the map at or past `from`; 256 if there is none.
pub fn leaf_map_next(map: &[u64], from: u64) -> u64 {
    let Some(m) = loaded(map) else {
        return REFUSED;
    };
    m.next(from as usize).unwrap_or(256) as u64
}

// 1 if the map has no byte, else 0.
pub fn leaf_map_is_empty(map: &[u64]) -> u64 {
    let Some(m) = loaded(map) else {
        return REFUSED;
    };
    u64::from(m.is_empty())
}
