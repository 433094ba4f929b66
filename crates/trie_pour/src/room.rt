// How many nodes some suffixes need, and whether that many are there.
ghost use Rattle.std.specs.Prelude.{◌≡◌, map, ℕ, ◌-◌, ◌*◌, ◌/◌, ◌^◌, ◌<◌, ◌≤◌, leb, length, take, get_or};
ghost use Rattle.model.specs.Room.{leading, trie_nodes};

use strip::differ;

// The leading j of the b bytes of a suffix.
fn lead(s: u64, b: usize, j: usize) -> u64
    requires le_j { 1 ≤ j }
    requires j_le_b { j ≤ b }
    requires b_bound { b ≤ 5 }
    ensures { result ≡ s / 256 ^ (b - j) }
{
    s >> (8 * (b - j))
}

// The leading j bytes of each suffix, over the first words of an array.
fn leads(strip: &[u64], b: usize, j: usize, out: &mut [u64])
    requires le_j { 1 ≤ j }
    requires j_le_b { j ≤ b }
    requires b_bound { b ≤ 5 }
    requires strip_in_bounds { length strip.now ≤ length out.old }
    ensures { take (length strip.now) out.new ≡ map (λ s. s / 256 ^ (b - j)) strip.now }
{
    for (i, &s) in strip.iter().enumerate() {
        out[i] = lead(s, b, j);
    }
}

// How many different leading strings of j bytes the suffixes have.
fn heads(strip: &[u64], b: usize, j: usize) -> usize
    requires le_j { 1 ≤ j }
    requires j_le_b { j ≤ b }
    requires b_bound { b ≤ 5 }
    requires strip_len_bound { length strip.now ≤ 1025 }
    ensures is { result ≡ leading b strip.now j }
    ensures few { result ≤ length strip.now }
{
    let mut out = [0u64; 1025];
    leads(strip, b, j, &mut out);
    differ::different(&out[0..strip.len()])
}

// The nodes that the suffixes need: the root, and for each length below b their different leading strings.
fn nodes(strip: &[u64], b: usize) -> usize
    requires le_b { 1 ≤ b }
    requires b_bound { b ≤ 5 }
    requires in_bounds { 1 ≤ length strip.now }
    requires strip_len_bound { length strip.now ≤ 1025 }
    requires by_index { (i : ℕ) → i < length strip.now → get_or strip.now i 0 < 2 ^ (8 * b) }
    ensures { result ≡ trie_nodes b strip.now }
{
    let mut n: usize = 1;
    for j in 1..b - 1 {
        n += heads(strip, b, j);
    }
    // The last length apart: what is called at two places is not merged into its callers, so that an insert sets up no stack for `heads`.
    if b > 1 {
        n += heads(strip, b, b - 1);
    }
    n
}

// Whether the nodes that the suffixes need are at most `room`. They are no more than the root and b - 1 for each suffix; only where that many are not there are they counted. b comes without a number of slots, so `Shape` does not fit.
pub(crate) fn fits(strip: &[u64], b: usize, room: usize) -> bool
    requires le_b { 1 ≤ b }
    requires b_bound { b ≤ 5 }
    requires in_bounds { 1 ≤ length strip.now }
    requires strip_len_bound { length strip.now ≤ 1025 }
    requires by_index { (i : ℕ) → i < length strip.now → get_or strip.now i 0 < 2 ^ (8 * b) }
    ensures { result ≡ leb (trie_nodes b strip.now) room }
{
    if 1 + (b - 1) * strip.len() <= room {
        return true;
    }
    nodes(strip, b) <= room
}
