// The maps of nodes of the last level, word by word: their set bits are the last bytes of suffixes.
ghost use Rattle.std.specs.Prelude.{◌≡◌, ℕ, ◌+◌, ◌*◌, ◌^◌, ◌<◌, ◌≤◌, drop, get_or};
ghost use Rattle.trie_walk.specs.Pour.{state, poured, not_below};
ghost use Rattle.trie_walk.specs.Words.{numbers_in, suffixes};

use super::Step;
use bitvector::word;

// Writes the numbers of the set bits of w, counted from base on, from place `at` of the output on, as far as it reaches.
fn write(w: u64, base: u64, out: &mut [u64], at: usize) -> usize
    requires { base + 64 ≤ 2 ^ 64 }
    ensures { state 0 result out.new ≡ poured (numbers_in w base) (state 0 at out.old) }
{
    let mut w = w;
    let mut at = at;
    while w != 0 {
        if at >= out.len() {
            return at;
        }
        let k = word::lowest(w);
        out[at] = base + k as u64;
        at += 1;
        w = word::without_lowest(w);
    }
    at
}

// w without its `skip` lowest set bits.
fn past(w: u64, skip: usize) -> u64
    ensures { (base : ℕ) → numbers_in result base ≡ drop skip (numbers_in w base) }
{
    let mut w = w;
    for _ in 0..skip {
        if w == 0 {
            return w;
        }
        w = word::without(w, word::lowest(w));
    }
    w
}

// The numbers of the set bits of w: passed over by their count, or written.
fn pour(w: u64, base: u64, skip: usize, out: &mut [u64], at: usize) -> Step
    requires { base + 64 ≤ 2 ^ 64 }
    ensures { state result.skip result.at out.new ≡ poured (numbers_in w base) (state skip at out.old) }
{
    if skip == 0 {
        let end = write(w, base, out, at);
        return Step { skip: 0, at: end };
    }
    let n = word::count(w);
    if n <= skip {
        return Step { skip: skip - n, at };
    }
    let end = write(past(w, skip), base, out, at);
    Step { skip: 0, at: end }
}

// w without the bits whose numbers, counted from base on, are below `from`.
fn not_below(w: u64, base: u64, from: u64) -> u64
    ensures { numbers_in result base ≡ not_below from (numbers_in w base) }
{
    if from <= base {
        return w;
    }
    let k = from - base;
    if k >= 64 {
        return 0;
    }
    w >> k << k
}

// The suffixes of `count` nodes of the last level with these maps, behind their leading bytes, that are not below `from`.
pub(crate) fn last(
    maps: &[u64; 128],
    leads: &[u64; 32],
    count: usize,
    from: u64,
    skip: usize,
    out: &mut [u64],
    at: usize,
) -> Step
    requires count_bound { count ≤ 32 }
    requires by_index { (i : ℕ) → i < count → get_or leads.now i 0 < 2 ^ 32 }
    ensures { state result.skip result.at out.new ≡ poured (not_below from (suffixes maps.now leads.now count)) (state skip at out.old) }
{
    let mut skip = skip;
    let mut at = at;
    // Tried: over a range, a walk takes 9 % longer.
    let mut e = 0;
    while e < 4 * count {
        let w = maps[e];
        if w == 0 {
            e += 1;
        } else {
            let base = leads[e / 4] * 256 + ((e % 4) as u64) * 64;
            let s = pour(not_below(w, base, from), base, skip, out, at);
            skip = s.skip;
            at = s.at;
            e += 1;
        }
    }
    Step { skip, at }
}
