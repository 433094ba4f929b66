// Guesses of ranks. A rank search mostly waits for memory, and searches side by side wait together. Nothing is promised of a guess; whether a prefix is set at all is told.
ghost use Rattle.std.specs.Prelude.{◌≡◌, ◌<◌, ◌≤◌, false, length};
ghost use Rattle.region.specs.Areas.{numbers};
ghost use Rattle.region.specs.WellFormed.{WellFormed};
ghost use Rattle.lens.specs.Found.{NoneSet};

use super::{rank, read};

// Rounds of looks: after as many, most prefixes that are spread evenly are met.
const ROUNDS: usize = 5;

// Prefixes are below this.
const SPAN: usize = 1 << 24;

// A distance with SPAN added to it is below this.
const TWICE: usize = 2 * SPAN;

// And a scale below this: two containers for each prefix are never there.
const FINEST: usize = 2 * SPAN;

// The place g, or the last of k.
fn clamped(g: u64, k: usize) -> usize
    requires { 0 < k }
    ensures { result < k }
{
    (g as usize).min(k - 1)
}

// Containers for each prefix, of `pace` among `width`, in parts of SPAN.
fn scale_of(pace: usize, width: usize) -> usize
    requires { 0 < width }
{
    (pace % (1 << 17)) * SPAN / width
}

// How many places p stands past q at a scale. SPAN is added to the distance, so that it is never below zero.
fn stride(q: usize, p: usize, scale: usize) -> usize {
    p.wrapping_add(SPAN).wrapping_sub(q) % TWICE * (scale % FINEST) / SPAN
}

// Where to look for p after q was met at place m: a stride on, and at least one place. The stride from a prefix to itself is still.
fn next(m: usize, q: usize, p: usize, scale: usize, still: usize) -> usize {
    let far = stride(q, p, scale).wrapping_add(usize::from(q < p));
    m.wrapping_add(far).saturating_sub(still)
}

// Whether a word's prefix is set. No: none is.
pub fn any_set(region: &[u64], words: &[u64]) -> bool
    requires { WellFormed region.now }
    ensures { result ≡ false → NoneSet region.now words.now (length words.now) }
{
    let end = 1usize << read::p(region);
    let shift = read::s(region);
    words
        .iter()
        .any(|&w| read::bit(region, (w >> shift) as usize % end))
}

// The least prefix, and how far the greatest is from it: at least 1.
#[derive(Clone, Copy)]
struct Reach {
    low: usize,
    width: usize,
}

fn ends(region: &[u64], k: usize) -> Reach
    requires well_formed { WellFormed region.now }
    requires k_value { k ≡ (numbers region.now).k }
    requires k_nonzero { 0 < k }
    ensures { 0 < result.width }
{
    let low = read::prefix(region, read::slot(region, 0));
    let high = read::prefix(region, read::slot(region, k - 1));
    Reach {
        low,
        width: high.saturating_sub(low).max(1),
    }
}

// Where the prefixes of words would stand if all were spread evenly from the least on.
fn start(region: &[u64], words: &[u64], low: usize, scale: usize, places: &mut [u64; 64])
    requires { WellFormed region.now }
{
    let shift = read::s(region);
    let still = stride(0, 0, scale);
    for (place, &w) in places.iter_mut().zip(words) {
        *place = next(0, low, (w >> shift) as usize, scale, still) as u64;
    }
}

// One look for each word.
fn look(region: &[u64], words: &[u64], k: usize, scale: usize, places: &mut [u64; 64])
    requires well_formed { WellFormed region.now }
    requires k_value { k ≡ (numbers region.now).k }
    requires k_nonzero { 0 < k }
{
    let shift = read::s(region);
    let still = stride(0, 0, scale);
    for (place, &w) in places.iter_mut().zip(words) {
        let m = clamped(*place, k);
        let q = read::prefix(region, read::slot(region, m));
        *place = next(m, q, (w >> shift) as usize, scale, still) as u64;
    }
}

// The places come to, with a look at the first entry of each: entries lie far apart, and side by side the looks wait together. An entry is below 2^40, so the guess stays the place.
fn fetch(region: &[u64], words: &[u64], k: usize, places: &mut [u64; 64])
    requires well_formed { WellFormed region.now }
    requires k_value { k ≡ (numbers region.now).k }
    requires k_nonzero { 0 < k }
{
    for place in places.iter_mut().take(words.len()) {
        let m = clamped(*place, k);
        let first = read::entry(region, read::slot(region, m), 0);
        *place = m.wrapping_add((first >> 40) as usize) as u64;
    }
}

// Guesses of the ranks of up to 64 words' prefixes, side by side, so that the waits for memory overlap. A guess may be wrong: `find` looks.
pub fn guess(region: &[u64], words: &[u64], hints: &mut [u64; 64])
    requires well_formed { WellFormed region.now }
    requires words_len_bound { length words.now ≤ 64 }
{
    let k = read::k(region);
    if k <= rank::MANY {
        return;
    }
    let Reach { low, width } = ends(region, k);
    start(region, words, low, scale_of(k, width), hints);
    for round in 0..ROUNDS {
        look(
            region,
            words,
            k,
            scale_of(rank::pace_in(round, k), width),
            hints,
        );
    }
    fetch(region, words, k, hints);
}
