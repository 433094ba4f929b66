// The rank of a prefix: prefixes ascend with the rank, so the prefix at a rank says on which side to look on. First at a hint and on from there as if
// prefixes were spread evenly, then by halving: prefixes that are so spread are met in a few looks, and others cost these looks more.
ghost use Rattle.std.specs.Prelude.{◌≡◌, ◌^◌, ◌<◌};
ghost use Rattle.region.specs.Areas.{numbers};
ghost use Rattle.region.specs.Seen.{seen};
ghost use Rattle.region.specs.WellFormed.{rank_of, WellFormed};
ghost use Rattle.lens.specs.Search.{Between};

use super::read;

// Looks before halving: from a good hint two or three are enough, and from any other five where prefixes are spread evenly.
const LOOKS: usize = 6;

// Strides are whole before this look. From it on they are half as long, else many a search goes to and fro about its place.
const WHOLE: usize = 3;

// Below this many containers halving is as quick.
pub(crate) const MANY: usize = 64;

// Where the rank of a prefix lies: from low to high.
#[derive(Clone, Copy)]
pub struct Window {
    pub low: usize,
    pub high: usize,
}

// So many containers as d prefixes in a row would have, of k among 2^bits.
fn share(d: usize, k: usize, bits: usize) -> usize {
    ((d % (1 << 24)) * (k % (1 << 17))) >> (bits % 64)
}

// Of how many containers a look counts its stride.
pub(crate) fn pace_in(look: usize, k: usize) -> usize {
    if look < WHOLE { k } else { k / 2 }
}

// A window that holds p's rank, narrowed by a few looks: at the hint, and then where p would stand if prefixes were spread evenly.
fn spread(region: &[u64], p: usize, k: usize, hint: usize) -> Window
    requires well_formed { WellFormed region.now }
    requires p_bound { p < 2 ^ (numbers region.now).P }
    requires k_value { k ≡ (numbers region.now).k }
    ensures { Between region.now p result.low result.high }
{
    let bits = read::p(region);
    let mut low: usize = 0;
    let mut high = k;
    let mut g = hint;
    for looks in 1..=LOOKS {
        if low >= high {
            break;
        }
        let m = g.clamp(low, high - 1);
        let q = read::prefix(region, read::slot(region, m));
        if q == p {
            return Window { low: m, high: m };
        }
        if q < p {
            low = m + 1;
            g = low.wrapping_add(share(p - q, pace_in(looks, k), bits));
        } else {
            high = m;
            g = m.saturating_sub(share(q - p, pace_in(looks, k), bits));
        }
    }
    Window { low, high }
}

// A window that holds p's rank.
fn first_window(region: &[u64], p: usize, hint: usize) -> Window
    requires well_formed { WellFormed region.now }
    requires p_bound { p < 2 ^ (numbers region.now).P }
    ensures { Between region.now p result.low result.high }
{
    let k = read::k(region);
    if k > MANY {
        spread(region, p, k, hint)
    } else {
        Window { low: 0, high: k }
    }
}

// How many prefixes below p are set. The hint, any number, is where it may stand.
pub fn rank_of(region: &[u64], p: usize, hint: usize) -> usize
    requires well_formed { WellFormed region.now }
    requires p_bound { p < 2 ^ (numbers region.now).P }
    ensures { result ≡ rank_of (numbers region.now) (seen (numbers region.now) region.now) p }
{
    let Window { mut low, mut high } = first_window(region, p, hint);
    while low < high {
        let middle = low + (high - low) / 2;
        let c = read::slot(region, middle);
        if read::prefix(region, c) < p {
            low = middle + 1;
        } else {
            high = middle;
        }
    }
    low
}

// The slot of the container with the set prefix p. The hint, any number, is a rank where it may stand.
pub fn slot_of(region: &[u64], p: usize, hint: usize) -> usize
    requires well_formed { WellFormed region.now }
    requires p_bound { p < 2 ^ (numbers region.now).P }
    requires p_value { (seen (numbers region.now) region.now).bit p ≡ 1 }
    ensures { result ≡ (seen (numbers region.now) region.now).slot (rank_of (numbers region.now) (seen (numbers region.now) region.now) p) }
{
    read::slot(region, rank_of(region, p, hint))
}
