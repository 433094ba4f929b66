// The slot of a prefix, tried at a hint first: the rank search is what costs most where a region has many containers.
ghost use Rattle.std.specs.Prelude.{◌^◌, ◌<◌};
ghost use Rattle.region.specs.Areas.{numbers};
ghost use Rattle.region.specs.WellFormed.{WellFormed};
ghost use Rattle.lens.specs.Found.{FoundAs, MetAs};

use super::{rank, read};

// The slot at rank m if it bears p: nothing is said where it does not. The rank may be any number.
fn meet(region: &[u64], p: usize, m: usize) -> Option<usize>
    requires { WellFormed region.now }
    ensures { MetAs region.now p result }
{
    if m >= read::k(region) {
        return None;
    }
    let c = read::slot(region, m);
    if read::prefix(region, c) == p && read::kind(region, c) != 0 {
        return Some(c);
    }
    None
}

// The slot of prefix p, or that it has none, looked for from the hint on, a rank where it may stand. The hint may be any number.
pub fn find(region: &[u64], p: usize, hint: usize) -> Option<usize>
    requires well_formed { WellFormed region.now }
    requires p_bound { p < 2 ^ (numbers region.now).P }
    ensures { FoundAs region.now p result }
{
    if let Some(c) = meet(region, p, hint) {
        return Some(c);
    }
    if !read::bit(region, p) {
        return None;
    }
    Some(rank::slot_of(region, p, hint))
}
