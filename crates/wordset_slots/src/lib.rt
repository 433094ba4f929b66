// Container slots: a slot taken from the free stack for a new prefix, and a slot given back when its container is empty.
#![tactic(auto)]

ghost use Rattle.std.specs.Prelude.{◌≡◌, [], ◌∷◌, ◌^◌, ◌<◌};
ghost use Rattle.model.specs.Change.{placed, dropped, top, rest, with};
ghost use Rattle.region.specs.Areas.{numbers};
ghost use Rattle.region.specs.Seen.{seen};
ghost use Rattle.region.specs.Read.{reading};
ghost use Rattle.region.specs.WellFormed.{WellFormed};
ghost use Rattle.promises.specs.Reads.{ReadsAs};

use lens::{rank, read};

pub mod shift;
pub mod write;

// Opens a container for the prefix p, which has none: the next free slot becomes a vector with the one suffix s. The hint, any number, is the rank that it may have.
pub fn open(region: &mut [u64], p: usize, s: u64, hint: usize)
    requires well_formed { WellFormed region.old }
    requires p_bound { p < 2 ^ (numbers region.old).P }
    requires p_value { (seen (numbers region.old) region.old).bit p ≡ 0 }
    requires region_bound { (numbers region.old).k < (numbers region.old).C }
    requires s_bound { s < 2 ^ (numbers region.old).S }
    ensures { ReadsAs region.old (with (reading region.old) (placed p (top (reading region.old).free) (s ∷ []) (reading region.old).containers) (rest (reading region.old).free)) region.new }
{
    let k = read::k(region);
    let slots = read::c(region);
    let count = read::count(region);
    let at = rank::rank_of(region, p, hint);
    let c = read::free(region, slots - (k + 1));
    write::fill(region, c, p, s);
    write::ranks_up(region, at, k, c);
    write::mark(region, p);
    write::counts(region, k + 1, count + 1);
}

// Closes the container in slot c, a vector of one suffix: its prefix is cleared, and the slot is the next to be handed out. The hint, any number, is the rank that it may have.
pub fn close(region: &mut [u64], c: usize, hint: usize)
    requires well_formed { WellFormed region.old }
    requires c_bound { c < (numbers region.old).C }
    requires c_value { (seen (numbers region.old) region.old).kind c ≡ 1 }
    requires c_value_2 { (seen (numbers region.old) region.old).size c ≡ 1 }
    ensures { ReadsAs region.old (with (reading region.old) (dropped ((seen (numbers region.old) region.old).prefix c) (reading region.old).containers) (c ∷ (reading region.old).free)) region.new }
{
    let k = read::k(region);
    let slots = read::c(region);
    let count = read::count(region);
    let p = read::prefix(region, c);
    let at = rank::rank_of(region, p, hint);
    write::release(region, c, slots - k);
    write::ranks_down(region, at, k);
    write::unmark(region, p);
    write::counts(region, k - 1, count - 1);
}
