// Makes a region: the fresh image of document 01 at the front of a lent slice, or a refusal that changes nothing.
#![tactic(auto)]

ghost use Rattle.promises.specs.Answers.{made};
ghost use Rattle.promises.specs.Make.{MakePromise};

use crate::geometry::Geometry;
use promises::MakeRefusal;

pub mod fill;
pub mod fresh;
pub mod geometry;

// Any numbers, any slice. Out of range comes before too short, so that the total is asked of good numbers only.
pub fn make(region: &mut [u64], p: u64, s: u64, c: u64, n: u64) -> Result<(), MakeRefusal>
    ensures { MakePromise p s c n region.old (made result) region.new }
{
    if !geometry::good_numbers(p, s, c, n) {
        return Err(MakeRefusal::OutOfRange);
    }
    let g = Geometry::new(p, s, c, n);
    if region.len() < g.total {
        return Err(MakeRefusal::TooShort);
    }
    fresh::fresh_into(region, g);
    Ok(())
}
