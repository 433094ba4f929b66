// The writes of which opening and closing consist. Each changes one or two areas, and the region need not be well formed between them.
ghost use Rattle.std.specs.Prelude.{◌^◌, ◌<◌, ◌≤◌};
ghost use Rattle.region.specs.Areas.{numbers};
ghost use Rattle.region.specs.WellFormed.{Ready};
ghost use Rattle.wordset_slots.specs.Shift.{ShiftedUp, ShiftedDown};
ghost use Rattle.wordset_slots.specs.Writes.{Became, Recounted, filled, released, BitMade, RanksBy};

use super::shift;
use bitvector::bitmap;

// Makes slot c a vector with the prefix p and the one suffix s.
pub fn fill(region: &mut [u64], c: usize, p: usize, s: u64)
    requires ready { Ready region.old }
    requires c_bound { c < (numbers region.old).C }
    ensures { Became (filled c p s) region.old region.new }
{
    let records = region[11] as usize;
    let entries = region[12] as usize;
    region[records + 4 * c] = 1;
    region[records + (4 * c + 1)] = p as u64;
    region[records + (4 * c + 2)] = 1;
    region[entries + 1024 * c] = s;
}

// Makes slot c free, with the place i of the free stack, and puts it there.
pub fn release(region: &mut [u64], c: usize, i: usize)
    requires ready { Ready region.old }
    requires c_bound { c < (numbers region.old).C }
    requires i_bound { i < (numbers region.old).C }
    ensures { Became (released c i) region.old region.new }
{
    let records = region[11] as usize;
    let stack = region[10] as usize;
    region[records + 4 * c] = 0;
    region[records + (4 * c + 3)] = i as u64;
    region[stack + i] = c as u64;
}

// Opens place `at` of the rank table, of which k are in use, for slot c.
pub fn ranks_up(region: &mut [u64], at: usize, k: usize, c: usize)
    requires ready { Ready region.old }
    requires at_le_k { at ≤ k }
    requires k_bound { k < (numbers region.old).C }
    ensures { RanksBy (ShiftedUp at k c) region.old region.new }
{
    let start = region[9] as usize;
    let end = region[10] as usize;
    shift::shift_up(&mut region[start..end], at, k, c as u64);
}

// Closes place `at` of the rank table, of which k are in use.
pub fn ranks_down(region: &mut [u64], at: usize, k: usize)
    requires ready { Ready region.old }
    requires at_lt_k { at < k }
    requires k_bound { k ≤ (numbers region.old).C }
    ensures { RanksBy (ShiftedDown at k) region.old region.new }
{
    let start = region[9] as usize;
    let end = region[10] as usize;
    shift::shift_down(&mut region[start..end], at, k);
}

// Sets the bit of prefix p.
pub fn mark(region: &mut [u64], p: usize)
    requires ready { Ready region.old }
    requires p_bound { p < 2 ^ (numbers region.old).P }
    ensures { BitMade p 1 region.old region.new }
{
    let start = region[8] as usize;
    let end = region[9] as usize;
    let _ = bitmap::set(&mut region[start..end], p);
}

// Clears the bit of prefix p.
pub fn unmark(region: &mut [u64], p: usize)
    requires ready { Ready region.old }
    requires p_bound { p < 2 ^ (numbers region.old).P }
    ensures { BitMade p 0 region.old region.new }
{
    let start = region[8] as usize;
    let end = region[9] as usize;
    let _ = bitmap::clear(&mut region[start..end], p);
}

// Stores how many containers are in use and how many members there are.
pub fn counts(region: &mut [u64], k: usize, count: u64)
    requires { Ready region.old }
    ensures { Recounted k count region.old region.new }
{
    region[5] = k as u64;
    region[7] = count;
}
