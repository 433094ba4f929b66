// A table of which k places are in use, with a place opened or closed. A part that is moved whole, from its start on, is one move of memory to the compiler.
ghost use Rattle.std.specs.Prelude.{◌-◌, ◌<◌, ◌≤◌, length};
ghost use Rattle.wordset_slots.specs.Shift.{ShiftedUp, ShiftedDown};

// All places move up by one, over the last, and x stands first.
fn raise(part: &mut [u64], x: u64)
    requires { 1 ≤ length part.old }
    ensures { ShiftedUp 0 (length part.old - 1) x part.old part.new }
{
    part.copy_within(..part.len() - 1, 1);
    part[0] = x;
}

// All places but the first move down by one, over it.
fn lower(part: &mut [u64])
    requires { 1 ≤ length part.old }
    ensures { ShiftedDown 0 (length part.old) part.old part.new }
{
    part.copy_within(1.., 0);
}

// Places at to k - 1 move up by one, and x stands at `at`.
pub fn shift_up(ranks: &mut [u64], at: usize, k: usize, x: u64)
    requires at_le_k { at ≤ k }
    requires k_in_bounds { k < length ranks.old }
    ensures { ShiftedUp at k x ranks.old ranks.new }
{
    raise(&mut ranks[at..k + 1], x);
}

// Places at + 1 to k - 1 move down by one, over what stands at `at`.
pub fn shift_down(ranks: &mut [u64], at: usize, k: usize)
    requires at_lt_k { at < k }
    requires k_in_bounds { k ≤ length ranks.old }
    ensures { ShiftedDown at k ranks.old ranks.new }
{
    lower(&mut ranks[at..k]);
}
