// The kind of a container in a region changes: a full vector becomes a trie with one suffix more, and a trie with one suffix more than a vector may have becomes a vector with one less.
#![tactic(auto)]

ghost use Rattle.std.specs.Prelude.{◌≡◌, false, ◌+◌, ◌*◌, ◌^◌, ◌<◌, ◌≤◌, length};
ghost use Rattle.lists.specs.Lists.{mem};
ghost use Rattle.model.specs.Room.{threshold};
ghost use Rattle.region.specs.Areas.{numbers};
ghost use Rattle.region.specs.Tries.{members};
ghost use Rattle.region.specs.Seen.{seen};
ghost use Rattle.region.specs.Read.{suffixes};
ghost use Rattle.region.specs.WellFormed.{Ready, WellFormed};
ghost use Rattle.arena.specs.Arena.{nodes_in, Root, Arena};
ghost use Rattle.wordset_trie.specs.Answers.{TakenAs};
ghost use Rattle.wordset_cross.specs.Settled.{Settled};
ghost use Rattle.wordset_cross.specs.Drained.{DrainedAs};
ghost use Rattle.wordset_cross.specs.Answers.{GrownAs};

use arena::{NoRoom, Shape};
use lens::read;
use strip::store;
use trie::{Removed, remove};
use trie_pour::{plant, pour};

// Stores kind, length and link of slot c, the nodes in use and the member count.
fn settle(region: &mut [u64], c: usize, kind: u64, len: u64, link: usize, used: usize, count: u64)
    requires ready { Ready region.old }
    requires c_bound { c < (numbers region.old).C }
    ensures { Settled c kind len link used count region.old region.new }
{
    let start = region[11] as usize;
    region[start + 4 * c] = kind;
    region[start + (4 * c + 2)] = len;
    region[start + (4 * c + 3)] = link as u64;
    region[6] = used as u64;
    region[7] = count;
}

// Makes a trie of the full vector in slot c and of s, which it does not hold. Refused exactly when the nodes that they need pass what is there.
pub fn grow(region: &mut [u64], c: usize, s: u64) -> Result<(), NoRoom>
    requires well_formed { WellFormed region.old }
    requires c_bound { c < (numbers region.old).C }
    requires c_value { (seen (numbers region.old) region.old).kind c ≡ 1 }
    requires c_value_2 { (seen (numbers region.old) region.old).size c ≡ threshold }
    requires s_bound { s < 2 ^ (numbers region.old).S }
    requires c_value_3 { mem s (suffixes (numbers region.old) (seen (numbers region.old) region.old) c) ≡ false }
    ensures { GrownAs c s region.old result region.new }
{
    let shape = read::shape(region);
    let used = region[6] as usize;
    let more = region[7] + 1;
    let at = region[12] as usize + 1024 * c;
    let mut all: [u64; 1025] = [0; 1025];
    store::copy_out(&region[at..at + 1024], 1024, s, &mut all);
    let start = region[13] as usize;
    let end = region[15] as usize;
    let (root, left) = plant(&mut region[start..end], shape, used, c, &all)?;
    settle(region, c, 2, 1025, root, left, more);
    Ok(())
}

// Takes s out of a trie that has one suffix more than there is room in `out`, writes the others, ascending, and frees all its nodes: the nodes in use afterwards, or None where s is none of it.
fn drain(
    arena: &mut [u64],
    shape: Shape,
    used: usize,
    root: usize,
    s: u64,
    out: &mut [u64],
) -> Option<usize>
    requires arena { Arena shape.slots shape.b used arena.old }
    requires root { Root (nodes_in shape.slots arena.old) shape.slots root }
    requires s_bound { s < 2 ^ (8 * shape.b) }
    requires in_bounds { 1 ≤ length out.old }
    requires root_len { length (members (nodes_in shape.slots arena.old) shape.b root) ≡ length out.old + 1 }
    ensures { DrainedAs shape.slots shape.b used root s arena.old result arena.new out.new }
{
    match remove(arena, shape, used, root, s) {
        Removed::Gone(left) => Some(pour(arena, shape, left, root, out)),
        Removed::Last(_) | Removed::Absent => None, // the last one is not with so many members
    }
}

// Takes s out of the trie in slot c, which has one suffix more than a vector may have: whether s was there. If it was, the trie becomes a vector in ascending order and all its nodes are freed.
pub fn shrink(region: &mut [u64], c: usize, s: u64) -> bool
    requires well_formed { WellFormed region.old }
    requires c_bound { c < (numbers region.old).C }
    requires c_value { (seen (numbers region.old) region.old).kind c ≡ 2 }
    requires s_bound { s < 2 ^ (numbers region.old).S }
    requires c_value_2 { (seen (numbers region.old) region.old).size c ≡ threshold + 1 }
    ensures { TakenAs c s region.old result region.new }
{
    let root = read::link(region, c);
    let shape = read::shape(region);
    let used = region[6] as usize;
    let fewer = region[7] - 1;
    let at = region[12] as usize + 1024 * c;
    let start = region[13] as usize;
    let end = region[15] as usize;
    let mut rest: [u64; 1024] = [0; 1024];
    let Some(left) = drain(&mut region[start..end], shape, used, root, s, &mut rest) else {
        return false;
    };
    store::copy_in(&mut region[at..at + 1024], &rest);
    settle(region, c, 1, 1024, root, left, fewer); // a vector's link is not looked at
    true
}
