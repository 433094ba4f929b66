// The destination of a combination before its first word, and after a word that found no room.
ghost use Rattle.std.specs.Prelude.{◌≡◌, ℕ, ◌-◌, ◌*◌, ◌<◌, ◌++◌, length, take, drop};
ghost use Rattle.lists.specs.Lists.{blocks};
ghost use Rattle.model.specs.Reading.{empty};
ghost use Rattle.region.specs.Areas.{numbers};
ghost use Rattle.region.specs.Fresh.{fresh_stack, free_record};
ghost use Rattle.region.specs.Nodes.{nodes_of};
ghost use Rattle.region.specs.Read.{reading};
ghost use Rattle.region.specs.WellFormed.{WellFormed};
ghost use Rattle.promises.specs.Reads.{ReadsAs};
ghost use Rattle.promises.specs.Combine.{fresh_again};

use make::fill::{write_blocks, zero};
use make::fresh::fresh_into;
use make::geometry::Geometry;

// The fresh image with the region's own numbers; the words past the total stay.
pub(crate) fn clear(dest: &mut [u64])
    requires { WellFormed dest.old }
    ensures { dest.new ≡ fresh_again (reading dest.old) dest.old }
{
    let g = Geometry::new(dest[1], dest[2], dest[3], dest[4]);
    fresh_into(dest, g);
}

// Container free stack and records: every slot is free.
fn free_slots(s: &mut [u64], c: usize)
    requires { length s.old ≡ 5 * c }
    ensures { s.new ≡ fresh_stack c ++ blocks free_record c }
{
    let end = s.len();
    write_blocks(&mut s[0..c], 1, 0, c);
    write_blocks(&mut s[c..end], 4, 3, c);
}

// Of a free node only level and place are looked at: two words of its 264.
fn free_each(s: &mut [u64], n: usize)
    requires { length s.old ≡ 264 * n }
    ensures levels { (i : ℕ) → i < n → (nodes_of s.new).level1 i ≡ 0 }
    ensures places { (i : ℕ) → i < n → (nodes_of s.new).parent i ≡ n - 1 - i }
{
    for i in 0..n {
        s[i * 264 + 4] = 0;
        s[i * 264 + 5] = (n - 1 - i) as u64;
    }
}

// Node free stack and nodes: every node is free.
fn free_nodes(s: &mut [u64], n: usize)
    requires { length s.old ≡ 265 * n }
    ensures stack { take n s.new ≡ fresh_stack n }
    ensures levels { (i : ℕ) → i < n → (nodes_of (drop n s.new)).level1 i ≡ 0 }
    ensures places { (i : ℕ) → i < n → (nodes_of (drop n s.new)).parent i ≡ n - 1 - i }
{
    let end = s.len();
    write_blocks(&mut s[0..n], 1, 0, n);
    free_each(&mut s[n..end], n);
}

// The empty set with the region's own numbers: what no reading looks at is left as it is.
pub(crate) fn start_afresh(dest: &mut [u64])
    requires { WellFormed dest.old }
    ensures { ReadsAs dest.old (empty (numbers dest.old).P (numbers dest.old).S (numbers dest.old).C (numbers dest.old).N) dest.new }
{
    let c = dest[3] as usize;
    let n = dest[4] as usize;
    let ranks = dest[9] as usize;
    let stack = dest[10] as usize;
    let entries = dest[12] as usize;
    let node_stack = dest[13] as usize;
    let total = dest[15] as usize;
    dest[5] = 0;
    dest[6] = 0;
    dest[7] = 0;
    zero(&mut dest[16..ranks]);
    free_slots(&mut dest[stack..entries], c);
    free_nodes(&mut dest[node_stack..total], n);
}
