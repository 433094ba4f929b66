// A table opened at many places at once: each part between two new places moves once, and not once for each of them.
ghost use Rattle.std.specs.Prelude.{◌≡◌, ℕ, suc, ◌+◌, ◌^◌, ◌<◌, ◌≤◌, length, get_or};
ghost use Rattle.wordset_many.specs.Wedge.{key_of, prefix_in, place_in, slot_in, Wedged};

// A prefix, a place and a slot as one number, of which the prefix counts most.
pub fn key_of(p: usize, at: usize, c: usize) -> u64
    requires p_bound { p < 2 ^ 24 }
    requires at_bound { at < 2 ^ 17 }
    requires c_bound { c < 2 ^ 17 }
    ensures { result ≡ key_of p at c }
{
    (p as u64) * 17179869184 + (at as u64) * 131072 + c as u64
}

pub fn prefix_in(key: u64) -> usize
    ensures { result ≡ prefix_in key }
{
    (key / 17179869184) as usize
}

fn place_in(key: u64) -> usize
    ensures { result ≡ place_in key }
{
    (key / 131072 % 131072) as usize
}

fn slot_in(key: u64) -> u64
    ensures { result ≡ slot_in key }
{
    key % 131072
}

// All places but the last `by` move up by so many.
fn lift(part: &mut [u64], by: usize)
    requires { by ≤ length part.old }
    ensures long { length part.new ≡ length part.old }
    ensures moved { (r : ℕ) → r + by < length part.old → get_or part.new (r + by) 0 ≡ get_or part.old r 0 }
{
    part.copy_within(..part.len() - by, by);
}

// Puts the slot of each key at its place among the k in use, from the last on.
pub fn wedge(ranks: &mut [u64], k: usize, keys: &[u64])
    requires keys_len_bound { length keys.now ≤ 64 }
    requires keys_in_bounds { k + length keys.now ≤ length ranks.old }
    requires by_index { (j : ℕ) → j < length keys.now → place_in (get_or keys.now j 0) ≤ k }
    requires by_index_2 { (j : ℕ) → suc j < length keys.now → place_in (get_or keys.now j 0) ≤ place_in (get_or keys.now (suc j) 0) }
    ensures { Wedged k keys.now ranks.old ranks.new }
{
    let mut end = k;
    for j in (0..keys.len()).rev() {
        let key = keys[j];
        let at = place_in(key);
        lift(&mut ranks[at..end + (j + 1)], j + 1);
        ranks[at + j] = slot_in(key);
        end = at;
    }
}
