// What a call is held to before it goes on.
ghost use Rattle.std.specs.Prelude.{◌≡◌, ◌+◌, ◌*◌, ◌^◌, ◌≤◌, true, length, IfSome};
ghost use Rattle.arena.specs.Arena.{Arena};
ghost use Rattle.leaves.specs.Kept.{Kept};
ghost use Rattle.leaves.specs.Checked.{Measured, Narrow, Plantable, Shaped};

use arena::{Shape, read};
use arena_check::well_formed;
use strip::{bounds, differ};

// The first number that no suffix of b bytes is.
pub(crate) fn limit(b: usize) -> u64
    requires { b ≤ 5 }
    ensures { result ≡ 2 ^ (8 * b) }
{
    1u64 << (8 * b)
}

// Whether the arena is well formed.
pub(crate) fn is_arena(arena: &[u64], slots: usize, used: usize, b: usize) -> bool
    requires arena_len { length arena.now ≡ slots + 264 * slots }
    requires b_bound { b ≤ 5 }
    ensures { result ≡ true → Arena slots b used arena.now }
{
    well_formed(arena, slots, used, b).is_some()
}

// The shape of the words, if they are an arena's by their number.
pub(crate) fn measured(arena: &[u64], slots: u64, b: u64) -> Option<Shape>
    ensures { IfSome result (λ s. Shaped slots b s × Measured s.slots s.b arena.now) }
{
    if slots > 16777216 || b < 1 || b > 5 {
        return None;
    }
    let shape = Shape {
        slots: slots as usize,
        b: b as usize,
    };
    if arena.len() != shape.slots + 264 * shape.slots {
        return None;
    }
    Some(shape)
}

// The shape of the words, if they are an arena.
pub(crate) fn checked(arena: &[u64], slots: u64, used: u64, b: u64) -> Option<Shape>
    ensures { IfSome result (λ s. Shaped slots b s × Measured s.slots s.b arena.now × Arena s.slots s.b used arena.now) }
{
    let shape = measured(arena, slots, b)?;
    if !is_arena(arena, shape.slots, used as usize, shape.b) {
        return None;
    }
    Some(shape)
}

// The shape of the words, if they are an arena in which the root is one.
pub(crate) fn rooted(arena: &[u64], slots: u64, used: u64, b: u64, root: u64) -> Option<Shape>
    ensures { IfSome result (λ s. Shaped slots b s × Measured s.slots s.b arena.now × Kept s.slots s.b root used arena.now) }
{
    // before the nodes are gone through
    if root >= slots {
        return None;
    }
    let shape = checked(arena, slots, used, b)?;
    if read::level1(arena, shape.slots, root as usize) != 1 {
        return None;
    }
    Some(shape)
}

// Whether every suffix has at most b bytes.
pub(crate) fn narrow(suffixes: &[u64], b: usize) -> bool
    requires { b ≤ 5 }
    ensures { result ≡ true → Narrow b suffixes.now }
{
    bounds::below(suffixes, limit(b))
}

// Whether a trie can be made of the strip.
pub(crate) fn plantable(strip: &[u64], b: usize) -> bool
    requires { b ≤ 5 }
    ensures { result ≡ true → Plantable b strip.now }
{
    matches!(strip.len(), 1..=1025) && narrow(strip, b) && differ::distinct(strip)
}
