// The node arena: the node free stack, `slots` words, and behind it the nodes, 264 words each.
#![tactic(auto)]

pub mod read;
pub mod write;

ghost use Rattle.std.specs.Prelude.{◌≤◌};

// How many node slots an arena has, and how many levels its tries: one for each byte of a suffix.
#[derive(Clone, Copy)]
pub struct Shape {
    pub slots: usize,
    pub b: usize,
    pub ghost levels: { (1 ≤ b) × (b ≤ 5) },
}

// There are not as many free nodes, or free containers, as would be needed.
#[derive(Clone, Copy, Debug, PartialEq, Eq)]
pub struct NoRoom;
