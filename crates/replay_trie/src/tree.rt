// The trie that a case works on: a root in an arena of 768 nodes, or none, since an empty trie has no nodes there.
ghost use Rattle.std.specs.Prelude.{◌≡◌, true, ◌*◌, ◌^◌, ◌≤◌, ◌<◌, length};
ghost use Rattle.arena.specs.Arena.{nodes_in, Root, Arena};

use arena::{Shape, read};
use replay::lines;
use replay::runs::Action;
use std::alloc::{AllocError, Global};
use trie::Removed;

pub const SLOTS: usize = 768;

const NODE_WORDS: usize = 264;

const WORDS: usize = 203520;

// Why a command has no answer.
#[derive(Clone, Copy, Debug, PartialEq, Eq)]
pub enum Fault {
    // the arena is not well formed, or the suffix has too many bytes
    Refused,
    NoRoom,
}

#[derive(Drop)]
pub struct Tree {
    arena: Vec<u64>,
    shape: Shape,
    // nodes in use
    used: usize,
    root: Option<usize>,
}

// Makes all nodes free, node 0 on top of the stack. What is not looked at in a free node stays.
fn lay(arena: &mut [u64]) {
    if arena.len() != WORDS {
        return;
    }
    let (stack, nodes) = arena.split_at_mut(SLOTS);
    for (n, place) in stack.iter_mut().rev().enumerate() {
        *place = n as u64;
    }
    let (nodes, _) = nodes.as_chunks_mut::<NODE_WORDS>();
    for (place, node) in (0..SLOTS as u64).rev().zip(nodes.iter_mut()) {
        node[4] = 0;
        node[5] = place;
    }
}

// Whether it is an arena of such tries with so many nodes in use.
fn is_arena(arena: &[u64], shape: Shape, used: usize) -> bool
    ensures { result ≡ true → Arena shape.slots shape.b used arena.now }
{
    let Shape { slots, b } = shape;
    if arena.len() != WORDS || slots != SLOTS {
        return false;
    }
    arena_check::well_formed(arena, slots, used, b).is_some()
}

// Whether it is, and the node a root there.
fn is_tree(arena: &[u64], shape: Shape, used: usize, root: usize) -> bool
    ensures arena { result ≡ true → Arena shape.slots shape.b used arena.now }
    ensures root { result ≡ true → Root (nodes_in shape.slots arena.now) shape.slots root }
{
    if root >= shape.slots || !is_arena(arena, shape, used) {
        return false;
    }
    read::level1(arena, shape.slots, root) == 1
}

// Whether a suffix has no more bytes than a trie has levels.
fn has_bytes(x: u64, shape: Shape) -> bool
    ensures { result ≡ true → x < 2 ^ (8 * shape.b) }
{
    let Shape { b, .. } = shape;
    x < 1u64 << (8 * b)
}

impl Tree {
    pub fn new(alloc: Global, shape: Shape) -> Result<Self, AllocError> {
        let mut arena = vec![in alloc; 0u64; WORDS]?;
        lay(&mut arena);
        Ok(Self {
            arena,
            shape,
            used: 0,
            root: None,
        })
    }

    // An empty one in the same words: a case costs no allocation.
    pub fn anew(mut self, shape: Shape) -> Self {
        lay(&mut self.arena);
        self.shape = shape;
        self.used = 0;
        self.root = None;
        self
    }

    // The first suffix makes the trie.
    fn plant(&mut self, x: u64) -> Result<bool, Fault> {
        let (shape, used) = (self.shape, self.used);
        if !is_arena(&self.arena, shape, used) || !has_bytes(x, shape) {
            return Err(Fault::Refused);
        }
        let (root, used) = trie_pour::plant(&mut self.arena, shape, used, 0, &[x]).map_err(
            |_| Fault::NoRoom,
        )?;
        self.root = Some(root);
        self.used = used;
        Ok(true)
    }

    fn contains(&self, root: usize, x: u64) -> Result<bool, Fault> {
        let (shape, used) = (self.shape, self.used);
        if !is_tree(&self.arena, shape, used, root) || !has_bytes(x, shape) {
            return Err(Fault::Refused);
        }
        Ok(trie::contains(&self.arena, shape, root, x))
    }

    fn insert(&mut self, root: usize, x: u64) -> Result<bool, Fault> {
        let (shape, used) = (self.shape, self.used);
        if !is_tree(&self.arena, shape, used, root) || !has_bytes(x, shape) {
            return Err(Fault::Refused);
        }
        let inserted = trie::insert(&mut self.arena, shape, used, root, x);
        match inserted.map_err(|_| Fault::NoRoom)? {
            Some(used) => {
                self.used = used;
                Ok(true)
            }
            None => Ok(false),
        }
    }

    // The last suffix takes the root with it.
    fn remove(&mut self, root: usize, x: u64) -> Result<bool, Fault> {
        let (shape, used) = (self.shape, self.used);
        if !is_tree(&self.arena, shape, used, root) || !has_bytes(x, shape) {
            return Err(Fault::Refused);
        }
        let (root, used) = match trie::remove(&mut self.arena, shape, used, root, x) {
            Removed::Gone(used) => (Some(root), used),
            Removed::Last(used) => (None, used),
            Removed::Absent => return Ok(false),
        };
        self.root = root;
        self.used = used;
        Ok(true)
    }

    // What a command answers.
    pub fn command(&mut self, action: Action, x: u64) -> Result<bool, Fault> {
        match (action, self.root) {
            (Action::Insert, None) => self.plant(x),
            (Action::Lookup | Action::Remove, None) => Ok(false),
            (Action::Lookup, Some(root)) => self.contains(root, x),
            (Action::Insert, Some(root)) => self.insert(root, x),
            (Action::Remove, Some(root)) => self.remove(root, x),
        }
    }

    // How many suffixes there are.
    pub fn count(&self) -> u64 {
        match self.root {
            None => 0,
            Some(root) if is_tree(&self.arena, self.shape, self.used, root) => {
                trie_walk::count(&self.arena, self.shape, root) as u64
            }
            Some(_) => u64::MAX,
        }
    }

    // How many nodes there are: an empty trie counts as its root.
    pub fn nodes(&self) -> u64 {
        match self.root {
            None => 1,
            Some(_) => self.used as u64,
        }
    }

    // The suffixes, ascending; 4,096 zeros stand for more, and for an arena that is not well formed.
    pub fn walk(&self, alloc: Global) -> Result<Vec<u64>, AllocError> {
        let Some(root) = self.root else {
            return Ok(Vec::new(alloc));
        };
        let mut suffixes = vec![in alloc; 0u64; lines::MOST]?;
        if is_tree(&self.arena, self.shape, self.used, root) {
            let many = trie_walk::walk(&self.arena, self.shape, root, 0, &mut suffixes);
            suffixes.truncate(many);
        }
        Ok(suffixes)
    }
}
