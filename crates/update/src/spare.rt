//! Free blocks that were read and are not used yet.

ghost use Rattle.std.specs.Prelude.{◌≡◌, ◌<◌, ◌≤◌, [], ◌∷◌, ◌++◌, length, drop, slice_index};

use arrayvec::ArrayVec;
use std::marker::Model;

/// At most 12 free blocks, in the order of the free list.
#[derive(Drop)]
pub struct Spare {
    blocks: ArrayVec<u32, 12>,
}

impl Model for Spare {
    ghost use Rattle.std.specs.Prelude.{List, ℕ};

    ghost Value = { List ℕ };

    ghost view = { λ s. s.blocks.items };
}

impl Spare {
    /// No blocks.
    pub fn new() -> Spare
        ensures { result ≡ [] }
    {
        Spare {
            blocks: ArrayVec::new(),
        }
    }

    /// How many blocks are left.
    pub fn len(&self) -> usize
        ensures value { result ≡ length self.now }
        ensures few { length self.now ≤ 12 }
    {
        self.blocks.len()
    }

    /// One block more, after the others.
    pub fn push(&mut self, block: u32)
        requires { length self.old < 12 }
        ensures { self.new ≡ self.old ++ (block ∷ []) }
    {
        self.blocks.push(block);
    }

    /// Takes the first block out; 0 where there is none, as the plan of an insert has it.
    pub fn next(&mut self) -> u32
        ensures value { result ≡ slice_index self.old 0 }
        ensures after { self.new ≡ drop 1 self.old }
    {
        self.blocks.pop_at(0).unwrap_or(0)
    }
}
