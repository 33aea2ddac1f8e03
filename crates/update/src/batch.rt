//! Blocks to be written, gathered before the first write.

ghost use Rattle.std.specs.Prelude.{◌≡◌, ℕ, ◌+◌, ◌<◌, ◌≤◌, [], ◌∷◌, length, take, ◌==◌};
ghost use Rattle.std.specs.List.{AllByRecursion, list_any};
ghost use Rattle.tree.specs.Inserts.{put_all, repeated};
ghost use Rattle.update.specs.Batches.{stacked};

use arrayvec::ArrayVec;
use std::marker::Model;
use store::store::{LONGEST, Store};

/// A block, and a page whose front is to be written to it.
#[derive(Default, Drop)]
pub struct Write {
    pub block: u32,
    // As long as any block, for there is no heap; the store says how much of it is written.
    pub page: [u8; LONGEST],
}

/// At most 24 writes.
#[derive(Drop)]
pub struct Batch {
    writes: ArrayVec<Write, 24>,
}

impl Model for Batch {
    ghost use Rattle.std.specs.Prelude.{List};
    ghost use Rattle.update.specs.declared.batch.Write.{Write};

    ghost Value = { List Write };

    ghost view = { λ b. b.writes.items };
}

impl Write {
    /// What a block of a size is to hold.
    fn front(&self, size: usize) -> &[u8]
        requires { size ≤ 512 }
        ensures value { result.now ≡ take size self.now.page }
        ensures len { length result.now ≡ size }
    {
        &self.page[..size]
    }
}

impl Batch {
    /// No blocks.
    pub fn new() -> Batch
        ensures empty { (size : ℕ) → stacked result size ≡ [] }
        ensures len { length result ≡ 0 }
    {
        Batch {
            writes: ArrayVec::new(),
        }
    }

    /// How many blocks there are.
    pub fn len(&self) -> usize
        ensures value { result ≡ length self.now }
        ensures few { length self.now ≤ 24 }
    {
        self.writes.len()
    }

    /// One block more, to be written before those that are there.
    pub fn push(&mut self, block: u32, page: &[u8; LONGEST])
        requires { length self.old < 24 }
        ensures pushed { (size : ℕ) → stacked self.new size ≡ (block, take size page.now) ∷ stacked self.old size }
        ensures len { length self.new ≡ length self.old + 1 }
    {
        self.writes.push(Write { block, page: *page });
    }

    /// A block that stands twice, if one does.
    pub fn repeated(&self) -> Option<u32>
        ensures { (size : ℕ) → result ≡ repeated (stacked self.now size) }
    {
        for (i, write) in self.writes.iter().enumerate() {
            if names(&self.writes[..i], write.block) {
                return Some(write.block);
            }
        }
        None
    }

    /// Writes all blocks.
    pub fn flush<S: Store>(&self, store: &mut S)
        requires { AllByRecursion (λ w. w.0 < (S.Store.meaning store.old).count) (stacked self.now (S.Store.meaning store.old).size) }
        ensures { S.Store.meaning store.new ≡ put_all (S.Store.meaning store.old) (stacked self.now (S.Store.meaning store.old).size) }
    {
        let size = store.size() as usize;
        for write in self.writes.iter().rev() {
            let _ = store.write(write.block, write.front(size));
        }
    }
}

/// Whether a block is named in writes.
fn names(writes: &[Write], block: u32) -> bool
    ensures { result ≡ list_any (λ w. w.block == block) writes.now }
{
    writes.iter().any(|write| write.block == block)
}
