//! Where the plain store's blocks and marks lie in its memory.

ghost use Rattle.std.specs.Prelude.{◌≡◌, ◌+◌, ◌<◌, ◌≤◌, length};
ghost use Rattle.store.specs.Bytes.{gathered};
ghost use Rattle.store.specs.PlainMeaning.{plain, marked_by, remarked, patched, refilled};

use crate::bytes::{block_in, overlay};
use crate::plain::PlainStore;

// That the block is there is asked of each call: a number that has been tested would have to hold the store it was tested for.
impl PlainStore {
    /// Copies a block out.
    // Apart from the bench store's: there the bounds are constants, here fields; what both do is `block_in`.
    pub(crate) fn get_block(&self, block: u32, buffer: &mut [u8])
        requires { (block < self.now.count) × (length buffer.old ≡ self.now.size) }
        ensures { buffer.new ≡ (plain self.now).contents block }
    {
        buffer.copy_from_slice(block_in(&self.bytes, block, self.size));
    }

    /// Puts bytes into a block, from `at` on.
    pub(crate) fn put_part(&mut self, block: u32, at: usize, part: &[u8])
        requires { (block < self.old.count) × (at + length part.now ≤ self.old.size) }
        ensures { plain self.new ≡ patched (plain self.old) block at part.now }
    {
        overlay(
            &mut self.bytes,
            block as usize * self.size as usize + at,
            part,
        );
    }

    /// Sets a block's mark byte.
    pub(crate) fn put_mark(&mut self, block: u32, byte: u8)
        requires { block < self.old.count }
        ensures { plain self.new ≡ remarked (plain self.old) block (marked_by byte block) }
    {
        self.marks[block as usize] = byte;
    }

    /// Puts all bytes of a block, and its mark byte.
    // Apart from the bench store's, which has no marks; what both do is `overlay`.
    pub(crate) fn put_block(&mut self, block: u32, bytes: &[u8], mark: u8)
        requires { (block < self.old.count) × (length bytes.now ≡ self.old.size) }
        ensures { plain self.new ≡ remarked (refilled (plain self.old) block bytes.now) block (marked_by mark block) }
    {
        self.put_part(block, 0, bytes);
        self.put_mark(block, mark);
    }

    /// The bytes of the first blocks.
    pub(crate) fn first_blocks(&self, count: u32) -> &[u8]
        requires { count ≤ self.now.count }
        ensures { result.now ≡ gathered count (plain self.now).contents }
    {
        &self.bytes[..count as usize * self.size as usize]
    }
}
