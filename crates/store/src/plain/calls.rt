//! A store over bytes in memory: its calls.

ghost use Rattle.std.specs.Prelude.{◌≡◌, ◌&&◌, cond, length, nat_le, Some, None};
ghost use Rattle.store.specs.declared.fault.Cause.TheVariants.{BadBlock};
ghost use Rattle.store.specs.Bytes.{gathered};
ghost use Rattle.store.specs.Calls.{answered, unless};
ghost use Rattle.store.specs.Faults.{fault};
ghost use Rattle.store.specs.PlainMeaning.{plain, made, absent, marked_by, outside, remarked, patched};
ghost use Rattle.store.specs.Limits.{plain_limits};

use crate::fault::{Cause, Fault};
use crate::plain::PlainStore;
use crate::store::{LONGEST, MOST_BLOCKS, Store};

/// The bytes of the shortest block of a plain store.
const SHORTEST: u32 = 16;

/// The length itself, and 0 where no block of a plain store has that length.
// 0 and no `Option`: a store made with such a length has the size 0.
fn allowed(size: u32) -> u32
    ensures { result ≡ cond (nat_le 16 size && nat_le size 512) size 0 }
{
    if size < SHORTEST || size as usize > LONGEST {
        return 0;
    }
    size
}

impl PlainStore {
    /// Cuts `bytes` into blocks of `size` bytes, as many as there are mark bytes for; a mark byte that is not 0 marks its block.
    pub fn new(bytes: Vec<u8>, marks: Vec<u8>, size: u32) -> PlainStore
        ensures { plain result ≡ made bytes.items marks.items size }
    {
        let size = allowed(size);
        let fit = bytes.len().checked_div(size as usize).unwrap_or(0);
        let count = fit.min(marks.len()).min(MOST_BLOCKS) as u32;
        PlainStore {
            bytes,
            marks,
            count,
            size,
            tally: 0,
        }
    }

    /// Refuses a block that is not there.
    fn check_block(&self, block: u32) -> Result<(), Fault>
        ensures { result ≡ answered (absent (plain self.now) block) }
    {
        if block >= self.count {
            return Err(Fault::new(Cause::NoSuchBlock, block));
        }
        Ok(())
    }

    /// Sets a block's mark byte.
    // A byte and no flag: callers hand the marks in as bytes, 0 for none.
    fn remark(&mut self, block: u32, byte: u8) -> Result<(), Fault>
        ensures answer { result ≡ answered (absent (plain self.old) block) }
        ensures after { plain self.new ≡ unless (absent (plain self.old) block) (remarked (plain self.old) block (marked_by byte block)) (plain self.old) }
    {
        self.check_block(block)?;
        self.put_mark(block, byte);
        Ok(())
    }

    /// Marks a block as one that cannot be read.
    pub fn mark(&mut self, block: u32) -> Result<(), Fault>
        ensures answer { result ≡ answered (absent (plain self.old) block) }
        ensures after { plain self.new ≡ unless (absent (plain self.old) block) (remarked (plain self.old) block (Some (fault BadBlock block))) (plain self.old) }
    {
        self.remark(block, 1)
    }

    /// Takes a block's mark away.
    pub fn clear(&mut self, block: u32) -> Result<(), Fault>
        ensures answer { result ≡ answered (absent (plain self.old) block) }
        ensures after { plain self.new ≡ unless (absent (plain self.old) block) (remarked (plain self.old) block None) (plain self.old) }
    {
        self.remark(block, 0)
    }

    /// Changes bytes of a block from `at` on, behind the back of its mark.
    pub fn patch(&mut self, block: u32, at: usize, part: &[u8]) -> Result<(), Fault>
        ensures answer { result ≡ answered (outside (plain self.old) block at (length part.now)) }
        ensures after { plain self.new ≡ unless (outside (plain self.old) block at (length part.now)) (patched (plain self.old) block at part.now) (plain self.old) }
    {
        self.check_block(block)?;
        let size = self.size as usize;
        if at > size || part.len() > size - at {
            return Err(Fault::new(Cause::WrongBuffer, block));
        }
        self.put_part(block, at, part);
        Ok(())
    }

    /// The bytes of all blocks, one after another.
    pub fn blocks(&self) -> &[u8]
        ensures { result.now ≡ gathered (plain self.now).count (plain self.now).contents }
    {
        self.first_blocks(self.count)
    }
}

impl Store for PlainStore {
    ghost meaning = { plain };

    ghost limits = { plain_limits };

    fn count(&self) -> u32 {
        self.count
    }

    fn size(&self) -> u32 {
        self.size
    }

    fn tally(&self) -> u64 {
        self.tally
    }

    fn read(&mut self, block: u32, buffer: &mut [u8]) -> Result<(), Fault> {
        self.tally = self.tally.wrapping_add(1);
        self.check_fit(block, buffer.len())?;
        if self.marks[block as usize] != 0 {
            return Err(Fault::new(Cause::BadBlock, block));
        }
        self.get_block(block, buffer);
        Ok(())
    }

    fn write(&mut self, block: u32, buffer: &[u8]) -> Result<(), Fault> {
        self.check_fit(block, buffer.len())?;
        self.put_block(block, buffer, 0);
        Ok(())
    }
}
