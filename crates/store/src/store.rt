//! What a store of blocks is.

ghost use Rattle.std.specs.Prelude.{◌≡◌};
ghost use Rattle.store.specs.Meaning.{Meaning, Limits};
ghost use Rattle.store.specs.Calls.{answered, misfit, misuse, Read, Wrote};

use crate::fault::{Cause, Fault};

/// The most blocks of any store.
pub const MOST_BLOCKS: usize = 1024;

/// The bytes of the longest block of any store.
pub const LONGEST: usize = 512;

/// Numbered blocks of one length, each readable or marked with a fault, and a tally of the reads.
pub trait Store {
    ghost meaning: { Self → Meaning };

    /// How many blocks there are.
    fn count(&self) -> u32
        ensures { result ≡ (meaning self.now).count };

    /// How many bytes a block has.
    fn size(&self) -> u32
        ensures { result ≡ (meaning self.now).size };

    /// How many reads were asked for, modulo 2^64.
    fn tally(&self) -> u64
        ensures { result ≡ (meaning self.now).tally };

    /// Fills the buffer with a block's bytes.
    fn read(&mut self, block: u32, buffer: &mut [u8]) -> Result<(), Fault>
        ensures { Read (meaning self.old) block buffer.old result buffer.new (meaning self.new) };

    /// Makes the buffer's bytes a block's, and takes away its mark.
    fn write(&mut self, block: u32, buffer: &[u8]) -> Result<(), Fault>
        ensures { Wrote (meaning self.old) block buffer.now result (meaning self.new) };

    /// Refuses a block that is not there, and then a buffer that is not as long as a block.
    fn check_fit(&self, block: u32, length: usize) -> Result<(), Fault>
        ensures { result ≡ answered (misuse (meaning self.now) block length) }
    {
        check_fit(self.count(), self.size(), block, length)
    }

    ghost limits: { (s : Self) → Limits (meaning s) };
}

/// Refuses a block that is not there among so many, and then a buffer that is not as long as a block of that size.
pub fn check_fit(count: u32, size: u32, block: u32, length: usize) -> Result<(), Fault>
    ensures { result ≡ answered (misfit count size block length) }
{
    if block >= count {
        return Err(Fault::new(Cause::NoSuchBlock, block));
    }
    if length != size as usize {
        return Err(Fault::new(Cause::WrongBuffer, block));
    }
    Ok(())
}
