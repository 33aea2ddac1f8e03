//! A store that keeps its blocks within itself: its calls.

ghost use Rattle.std.specs.Prelude.{◌≡◌, ◌<◌, length, replicate};
ghost use Rattle.store.specs.BenchMeaning.{bench, kept};
ghost use Rattle.store.specs.Meaning.{written};
ghost use Rattle.store.specs.Limits.{bench_limits};

use crate::bench::{BYTES, BenchStore, Blocks};
use crate::bytes::{block_in, overlay};
use crate::fault::Fault;
use crate::store::Store;

const COUNT: u32 = 64;

const SIZE: u32 = 128;

impl BenchStore {
    /// All bytes zero.
    pub fn new() -> BenchStore
        ensures { bench result ≡ kept (replicate 8192 0) 0 }
    {
        BenchStore {
            blocks: Blocks { bytes: [0; BYTES] },
            tally: 0,
        }
    }

    /// Copies a block out.
    // Apart from the plain store's: there the bounds are fields, here constants; what both do is `block_in`.
    fn get_block(&self, block: u32, buffer: &mut [u8])
        requires { (block < 64) × (length buffer.old ≡ 128) }
        ensures { buffer.new ≡ (bench self.now).contents block }
    {
        buffer.copy_from_slice(block_in(&self.blocks.bytes, block, SIZE));
    }

    /// Puts all bytes of a block.
    // Apart from the plain store's, which sets a mark byte too; what both do is `overlay`.
    fn put_block(&mut self, block: u32, bytes: &[u8])
        requires { (block < 64) × (length bytes.now ≡ 128) }
        ensures { bench self.new ≡ written (bench self.old) block bytes.now }
    {
        overlay(
            &mut self.blocks.bytes,
            block as usize * SIZE as usize,
            bytes,
        );
    }
}

impl Store for BenchStore {
    ghost meaning = { bench };

    ghost limits = { bench_limits };

    fn count(&self) -> u32 {
        COUNT
    }

    fn size(&self) -> u32 {
        SIZE
    }

    fn tally(&self) -> u64 {
        self.tally
    }

    fn read(&mut self, block: u32, buffer: &mut [u8]) -> Result<(), Fault> {
        self.tally = self.tally.wrapping_add(1);
        self.check_fit(block, buffer.len())?;
        self.get_block(block, buffer);
        Ok(())
    }

    fn write(&mut self, block: u32, buffer: &[u8]) -> Result<(), Fault> {
        self.check_fit(block, buffer.len())?;
        self.put_block(block, buffer);
        Ok(())
    }
}
