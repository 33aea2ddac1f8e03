//! Bytes in a slice, for stores that keep their blocks in memory.

ghost use Rattle.std.specs.Prelude.{◌≡◌, ◌+◌, ◌*◌, ◌≤◌, length, take, drop};
ghost use Rattle.store.specs.Bytes.{overlaid};

/// The bytes of a block, where blocks of `size` bytes lie one after another.
pub(crate) fn block_in(bytes: &[u8], block: u32, size: u32) -> &[u8]
    requires { block * size + size ≤ length bytes.now }
    ensures value { result.now ≡ take size (drop (block * size) bytes.now) }
    ensures whole { length result.now ≡ size }
{
    let from = block as usize * size as usize;
    &bytes[from..from + size as usize]
}

/// Puts `part` in the place of what stands from `at` on.
pub fn overlay(slice: &mut [u8], at: usize, part: &[u8])
    requires { at + length part.now ≤ length slice.old }
    ensures { slice.new ≡ overlaid slice.old at part.now }
{
    let end = at + part.len();
    slice[at..end].copy_from_slice(part);
}
