//! A store that keeps its blocks within itself: the structs.

ghost use Rattle.std.specs.Prelude.{◌≡◌, length};
ghost use Rattle.store.specs.Bytes.{Bytes};

/// The bytes of all blocks.
const BYTES: usize = 8192;

/// The bytes of 64 blocks of 128 bytes, one after another.
#[derive(Drop)]
pub struct Blocks {
    // An array and no `Vec`: this store takes no memory from the heap.
    bytes: [u8; BYTES],
}

/// 64 blocks of 128 bytes, none of them ever marked.
#[derive(Drop)]
pub struct BenchStore {
    blocks: Blocks,
    tally: u64,
    ghost whole: { length blocks.bytes ≡ 8192 },
    ghost filled: { Bytes blocks.bytes },
}

pub mod calls;
