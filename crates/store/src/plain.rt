//! A store over bytes in memory: the struct.

ghost use Rattle.std.specs.Prelude.{◌*◌, ◌≤◌, vec_len};
ghost use Rattle.store.specs.Bytes.{Bytes};

/// Blocks that lie one after another in memory, with a mark byte for each.
#[derive(Drop)]
pub struct PlainStore {
    // Two vectors, as callers hand them in: the blocks are given back as one slice with no marks in it.
    bytes: Vec<u8>,
    marks: Vec<u8>,
    count: u32,
    size: u32,
    tally: u64,
    ghost few: { count ≤ 1024 },
    ghost short: { size ≤ 512 },
    ghost room: { count * size ≤ vec_len bytes },
    ghost marked: { count ≤ vec_len marks },
    ghost filled: { Bytes bytes.items },
}

pub mod calls;
mod memory;
