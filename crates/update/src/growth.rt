//! What an insert gathers in memory before it writes.

use crate::batch::Batch;
use crate::spare::Spare;

/// The blocks to be written, the free blocks to be used, and the block of the free list after those.
#[derive(Drop)]
pub struct Growth {
    pub batch: Batch,
    pub spare: Spare,
    pub rest: u32,
}
