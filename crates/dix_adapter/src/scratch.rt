//! The room of one command.

ghost use Rattle.std.specs.Prelude.{◌≡◌, ◌+◌, ◌*◌, ◌≤◌, ◌<◌, ◌^◌, IfOk, length};
ghost use Rattle.std.specs.Vec.{vec_capacity};
ghost use Rattle.dix_adapter.specs.Room.{HoldsBlocks};

use crate::MOST_OF_COMMAND;
use fault_schedule::Label;
use pi_tuple::{LARGEST_BLOCK, TUPLE};
use std::alloc::{AllocError, Global};

/// Where the adapter keeps the frames and the labels of one command.
#[derive(Drop)]
pub struct Scratch {
    // One frame after another, and eight bytes more: a frame that has no tuple on the wire has room for one.
    pub(crate) frames: Vec<u8>,
    pub(crate) labels: Vec<Label>,
}

impl Scratch {
    /// Room for the blocks of one command, of which there are at most 1,048,576, whatever their size.
    pub fn new(alloc: Global, max_blocks: u32) -> Result<Scratch, AllocError>
        requires { max_blocks ≤ MOST_OF_COMMAND }
        ensures { IfOk result (HoldsBlocks LARGEST_BLOCK max_blocks) }
    {
        Scratch::for_size(alloc, max_blocks, LARGEST_BLOCK)
    }

    /// The same for blocks of at most so many bytes, which are at most 4,096.
    pub fn for_size(alloc: Global, max_blocks: u32, most_bytes: u32) -> Result<Scratch, AllocError>
        requires blocks { max_blocks ≤ MOST_OF_COMMAND }
        requires bytes { most_bytes ≤ LARGEST_BLOCK }
        ensures { IfOk result (HoldsBlocks most_bytes max_blocks) }
    {
        let count = max_blocks as usize;
        let size = most_bytes as usize;
        Ok(Scratch {
            frames: vec![in alloc; 0; count * (size + TUPLE) + TUPLE]?,
            labels: Vec::with_capacity(alloc, count)?,
        })
    }
}
