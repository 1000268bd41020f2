//! What ops reply.

ghost use Rattle.std.specs.Prelude.{◌≡◌};

use bio_core::Why;
use dix_base::ByteList;
use std::marker::Model;

/// A block of a request that failed.
#[derive(Clone, Copy, Debug, PartialEq, Eq)]
pub struct BadBlock {
    /// Its place in the request, from 0.
    pub k: u32,
    /// Why it failed.
    pub why: Why,
}

/// The blocks of a request that failed, by their places.
#[derive(Drop)]
pub struct BadList {
    blocks: Vec<BadBlock>,
}

impl Model for BadList {
    ghost use Rattle.std.specs.Prelude.{List};
    ghost use Rattle.stack_ops.specs.declared.reply.BadBlock.{BadBlock};

    ghost Value = { List BadBlock };

    ghost view = { λ l. l.blocks.items };
}

impl BadList {
    /// The list of these blocks.
    pub fn from_vec(v: Vec<BadBlock>) -> BadList
        ensures { result ≡ v.items }
    {
        BadList { blocks: v }
    }

    /// The blocks in order.
    pub fn as_slice(&self) -> &[BadBlock]
        ensures { result.now ≡ self.now }
    {
        self.blocks.as_slice()
    }
}

/// What an op replies.
#[derive(Drop)]
pub enum Reply {
    /// Nothing.
    Silent,
    /// All blocks of the request are good.
    Whole,
    /// These blocks of the request failed, and all others are good.
    Bad(BadList),
    /// The bytes of a `show`.
    Shown(ByteList),
    /// The store call of an `overwrite` failed.
    Medium,
}
