//! What an op touches.

ghost use Rattle.std.specs.Prelude.{◌≡◌};

use page_pool::Seg;
use std::marker::Model;

/// The virtual blocks that an op reads or writes.
#[derive(Clone, Copy, Debug, PartialEq, Eq)]
pub struct Reach {
    /// The first virtual block.
    pub first: u64,
    /// The number of blocks.
    pub count: u32,
    /// Whether it writes them.
    pub writes: bool,
}

/// Bytes of a page that an op reads or writes.
#[derive(Clone, Copy, Debug, PartialEq, Eq)]
pub struct Touch {
    /// The bytes.
    pub seg: Seg,
    /// Whether it writes them.
    pub writes: bool,
}

/// A list of touches.
#[derive(Drop)]
pub struct TouchList {
    touches: Vec<Touch>,
}

impl Model for TouchList {
    ghost use Rattle.std.specs.Prelude.{List};
    ghost use Rattle.range_gate.specs.declared.footprint.Touch.{Touch};

    ghost Value = { List Touch };

    ghost view = { λ l. l.touches.items };
}

impl TouchList {
    /// The list of these touches.
    pub fn from_vec(v: Vec<Touch>) -> TouchList
        ensures { result ≡ v.items }
    {
        TouchList { touches: v }
    }

    /// The touches in order.
    pub fn as_slice(&self) -> &[Touch]
        ensures { result.now ≡ self.now }
    {
        self.touches.as_slice()
    }
}

/// What an op touches. Two footprints conflict where one of them is alone, or they share a virtual block that one
/// of them writes, or they share a byte of a page that one of them writes.
#[derive(Drop)]
pub struct Footprint {
    /// Whether the op runs with no other at all.
    pub alone: bool,
    /// The virtual blocks that it reads or writes, where there are any.
    pub blocks: Option<Reach>,
    /// The bytes of pages that it reads or writes.
    pub bytes: TouchList,
}
