//! The ops of a script.

ghost use Rattle.std.specs.Prelude.{◌≡◌};
ghost use Rattle.stack_ops.specs.Ops.{is_overwrite};

use dix_base::ByteList;
use page_pool::{Seg, SgList};
use rig_api::Change;
use std::marker::Model;

/// What a line of a script after `begin` does. A block's data is in one or more segments of pages; its tuple is
/// eight bytes (SBC-3, protection information model).
#[derive(Drop)]
pub enum Op {
    /// Sets bytes of a page to one value.
    Fill {
        seg: Seg,
        byte: u8,
    },
    /// Writes these bytes to a page, from an offset on.
    Put {
        page: u32,
        off: u32,
        bytes: ByteList,
    },
    /// Replies bytes of a page.
    Show {
        seg: Seg,
    },
    /// Makes the tuples of `n` blocks of data, with this application tag and with reference tags from `rtag` on.
    Seal {
        n: u32,
        body: SgList,
        tuples: SgList,
        app: u16,
        rtag: u32,
    },
    /// Writes `n` blocks from virtual block `v` on. The block layer makes the tuples, with this application tag.
    Write {
        v: u64,
        n: u32,
        body: SgList,
        app: u16,
    },
    /// Reads `n` blocks from virtual block `v` on. The block layer checks the tuples.
    Fetch {
        v: u64,
        n: u32,
        body: SgList,
    },
    /// Writes `n` blocks from virtual block `v` on, with the application's own tuples.
    WritePi {
        v: u64,
        n: u32,
        body: SgList,
        tuples: SgList,
    },
    /// Reads `n` blocks from virtual block `v` on. The application takes the tuples and checks them.
    FetchPi {
        v: u64,
        n: u32,
        body: SgList,
        tuples: SgList,
    },
    /// Alters a stored block of a device behind the rig's back.
    Overwrite {
        dev: u32,
        lba: u64,
        change: Change,
    },
    /// Lets all earlier ops end first.
    Wait,
}

impl Op {
    /// Whether the op alters a stored block without a command.
    pub fn is_overwrite(&self) -> bool
        ensures { result ≡ is_overwrite self.now }
    {
        matches!(self, Op::Overwrite { .. })
    }
}

/// A list of ops.
#[derive(Drop)]
pub struct OpList {
    ops: Vec<Op>,
}

impl Model for OpList {
    ghost use Rattle.std.specs.Prelude.{List};
    ghost use Rattle.stack_ops.specs.declared.op.Op.{Op};

    ghost Value = { List Op };

    ghost view = { λ l. l.ops.items };
}

impl OpList {
    /// The list of these ops.
    pub fn from_vec(v: Vec<Op>) -> OpList
        ensures { result ≡ v.items }
    {
        OpList { ops: v }
    }

    /// The ops in order.
    pub fn as_slice(&self) -> &[Op]
        ensures { result.now ≡ self.now }
    {
        self.ops.as_slice()
    }
}
