//! What the ops of a script ask for.

ghost use Rattle.std.specs.Prelude.{◌≡◌, ◌≤◌, IfOk};
ghost use Rattle.bio_core.specs.declared.TheConstants.{MOST_BLOCKS};
ghost use Rattle.run_words.specs.Lies.{asked_from, asked_one, request_in};
ghost use Rattle.run_words.specs.Ledgers.{blocks_asked_for};

use bio_core::Dir;
use stack_ops::Op;
use std::alloc::{AllocError, Global};

/// What an op asks for.
#[derive(Clone, Copy)]
pub struct Asked {
    /// Which way the data of a request goes; none of another op.
    pub way: Option<Dir>,
    /// The first virtual block of a request.
    pub first: u64,
    /// How many blocks it has; another op has 0.
    pub count: u32,
    /// How many blocks the ops before it have.
    pub start: u32,
}

/// What the ops of a script ask for, and how many blocks that are.
#[derive(Drop)]
pub(crate) struct AllAsked {
    pub(crate) asked: Vec<Asked>,
    pub(crate) blocks: u32,
}

/// What stands in place of an op that isn't there.
const NO_REQUEST: Asked = Asked {
    way: None,
    first: 0,
    count: 0,
    start: 0,
};

/// What an op asks for, behind so many blocks.
fn asked_one(start: u32, op: &Op) -> Asked
    ensures { result ≡ asked_one start op.now }
{
    let (way, first, count) = match op {
        Op::Write { v, n, .. } => (Some(Dir::Write), *v, *n),
        Op::WritePi { v, n, .. } => (Some(Dir::Write), *v, *n),
        Op::Fetch { v, n, .. } => (Some(Dir::Read), *v, *n),
        Op::FetchPi { v, n, .. } => (Some(Dir::Read), *v, *n),
        _ => (None, 0, 0),
    };
    Asked {
        way,
        first,
        count,
        start,
    }
}

/// What these ops ask for, of together few blocks.
pub(crate) fn all_asked(alloc: Global, ops: &[Op]) -> Result<AllAsked, AllocError>
    requires { blocks_asked_for ops.now ≤ MOST_BLOCKS }
    ensures asked { IfOk result (λ a. a.asked.items ≡ asked_from 0 ops.now) }
    ensures blocks { IfOk result (λ a. a.blocks ≡ blocks_asked_for ops.now) }
{
    let mut asked = Vec::with_capacity(alloc, ops.len())?;
    let mut blocks = 0u32;
    for op in ops {
        let one = asked_one(blocks, op);
        asked.push_reserved(one);
        blocks += one.count;
    }
    Ok(AllAsked { asked, blocks })
}

/// What op `i`, from 0, asks for.
pub(crate) fn request_in(asked: &[Asked], i: usize) -> Asked
    ensures { result ≡ request_in asked.now i }
{
    match asked.get(i) {
        Some(one) => *one,
        None => NO_REQUEST,
    }
}
