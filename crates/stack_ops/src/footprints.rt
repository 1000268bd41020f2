//! What an op touches.

ghost use Rattle.std.specs.Prelude.{◌≡◌, ◌++◌, IfOk, OnOk, true, false};
ghost use Rattle.stack_ops.specs.Footprints.{IsShortPut, bytes_of, footprint, is_alone, reach_of, touches};

use crate::Op;
use page_pool::{Seg, SgList};
use range_gate::{Footprint, Reach, Touch, TouchList};
use std::alloc::{AllocError, Global};

/// What the op touches. A `fill` and a `put` write their bytes, a `show` reads them. A `seal` reads data and writes
/// tuples. A write reads its data, writes its virtual blocks and, where the application brought them, its tuples;
/// a read reads its virtual blocks and writes its data and the tuples that the application takes. `wait`,
/// `overwrite` and a request that a shift line names (`shifted`) are alone. A `put` has fewer than 2^32 bytes.
pub fn footprint_of(alloc: Global, op: &Op, shifted: bool) -> Result<Footprint, AllocError>
    requires { IsShortPut op.now }
    ensures { IfOk result (λ f. f ≡ footprint op.now shifted) }
{
    let bytes = touches_of(alloc, op)?;
    Ok(Footprint {
        alone: runs_alone(op, shifted),
        blocks: blocks_of(op),
        bytes: TouchList::from_vec(bytes),
    })
}

fn runs_alone(op: &Op, shifted: bool) -> bool
    ensures { result ≡ is_alone op.now shifted }
{
    match op {
        Op::Fill { .. } | Op::Put { .. } | Op::Show { .. } | Op::Seal { .. } => false,
        Op::Write { .. } | Op::Fetch { .. } | Op::WritePi { .. } | Op::FetchPi { .. } => shifted,
        Op::Overwrite { .. } | Op::Wait => true,
    }
}

fn blocks_of(op: &Op) -> Option<Reach>
    ensures { result ≡ reach_of op.now }
{
    match op {
        Op::Write { v, n, .. } | Op::WritePi { v, n, .. } => reach(*v, *n, true),
        Op::Fetch { v, n, .. } | Op::FetchPi { v, n, .. } => reach(*v, *n, false),
        _ => None,
    }
}

fn reach(first: u64, count: u32, writes: bool) -> Option<Reach>
    ensures { result ≡ Some (record { first = first; count = count; writes = writes }) }
{
    Some(Reach {
        first,
        count,
        writes,
    })
}

fn touches_of(alloc: Global, op: &Op) -> Result<Vec<Touch>, AllocError>
    requires { IsShortPut op.now }
    ensures { IfOk result (λ v. v.items ≡ bytes_of op.now) }
{
    let mut list = Vec::new(alloc);
    match op {
        Op::Fill { seg, .. } => add(&mut list, &[*seg], true)?,
        Op::Put { page, off, bytes } => {
            let len = bytes.as_slice().len() as u32;
            add(
                &mut list,
                &[Seg {
                    page: *page,
                    off: *off,
                    len,
                }],
                true,
            )?
        }
        Op::Show { seg } => add(&mut list, &[*seg], false)?,
        Op::Write { body, .. } => add(&mut list, body.as_slice(), false)?,
        Op::Fetch { body, .. } => add(&mut list, body.as_slice(), true)?,
        Op::Seal { body, tuples, .. } => add_both(&mut list, body, false, tuples)?,
        Op::WritePi { body, tuples, .. } => add_both(&mut list, body, false, tuples)?,
        Op::FetchPi { body, tuples, .. } => add_both(&mut list, body, true, tuples)?,
        Op::Overwrite { .. } | Op::Wait => {}
    }
    Ok(list)
}

/// Data that is read or written, and tuples that are written.
fn add_both(
    list: &mut Vec<Touch>,
    body: &SgList,
    writes: bool,
    tuples: &SgList,
) -> Result<(), AllocError>
    ensures { OnOk result (list.new.items ≡ list.old.items ++ (touches writes body.now ++ touches true tuples.now)) }
{
    add(list, body.as_slice(), writes)?;
    add(list, tuples.as_slice(), true)
}

fn add(list: &mut Vec<Touch>, segs: &[Seg], writes: bool) -> Result<(), AllocError>
    ensures { OnOk result (list.new.items ≡ list.old.items ++ touches writes segs.now) }
{
    for seg in segs {
        list.push(Touch { seg: *seg, writes })?;
    }
    Ok(())
}
