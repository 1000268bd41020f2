//! What groups of blocks of zeros are carried with.

ghost use Rattle.dix_adapter.specs.Groups.{IsProtect};

use bio_core::Fate;
use dix_adapter::Adapter;
use fault_schedule::{FaultList, Tamper};
use integrity_payload::{Owner, Payload};
use page_pool::{Seg, SgList};
use pi_guard::GuardKind;
use pi_tuple::{PiType, make};
use std::alloc::{AllocError, Global};
use test_groups::list_of;

pub(crate) fn list(alloc: Global, segs: &[Seg]) -> Result<SgList, AllocError> {
    match list_of(alloc, segs)? {
        Some(list) => Ok(list),
        None => Err(AllocError),
    }
}

/// So many blocks' tuples, from this address on, in these pages.
pub(crate) fn payload(
    alloc: Global,
    first: u32,
    count: u32,
    segs: &[Seg],
) -> Result<Payload, AllocError> {
    Ok(Payload {
        seed: u64::from(first),
        count,
        tuples: list(alloc, segs)?,
        owner: Owner::Block,
        app: 0,
    })
}

/// The tuples of so many blocks of zeros, from this address on.
pub(crate) fn tuples(
    alloc: Global,
    guard: u16,
    first: u32,
    count: u32,
) -> Result<Vec<u8>, AllocError> {
    let mut bytes = Vec::new(alloc);
    for i in 0..count {
        bytes.extend_from_slice(&make(guard, 0, first.wrapping_add(i)).to_bytes())?;
    }
    Ok(bytes)
}

pub(crate) fn adapter(alloc: Global, kind: GuardKind) -> Adapter
    ensures { IsProtect result.protect }
{
    Adapter {
        kind,
        dix: true,
        dif: true,
        protect: 1,
        ty: PiType::One,
        tamper: Tamper::new(FaultList::from_vec(Vec::new(alloc))),
        app: 0,
        mask: 0,
    }
}

/// How many blocks are good.
pub(crate) fn good_of(fates: &[Fate]) -> u32 {
    let mut good = 0u32;
    for fate in fates {
        if *fate == Fate::Good {
            good = good.wrapping_add(1);
        }
    }
    good
}
