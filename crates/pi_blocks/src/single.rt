//! One tuple by itself.

ghost use Rattle.std.specs.Prelude.{◌≡◌, true, false, IfErr, IfOk};
ghost use Rattle.pi_tuple.specs.Tuples.{tuple_bytes, tuple_in};
ghost use Rattle.pi_blocks.specs.Blocks.{compared};
ghost use Rattle.pi_blocks.specs.Layouts.{NotChecked, are_flags, is_type, of_type};
ghost use Rattle.pi_blocks.specs.Single.{fields_of, tuple_of};

use crate::block::compare;
use crate::{Found, Layout, Refusal, Unchecked, Want};
use pi_tuple::Tuple;

/// The fields of a tuple as plain numbers (SBC-3, 4.22.3).
#[repr(C)]
#[derive(Clone, Copy, Debug, PartialEq, Eq)]
pub struct TupleFields {
    /// The guard.
    pub guard: u16,
    /// The application tag.
    pub app: u16,
    /// The reference tag.
    pub rtag: u32,
}

impl TupleFields {
    fn tuple(self) -> Tuple
        ensures { result ≡ tuple_of self }
    {
        Tuple {
            guard: self.guard,
            app: self.app,
            rtag: self.rtag,
        }
    }

    /// The eight bytes of the tuple as they travel, the most significant byte of each field first.
    pub fn to_bytes(self) -> [u8; 8]
        ensures bytes { result ≡ tuple_bytes (tuple_of self) }
        ensures back { fields_of (tuple_in result) ≡ self }
    {
        self.tuple().to_bytes()
    }

    /// The fields of these eight bytes. It undoes `to_bytes`.
    pub fn from_bytes(eight: &[u8; 8]) -> TupleFields
        ensures value { result ≡ fields_of (tuple_in eight.now) }
        ensures back { tuple_bytes (tuple_of result) ≡ eight.now }
    {
        let Tuple { guard, app, rtag } = Tuple::from_bytes(eight);
        TupleFields { guard, app, rtag }
    }
}

/// Checks a tuple against a guard that was computed elsewhere, as by hardware, as that of block `i`: the first
/// difference, or `None`. A type that isn't 1 to 3 is refused as no layout.
pub fn check(
    pi_type: u32,
    eight: &[u8; 8],
    guard: u16,
    want: &Want,
    i: u64,
) -> Result<Option<Found>, Unchecked>
    ensures checked { IfOk result (λ found. (is_type pi_type ≡ true) × (are_flags want.now.checks ≡ true)
        × (found ≡ compared (of_type pi_type) want.now i guard (tuple_in eight.now))) }
    ensures refused { IfErr result (NotChecked (is_type pi_type ≡ true) (λ e. (is_type pi_type ≡ false) × (e ≡ Refusal.BadLayout)) want.now.checks) }
{
    if pi_type < 1 || pi_type > 3 {
        return Err(Unchecked::Blocks(Refusal::BadLayout));
    }
    if !want.has_flags() {
        return Err(Unchecked::Flags);
    }
    let layout = Layout {
        data_size: 0,
        meta_size: 8,
        tuple_at: 0,
        pi_type,
        guard: 0,
    };
    Ok(compare(layout, *want, i, guard, Tuple::from_bytes(eight)))
}
