//! What is wanted of blocks, and the difference that is found in one.

ghost use Rattle.std.specs.Prelude.{◌≡◌, ◌+◌, ◌^◌, ◌<◌, ◌≤◌, length, take, drop, IfSome};
ghost use Rattle.pi_tuple.specs.Tuples.{tuple_in};
ghost use Rattle.pi_blocks.specs.Blocks.{checks_of, compared, number_of, ref_of, told_of};
ghost use Rattle.pi_blocks.specs.Layouts.{are_flags};
ghost use Rattle.pi_tuple.specs.declared.TheConstants.{TUPLE};

use crate::Layout;
use pi_tuple::{Check, Checks, Tuple, finds, ref_tag};

/// What is wanted of the tuples of blocks.
#[repr(C)]
#[derive(Clone, Copy, Debug)]
pub struct Want {
    /// The reference tag of the first block: in type 1 its LBA's low 32 bits. Each further block's is one more, and 0
    /// follows 2^32 - 1.
    pub first_ref: u32,
    /// The application tag.
    pub app: u16,
    /// The bits of the application tag that are checked.
    pub mask: u16,
    /// What is checked: the guard by 2, the application tag by 4, and by 8 the reference tag, in types 1 and 2; or
    /// nothing, by 1 alone.
    pub checks: u32,
}

/// The first difference that is found.
#[repr(C)]
#[derive(Clone, Copy, Debug)]
pub struct Found {
    /// The number of its block, from 0.
    pub block: u64,
    /// The check that found it, by its flag in `Want::checks`: 2 for the guard, 4 for the application tag, 8 for the
    /// reference tag.
    pub check: u32,
    /// What is wanted: the data's guard, or a tag.
    pub expected: u32,
    /// What the tuple has.
    pub actual: u32,
}

impl Want {
    /// Whether the flags name checks and nothing else, or say that nothing is checked.
    pub(crate) fn has_flags(self) -> bool
        ensures { result ≡ are_flags self.checks }
    {
        let flags = self.checks;
        flags == 1 || 2 <= flags && flags < 16 && flags % 2 == 0
    }

    fn checks(self) -> Checks
        ensures { result ≡ checks_of self }
    {
        Checks {
            guard: self.checks & 2 != 0,
            rtag: self.checks & 8 != 0,
            app: self.app,
            mask: if self.checks & 4 != 0 { self.mask } else { 0 },
        }
    }

    // The reference tag of block i.
    fn ref_of(self, i: u64) -> u32
        ensures { result ≡ ref_of self i }
    {
        ref_tag(u64::from(self.first_ref) + i % 0x1_0000_0000)
    }
}

/// The tuple at this place.
pub(crate) fn tuple_at(bytes: &[u8], at: usize) -> Tuple
    requires { at + TUPLE ≤ length bytes.now }
    ensures { result ≡ tuple_in (take TUPLE (drop at bytes.now)) }
{
    let Some(eight) = bytes[at..].first_chunk::<8>() else {
        unreachable!()
    };
    Tuple::from_bytes(eight)
}

/// The check's flag.
pub(crate) fn number_of(check: Check) -> u32
    ensures { result ≡ number_of check }
{
    match check {
        Check::Guard => 2,
        Check::AppTag => 4,
        Check::RefTag => 8,
    }
}

// The difference that this check found in block i.
fn told(want: Want, i: u64, guard: u16, tuple: Tuple, check: Check) -> Found
    ensures { result ≡ told_of want i guard tuple check }
{
    let (expected, actual) = match check {
        Check::Guard => (u32::from(guard), u32::from(tuple.guard)),
        Check::AppTag => (u32::from(want.app), u32::from(tuple.app)),
        Check::RefTag => (want.ref_of(i), tuple.rtag),
    };
    Found {
        block: i,
        check: number_of(check),
        expected,
        actual,
    }
}

/// What the tuple of block i is found to differ in, where the block's bytes have this guard.
pub(crate) fn compare(layout: Layout, want: Want, i: u64, guard: u16, tuple: Tuple) -> Option<Found>
    ensures found { result ≡ compared layout want i guard tuple }
    ensures block { IfSome result (λ f. f.block ≡ i) }
{
    let check = finds(layout.ty(), want.checks(), want.ref_of(i), guard, tuple)?;
    Some(told(want, i, guard, tuple, check))
}
