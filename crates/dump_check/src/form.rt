//! How the blocks of a dump are laid, and what is wanted of them.

ghost use Rattle.std.specs.Prelude.{◌≡◌, ◌+◌, ◌^◌, ◌<◌, ◌≤◌, true};
ghost use Rattle.dump_check.specs.Forms.{are_flags, bits_of, covered_of, first_tag, guard_len, has_tag, info_len, is_fit, is_three, stride_of};

use pi_blocks::{Layout, Want};
use wide_blocks::{NvmeLayout, NvmeWant};

/// How the blocks of a dump are laid one after another, each with its metadata behind its data, and what is wanted of
/// them.
#[derive(Clone, Copy, Debug)]
pub enum Form {
    /// Tuples of 8 bytes.
    Narrow { layout: Layout, want: Want },
    /// The protection information of NVMe of 16 bytes, whose guard has 32 or 64 bits.
    Wide { layout: NvmeLayout, want: NvmeWant },
}

/// A dump: its blocks and the address of the first.
#[derive(Clone, Copy, Debug)]
pub struct Dump {
    /// The address of the first block.
    pub first: u64,
    /// How its blocks are laid.
    pub form: Form,
}

// Whether flags name checks and nothing else, or say that nothing is checked.
fn are_flags(flags: u32, end: u32) -> bool
    ensures { result ≡ are_flags end flags }
{
    flags == 1 || 2 <= flags && flags < end && flags % 2 == 0
}

impl Form {
    /// Whether each number of the layout and the flags of the checks have a meaning.
    pub fn is_fit(self) -> bool
        ensures { result ≡ is_fit self }
    {
        match self {
            Form::Narrow { layout, want } => layout.is_good() && are_flags(want.checks, 16),
            Form::Wide { layout, want } => layout.is_good() && are_flags(want.checks, 32),
        }
    }

    /// The bytes of a block with its metadata.
    pub fn stride(self) -> usize
        ensures { result ≡ stride_of self }
    {
        match self {
            Form::Narrow { layout, .. } => layout.data_size as usize + layout.meta_size as usize,
            Form::Wide { layout, .. } => layout.data_size as usize + layout.meta_size as usize,
        }
    }

    /// The bytes of a block before its protection information.
    pub(crate) fn covered(self) -> usize
        requires { is_fit self ≡ true }
        ensures { result ≡ covered_of self }
    {
        match self {
            Form::Narrow { layout, .. } => layout.data_size as usize + layout.tuple_at as usize,
            Form::Wide { layout, .. } => {
                if layout.at_end == 0 {
                    layout.data_size as usize
                } else {
                    layout.data_size as usize + (layout.meta_size as usize - 16)
                }
            }
        }
    }

    /// The bytes of its protection information.
    pub(crate) fn info_len(self) -> usize
        ensures { result ≡ info_len self }
    {
        match self {
            Form::Narrow { .. } => 8,
            Form::Wide { .. } => 16,
        }
    }

    /// The bytes of its guard.
    pub(crate) fn guard_len(self) -> usize
        ensures { result ≡ guard_len self }
    {
        match self {
            Form::Narrow { .. } => 2,
            Form::Wide { layout, .. } => { if layout.guard == 32 { 4 } else { 8 } }
        }
    }

    /// Whether the type is 3.
    pub(crate) fn is_three(self) -> bool
        ensures { result ≡ is_three self }
    {
        match self {
            Form::Narrow { layout, .. } => layout.pi_type == 3,
            Form::Wide { layout, .. } => layout.pi_type == 3,
        }
    }

    /// Whether reference tags are checked.
    pub(crate) fn has_tag(self) -> bool
        ensures { result ≡ has_tag self }
    {
        match self {
            Form::Narrow { layout, want } => want.checks & 8 != 0 && layout.pi_type != 3,
            Form::Wide { layout, want } => want.checks & 8 != 0 && layout.pi_type != 3,
        }
    }

    /// The bits of a reference tag.
    pub(crate) fn bits(self) -> u32
        requires { is_fit self ≡ true }
        ensures bits { result ≡ bits_of self }
        ensures few { result ≤ 64 }
    {
        match self {
            Form::Narrow { .. } => 32,
            Form::Wide { layout, .. } => 112 - layout.guard - layout.storage,
        }
    }

    /// The reference tag that is wanted of the first block.
    pub(crate) fn first_tag(self) -> u64
        ensures { result ≡ first_tag self }
    {
        match self {
            Form::Narrow { want, .. } => u64::from(want.first_ref),
            Form::Wide { want, .. } => want.first_ref,
        }
    }
}
