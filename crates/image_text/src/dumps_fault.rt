//! Why blocks weren't imported.

/// Why a dump wasn't imported, or not all of it.
#[derive(Clone, Copy, Debug, PartialEq, Eq)]
pub enum ImportFault {
    /// It has only so many whole pieces.
    Short(u32),
    /// It has a byte more than the pieces.
    Long,
    /// The store failed.
    Store,
    /// The source failed.
    Source,
}
