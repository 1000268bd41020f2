//! Why not all was compared.

/// Why not all was compared.
#[derive(Clone, Copy, Debug, PartialEq, Eq)]
pub enum DiffFault {
    /// The first store failed.
    First,
    /// The second store failed.
    Second,
    /// The sink failed.
    Sink,
}
