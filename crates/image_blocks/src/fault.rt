//! Why a walk along an image into a sink ends early.

/// Why a walk along an image into a sink ends early.
#[derive(Clone, Copy, Debug, PartialEq, Eq)]
pub enum WalkFault {
    /// The store failed.
    Store,
    /// The sink failed.
    Sink,
}
