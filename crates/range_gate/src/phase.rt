//! How far an op is.

/// How far an op is.
#[derive(Clone, Copy, Debug, PartialEq, Eq)]
pub enum Phase {
    /// It has not been admitted.
    Waiting,
    /// It was admitted and has not ended.
    Admitted,
    /// It has ended.
    Ended,
}
