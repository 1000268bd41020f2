//! The faults of the outside.

/// A call of the outside failed. The object's count of faults rose in that call.
#[derive(Clone, Copy, Debug, PartialEq, Eq)]
pub struct Failed;

/// Why bytes couldn't be appended to a store.
#[derive(Clone, Copy, Debug, PartialEq, Eq)]
pub enum StoreFault {
    /// The store failed, and its count of faults rose in that call.
    Failed,
    /// Want of memory. The store is as before.
    Memory,
}
