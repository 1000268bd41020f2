//! On which legs a block is fresh.

/// On which legs a block is fresh: its last accepted write was accepted there. It is so on one of them at least.
#[derive(Clone, Copy, Debug, PartialEq, Eq)]
pub struct Marks {
    /// On leg 0.
    pub leg0: bool,
    /// On leg 1.
    pub leg1: bool,
}
