//! At most 32 bytes, with no memory taken.

ghost use Rattle.std.specs.Prelude.{◌≡◌};

use arrayvec::ArrayVec;
use std::marker::Model;

/// A list of at most 32 bytes, such as a command descriptor block.
#[derive(Drop)]
pub struct ShortBytes {
    held: ArrayVec<u8, 32>,
}

impl Model for ShortBytes {
    ghost use Rattle.std.specs.Prelude.{List, ℕ};

    ghost Value = { List ℕ };

    ghost view = { λ b. b.held.items };
}

impl ShortBytes {
    /// The list of these bytes, in their order.
    pub fn from_array(b: ArrayVec<u8, 32>) -> ShortBytes
        ensures { result ≡ b.items }
    {
        ShortBytes { held: b }
    }

    /// The same bytes once more. It takes no memory.
    pub fn copy(&self) -> ShortBytes
        ensures { result ≡ self.now }
    {
        let mut held = ArrayVec::new();
        if held.try_extend_from_slice(&self.held).is_err() {
            unreachable!();
        }
        ShortBytes { held }
    }

    /// The bytes, in their order.
    pub fn as_slice(&self) -> &[u8]
        ensures { result.now ≡ self.now }
    {
        self.held.as_slice()
    }
}
