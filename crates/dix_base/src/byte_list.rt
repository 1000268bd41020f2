//! Bytes that contracts see as a list.

ghost use Rattle.std.specs.Prelude.{◌≡◌};

use std::marker::Model;

/// Bytes on the heap. A contract sees them as a list of numbers.
#[derive(Drop)]
pub struct ByteList {
    held: Vec<u8>,
}

impl Model for ByteList {
    ghost use Rattle.std.specs.Prelude.{ℕ, List};

    ghost Value = { List ℕ };

    ghost view = { λ b. b.held.items };
}

impl ByteList {
    /// The same bytes. It takes no memory.
    pub fn from_vec(v: Vec<u8>) -> Self
        ensures { result ≡ v.items }
    {
        ByteList { held: v }
    }

    /// The bytes, in order.
    pub fn as_slice(&self) -> &[u8]
        ensures { result.now ≡ self.now }
    {
        self.held.as_slice()
    }
}
