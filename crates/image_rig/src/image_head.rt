//! What is kept of the head of an image.

ghost use Rattle.std.specs.Prelude.{◌≡◌, ◌≤◌, length};

/// The head of an image, as it was read.
#[derive(Clone, Copy)]
pub struct ImageHead {
    /// The length of the image, in bytes.
    pub(crate) size: u64,
    /// How many of the first bytes there are.
    pub(crate) have: usize,
    /// The first bytes.
    pub(crate) first: [u8; 512],
    ghost within: { have ≤ 512 },
    ghost long: { length first ≡ 512 },
}
