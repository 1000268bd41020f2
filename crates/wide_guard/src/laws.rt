//! Which changes of a message its CRC shows. Each law is the contract of a function with nothing to do.

ghost use Rattle.std.specs.Prelude.{ℕ, ◌≢◌, List};
ghost use Rattle.wide_guard.specs.Changes.{IsBurst, IsChange};
ghost use Rattle.wide_guard.specs.Reflected.{crc32c, crc64};

/// A law: CRC-32C shows each change within 32 neighbouring bits, the lowest bit of a byte before the others.
pub fn a_burst_of_32_bits_is_shown()
    ensures { (a b : List ℕ) (first : ℕ) → IsChange a b → IsBurst 32 first a b → crc32c a ≢ crc32c b }
{}

/// A law: the CRC of 64 bits shows each change within 64 neighbouring bits, in the same order.
pub fn a_burst_of_64_bits_is_shown()
    ensures { (a b : List ℕ) (first : ℕ) → IsChange a b → IsBurst 64 first a b → crc64 a ≢ crc64 b }
{}
