//! The guards of protection information of 32 and 64 bits (NVM Command Set Specification, "End-to-end Data Protection"):
//! CRC-32C and the CRC of 64 bits of NVMe. Both are reflected, begin with all ones and are inverted at the end.
#![tactic(auto)]

mod guard_32;
mod guard_64;
mod laws;
mod tables_32;
mod tables_64;

ghost use Rattle.std.specs.Prelude.{◌≡◌, ℕ, List, ◌++◌};
ghost use Rattle.wide_guard.specs.Reflected.{crc32c, crc64};

pub use laws::{a_burst_of_32_bits_is_shown, a_burst_of_64_bits_is_shown};

/// CRC-32C of the bytes, of any number: the remainder of their bits, the lowest of each byte first, on division by the
/// polynomial 1EDC6F41h, begun with all ones, inverted and spelled the lowest bit first (RFC 3720, 12.1).
pub fn crc32c(bytes: &[u8]) -> u32
    ensures { result ≡ crc32c bytes.now }
{
    0xFFFF_FFFF - guard_32::reflected_after(0xFFFF_FFFF, bytes)
}

/// CRC-32C of bytes of which the first ones have this CRC, by those behind them.
pub fn crc32c_after(guard: u32, bytes: &[u8]) -> u32
    ensures { (before : List ℕ) → guard ≡ crc32c before → result ≡ crc32c (before ++ bytes.now) }
{
    0xFFFF_FFFF - guard_32::reflected_after(0xFFFF_FFFF - guard, bytes)
}

/// The CRC of 64 bits of NVMe of the bytes, of any number: as `crc32c`, by the polynomial AD93D23594C93659h.
pub fn crc64(bytes: &[u8]) -> u64
    ensures { result ≡ crc64 bytes.now }
{
    0xFFFF_FFFF_FFFF_FFFF - guard_64::reflected_after(0xFFFF_FFFF_FFFF_FFFF, bytes)
}

/// The CRC of 64 bits of bytes of which the first ones have this CRC, by those behind them.
pub fn crc64_after(guard: u64, bytes: &[u8]) -> u64
    ensures { (before : List ℕ) → guard ≡ crc64 before → result ≡ crc64 (before ++ bytes.now) }
{
    0xFFFF_FFFF_FFFF_FFFF - guard_64::reflected_after(0xFFFF_FFFF_FFFF_FFFF - guard, bytes)
}
