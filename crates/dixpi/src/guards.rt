//! Guards of bytes.

ghost use Rattle.std.specs.Prelude.{◌≡◌, ℕ, List, ◌++◌};
ghost use Rattle.pi_guard.specs.Guards.{crc, ip};
ghost use Rattle.pi_blocks.specs.Parts.{all_parts};

use pi_blocks::{Part, crc16v, ip_sumv};
use pi_guard::{crc16, crc16_after, ip_sum};

/// The CRC of the bytes (SBC-3, 4.22.4).
#[unsafe(no_mangle)]
pub extern "C" fn dixpi_crc16(bytes: &[u8]) -> u16
    ensures { result ≡ crc bytes.now }
{
    crc16(bytes)
}

/// The CRC of bytes of which the first ones have this CRC, by those behind them.
#[unsafe(no_mangle)]
pub extern "C" fn dixpi_crc16_after(guard: u16, bytes: &[u8]) -> u16
    ensures { (b : List ℕ) → guard ≡ crc b → result ≡ crc (b ++ bytes.now) }
{
    crc16_after(guard, bytes)
}

/// The Internet checksum of the bytes (RFC 1071), as host memory has it in place of the CRC.
#[unsafe(no_mangle)]
pub extern "C" fn dixpi_ip_sum(bytes: &[u8]) -> u16
    ensures { result ≡ ip bytes.now }
{
    ip_sum(bytes)
}

/// The CRC of the parts' bytes, one part after another. In C a part is a `struct iovec`.
#[unsafe(no_mangle)]
pub extern "C" fn dixpi_crc16v(parts: &[Part]) -> u16
    ensures { result ≡ crc (all_parts parts.now) }
{
    crc16v(parts)
}

/// The Internet checksum of the parts' bytes, one part after another.
#[unsafe(no_mangle)]
pub extern "C" fn dixpi_ip_sumv(parts: &[Part]) -> u16
    ensures { result ≡ ip (all_parts parts.now) }
{
    ip_sumv(parts)
}
