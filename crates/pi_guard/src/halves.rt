//! The register after 32 or 64 bytes, by tables of the halves of a byte, down to eight bytes that are looked up.

ghost use Rattle.std.specs.Prelude.{◌≡◌, ◌++◌, map, bit_xor};
ghost use Rattle.std.specs.Simd.Lanes.{zip2};
ghost use Rattle.pi_guard.specs.Register.{register};
ghost use Rattle.pi_guard.specs.Windows.{by_halves};
ghost use Rattle.pi_guard.specs.AfterZeros.{later};

use crate::byte_tables::table_entry;
use crate::narrow::with_register;
use crate::slicing::register_of_last_eight;
use std::simd::prelude::*;

// A byte with 48 bytes behind it leaves what two bytes leave, the first with one byte behind it and the
// second with none. Both are linear in the byte, so each is the xor of what the byte's two halves give.
const FROM_48_FIRST_HIGH: [u8; 16] = [
    0x00, 0xA2, 0xCF, 0x6D, 0x14, 0xB6, 0xDB, 0x79, 0x29, 0x8B, 0xE6, 0x44, 0x3D, 0x9F, 0xF2, 0x50,
];

const FROM_48_FIRST_LOW: [u8; 16] = [
    0x00, 0x84, 0x82, 0x06, 0x8F, 0x0B, 0x0D, 0x89, 0x94, 0x10, 0x16, 0x92, 0x1B, 0x9F, 0x99, 0x1D,
];

const FROM_48_SECOND_HIGH: [u8; 16] = [
    0x00, 0x1D, 0x8D, 0x90, 0xAD, 0xB0, 0x20, 0x3D, 0x5A, 0x47, 0xD7, 0xCA, 0xF7, 0xEA, 0x7A, 0x67,
];

const FROM_48_SECOND_LOW: [u8; 16] = [
    0x00, 0xDA, 0x03, 0xD9, 0xB1, 0x6B, 0xB2, 0x68, 0xD5, 0x0F, 0xD6, 0x0C, 0x64, 0xBE, 0x67, 0xBD,
];

// The same of a byte with 32 bytes behind it.
const FROM_32_FIRST_HIGH: [u8; 16] = [
    0x00, 0xB8, 0xFB, 0x43, 0x7D, 0xC5, 0x86, 0x3E, 0xFA, 0x42, 0x01, 0xB9, 0x87, 0x3F, 0x7C, 0xC4,
];

const FROM_32_FIRST_LOW: [u8; 16] = [
    0x00, 0x85, 0x81, 0x04, 0x89, 0x0C, 0x08, 0x8D, 0x99, 0x1C, 0x18, 0x9D, 0x10, 0x95, 0x91, 0x14,
];

const FROM_32_SECOND_HIGH: [u8; 16] = [
    0x00, 0x6D, 0x6D, 0x00, 0x6D, 0x00, 0x00, 0x6D, 0xDA, 0xB7, 0xB7, 0xDA, 0xB7, 0xDA, 0xDA, 0xB7,
];

const FROM_32_SECOND_LOW: [u8; 16] = [
    0x00, 0x7D, 0x4D, 0x30, 0x2D, 0x50, 0x60, 0x1D, 0xED, 0x90, 0xA0, 0xDD, 0xC0, 0xBD, 0x8D, 0xF0,
];

// The same of a byte with 16 bytes behind it.
const FROM_16_FIRST_HIGH: [u8; 16] = [
    0x00, 0x72, 0xE4, 0x96, 0x42, 0x30, 0xA6, 0xD4, 0x84, 0xF6, 0x60, 0x12, 0xC6, 0xB4, 0x22, 0x50,
];

const FROM_16_FIRST_LOW: [u8; 16] = [
    0x00, 0xA0, 0xCB, 0x6B, 0x1C, 0xBC, 0xD7, 0x77, 0x39, 0x99, 0xF2, 0x52, 0x25, 0x85, 0xEE, 0x4E,
];

const FROM_16_SECOND_HIGH: [u8; 16] = [
    0x00, 0x64, 0xC8, 0xAC, 0x27, 0x43, 0xEF, 0x8B, 0x4E, 0x2A, 0x86, 0xE2, 0x69, 0x0D, 0xA1, 0xC5,
];

const FROM_16_SECOND_LOW: [u8; 16] = [
    0x00, 0x10, 0x97, 0x87, 0x99, 0x89, 0x0E, 0x1E, 0x32, 0x22, 0xA5, 0xB5, 0xAB, 0xBB, 0x3C, 0x2C,
];

// The same of a byte with 8 bytes behind it.
const FROM_8_FIRST_HIGH: [u8; 16] = [
    0x00, 0x6E, 0xDC, 0xB2, 0x32, 0x5C, 0xEE, 0x80, 0x65, 0x0B, 0xB9, 0xD7, 0x57, 0x39, 0x8B, 0xE5,
];

const FROM_8_FIRST_LOW: [u8; 16] = [
    0x00, 0xF2, 0x6F, 0x9D, 0xDE, 0x2C, 0xB1, 0x43, 0x37, 0xC5, 0x58, 0xAA, 0xE9, 0x1B, 0x86, 0x74,
];

const FROM_8_SECOND_HIGH: [u8; 16] = [
    0x00, 0x46, 0x8C, 0xCA, 0xAF, 0xE9, 0x23, 0x65, 0x5E, 0x18, 0xD2, 0x94, 0xF1, 0xB7, 0x7D, 0x3B,
];

const FROM_8_SECOND_LOW: [u8; 16] = [
    0x00, 0x49, 0x25, 0x6C, 0x4A, 0x03, 0x6F, 0x26, 0x23, 0x6A, 0x06, 0x4F, 0x69, 0x20, 0x4C, 0x05,
];

/// Adds to each byte of `to` what two tables give for the halves of the byte of `from`.
#[inline(always)]
fn folded_in(to: u8x16, high: [u8; 16], low: [u8; 16], from: u8x16) -> u8x16
    ensures { result ≡ zip2 bit_xor to (map (by_halves high low) from) }
{
    let upper = u8x16::from_array(high).swizzle_dyn(from >> u8x16::splat(4));
    let lower = u8x16::from_array(low).swizzle_dyn(from & u8x16::splat(15));
    to ^ (upper ^ lower)
}

/// The register after the 64 bytes of a window: the earlier ones are folded into the last sixteen and
/// the sixteen that begin one place before them.
#[inline(always)]
pub fn register_of_window(a: u8x16, b: u8x16, c: u8x16, d: u8x16) -> u16
    ensures { result ≡ register 0 (a ++ (b ++ (c ++ d))) }
{
    let zero = u8x16::from_array([0; 16]);
    let c1 = folded_in(zero, FROM_16_FIRST_HIGH, FROM_16_FIRST_LOW, c);
    let b1 = folded_in(c1, FROM_32_FIRST_HIGH, FROM_32_FIRST_LOW, b);
    let a1 = folded_in(b1, FROM_48_FIRST_HIGH, FROM_48_FIRST_LOW, a);
    let c2 = folded_in(d, FROM_16_SECOND_HIGH, FROM_16_SECOND_LOW, c);
    let b2 = folded_in(c2, FROM_32_SECOND_HIGH, FROM_32_SECOND_LOW, b);
    let a2 = folded_in(b2, FROM_48_SECOND_HIGH, FROM_48_SECOND_LOW, a);
    register_of_pair(a1, a2)
}

/// The register after the 32 bytes of two vectors.
#[inline(always)]
fn register_of_two(a: u8x16, b: u8x16) -> u16
    ensures { result ≡ register 0 (a ++ b) }
{
    let zero = u8x16::from_array([0; 16]);
    let upper = folded_in(zero, FROM_16_FIRST_HIGH, FROM_16_FIRST_LOW, a);
    let lower = folded_in(b, FROM_16_SECOND_HIGH, FROM_16_SECOND_LOW, a);
    register_of_pair(upper, lower)
}

/// The register after 32 bytes more.
#[inline(always)]
pub fn after_thirty_two(start: u16, bytes: &[u8; 32]) -> u16
    ensures { result ≡ register start bytes.now }
{
    let first = with_register(start, u8x16::from_slice(bytes));
    register_of_two(first, u8x16::from_slice(&bytes[16..]))
}

/// The register after these bytes, of which the upper ones stand one place further to the front.
#[inline(always)]
pub fn register_of_pair(upper: u8x16, lower: u8x16) -> u16
    ensures { result ≡ bit_xor (later 1 (register 0 upper)) (register 0 lower) }
{
    let zero = u8x16::from_array([0; 16]);
    let moved = upper.shuffle(
        zero,
        [1, 2, 3, 4, 5, 6, 7, 8, 9, 10, 11, 12, 13, 14, 15, 16],
    );
    table_entry(16, upper.to_array()[0]) ^ register_of_vector(moved ^ lower)
}

/// The register after sixteen bytes: the first eight are folded into the last ones and the eight that
/// begin one place before them.
#[inline(always)]
fn register_of_vector(v: u8x16) -> u16
    ensures { result ≡ register 0 v }
{
    let zero = u8x16::from_array([0; 16]);
    let first = zero.shuffle(
        v,
        [8, 9, 10, 11, 12, 13, 14, 15, 16, 17, 18, 19, 20, 21, 22, 23],
    );
    let upper = folded_in(zero, FROM_8_FIRST_HIGH, FROM_8_FIRST_LOW, first);
    let lower = folded_in(v, FROM_8_SECOND_HIGH, FROM_8_SECOND_LOW, first);
    let moved = upper.shuffle(
        zero,
        [1, 2, 3, 4, 5, 6, 7, 8, 9, 10, 11, 12, 13, 14, 15, 16],
    );
    table_entry(8, upper.to_array()[8]) ^ register_of_last_eight(&(moved ^ lower).to_array())
}
