//! The register of the CRC of 32 bits after bytes that are looked up sixteen at a time.

ghost use Rattle.std.specs.Prelude.{◌≡◌, drop, take};
ghost use Rattle.std.specs.Int.{from_le_bytes, w64};
ghost use Rattle.wide_guard.specs.Registers.{after_16, after_8, byte_step, castagnoli, register};

use crate::tables_32::table_entry;

/// The register after one more byte.
#[inline(always)]
fn after_byte(state: u32, byte: u8) -> u32
    ensures { result ≡ byte_step castagnoli state byte }
{
    let sum = state ^ u32::from(byte);
    (sum >> 8) ^ table_entry(0, (sum & 0xff) as u8)
}

// What these eight bytes, the lowest first, leave by themselves.
#[inline(always)]
fn of_near_word(word: u64) -> u32
    ensures { result ≡ after_8 castagnoli word }
{
    let b = word.to_le_bytes();
    let low = table_entry(3, b[4])
        ^ (table_entry(2, b[5]) ^ (table_entry(1, b[6]) ^ table_entry(0, b[7])));
    table_entry(7, b[0])
        ^ (table_entry(6, b[1]) ^ (table_entry(5, b[2]) ^ (table_entry(4, b[3]) ^ low)))
}

// What these eight bytes leave with eight bytes of zeros behind them.
#[inline(always)]
fn of_far_word(word: u64) -> u32
    ensures { result ≡ after_16 castagnoli word }
{
    let b = word.to_le_bytes();
    let low = table_entry(11, b[4])
        ^ (table_entry(10, b[5]) ^ (table_entry(9, b[6]) ^ table_entry(8, b[7])));
    table_entry(15, b[0])
        ^ (table_entry(14, b[1]) ^ (table_entry(13, b[2]) ^ (table_entry(12, b[3]) ^ low)))
}

// The first eight bytes, and the last, the lowest first.
#[inline(always)]
fn first_word(b: &[u8; 16]) -> u64
    ensures { result ≡ from_le_bytes w64 (take 8 b.now) }
{
    let (first, _) = b.split_first_chunk::<8>().unwrap();
    u64::from_le_bytes(*first)
}

#[inline(always)]
fn last_word(b: &[u8; 16]) -> u64
    ensures { result ≡ from_le_bytes w64 (drop 8 b.now) }
{
    let (_, last) = b.split_last_chunk::<8>().unwrap();
    u64::from_le_bytes(*last)
}

/// The register after eight bytes more.
#[inline(always)]
fn after_eight(state: u32, b: &[u8; 8]) -> u32
    ensures { result ≡ register castagnoli state b.now }
{
    of_near_word(u64::from_le_bytes(*b) ^ u64::from(state))
}

/// The register after sixteen bytes more.
#[inline(always)]
fn after_sixteen(state: u32, b: &[u8; 16]) -> u32
    ensures { result ≡ register castagnoli state b.now }
{
    // The register comes in last, so that only eight look-ups wait for it.
    let near = of_near_word(last_word(b));
    of_far_word(first_word(b) ^ u64::from(state)) ^ near
}

// The register after these bytes, one at a time.
#[inline(always)]
fn after_few(start: u32, part: &[u8]) -> u32
    ensures { result ≡ register castagnoli start part.now }
{
    let mut state = start;
    for byte in part {
        state = after_byte(state, *byte);
    }
    state
}

/// The register after these bytes, sixteen at once as often as they have them.
pub fn reflected_after(start: u32, part: &[u8]) -> u32
    ensures { result ≡ register castagnoli start part.now }
{
    let mut state = start;
    let mut rest = part;
    while let Some((b, more)) = rest.split_first_chunk::<16>() {
        state = after_sixteen(state, b);
        rest = more;
    }
    let Some((b, more)) = rest.split_first_chunk::<8>() else {
        return after_few(state, rest);
    };
    after_few(after_eight(state, b), more)
}
