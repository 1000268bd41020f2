//! The register after bytes that are looked up one by one or sixteen at a time.

ghost use Rattle.std.specs.Prelude.{◌≡◌, ◌<◌, length, drop};
ghost use Rattle.pi_guard.specs.Register.{byte_step, register};

use crate::byte_tables::table_entry;

/// The register after one more byte.
#[inline(always)]
pub fn after_byte(state: u16, byte: u8) -> u16
    ensures { result ≡ byte_step state byte }
{
    ((state & 0xff) << 8) ^ table_entry(0, (state >> 8) as u8 ^ byte)
}

/// The last eight bytes, by one load: it is the loads that bound the look-ups.
#[inline(always)]
fn last_eight(b: &[u8; 16]) -> [u8; 8]
    ensures { result ≡ drop 8 b.now }
{
    let (_, last) = b.split_last_chunk::<8>().unwrap();
    u64::from_le_bytes(*last).to_le_bytes()
}

/// The register after the last eight of sixteen bytes alone.
#[inline(always)]
pub fn register_of_last_eight(b: &[u8; 16]) -> u16
    ensures { result ≡ register 0 (drop 8 b.now) }
{
    let last = last_eight(b);
    let low = table_entry(3, last[4])
        ^ (table_entry(2, last[5]) ^ (table_entry(1, last[6]) ^ table_entry(0, last[7])));
    table_entry(7, last[0])
        ^ (table_entry(6, last[1]) ^ (table_entry(5, last[2]) ^ (table_entry(4, last[3]) ^ low)))
}

/// The register after sixteen bytes more.
#[inline(always)]
pub fn after_sixteen(state: u16, b: &[u8; 16]) -> u16
    ensures { result ≡ register state b.now }
{
    // The register comes in last, so that no look-up waits for it but two.
    let last = last_eight(b);
    let low = table_entry(3, last[4])
        ^ (table_entry(2, last[5]) ^ (table_entry(1, last[6]) ^ table_entry(0, last[7])));
    let middle = table_entry(7, last[0])
        ^ (table_entry(6, last[1]) ^ (table_entry(5, last[2]) ^ (table_entry(4, last[3]) ^ low)));
    let high = table_entry(11, b[4])
        ^ (table_entry(10, b[5]) ^ (table_entry(9, b[6]) ^ (table_entry(8, b[7]) ^ middle)));
    let others = table_entry(13, b[2]) ^ (table_entry(12, b[3]) ^ high);
    let second = table_entry(14, (state & 0xff) as u8 ^ b[1]);
    let first = table_entry(15, (state >> 8) as u8 ^ b[0]);
    first ^ (second ^ others)
}

/// The register after four bytes more.
#[inline(always)]
fn after_four(state: u16, b: &[u8; 4]) -> u16
    ensures { result ≡ register state b.now }
{
    let others = table_entry(1, b[2]) ^ table_entry(0, b[3]);
    let second = table_entry(2, (state & 0xff) as u8 ^ b[1]);
    let first = table_entry(3, (state >> 8) as u8 ^ b[0]);
    first ^ (second ^ others)
}

/// The register after at most three bytes more.
#[inline(always)]
fn after_few(state: u16, part: &[u8]) -> u16
    requires { length part.now < 4 }
    ensures { result ≡ register state part.now }
{
    match part {
        [a, b, c] => after_byte(after_byte(after_byte(state, *a), *b), *c),
        [a, b] => after_byte(after_byte(state, *a), *b),
        [a] => after_byte(state, *a),
        _ => state,
    }
}

/// The register after these bytes, four at once as often as they have them.
#[inline(always)]
pub fn after_fours(start: u16, part: &[u8]) -> u16
    ensures { result ≡ register start part.now }
{
    let mut state = start;
    let mut rest = part;
    while let Some((b, more)) = rest.split_first_chunk::<4>() {
        state = after_four(state, b);
        rest = more;
    }
    after_few(state, rest)
}

/// The register after these bytes, sixteen at once as often as they have them.
pub fn after_sixteens(start: u16, part: &[u8]) -> u16
    ensures { result ≡ register start part.now }
{
    let mut state = start;
    let mut rest = part;
    while let Some((b, more)) = rest.split_first_chunk::<16>() {
        state = after_sixteen(state, b);
        rest = more;
    }
    after_fours(state, rest)
}

/// The register after these bytes, of which there are fewer than 32: by sixteen once, and no loop by sixteen.
#[inline(always)]
pub fn after_bytes(start: u16, part: &[u8]) -> u16
    ensures { result ≡ register start part.now }
{
    let Some((b, more)) = part.split_first_chunk::<16>() else {
        return after_fours(start, part);
    };
    after_fours(after_sixteen(start, b), more)
}
