//! Sums of words of two bytes for the Internet checksum.
//!
//! Bytes are summed as words whose lower byte comes first, as the processor loads them. To a sum of words
//! whose higher byte comes first they add 256 times as much, with the carries added back; and where that
//! sum's last word wants its lower byte, just as much.

ghost use Rattle.std.specs.Prelude.{◌≡◌, ◌+◌, ◌*◌, ◌<◌, ◌≤◌, ◌^◌, ℕ, length};
ghost use Rattle.pi_guard.specs.Words.{SumTo, folded, half_open_after, little_sum, weight_of};

use std::simd::prelude::*;

/// So many bytes are summed before the carries are added back: their words come to less than 2^32.
const CHUNK: usize = 65_536;

/// The sum with its carries added back, until it fits 16 bits.
#[inline(always)]
fn fold(sum: u64) -> u16
    ensures { result ≡ folded sum }
{
    if sum == 0 {
        0
    } else {
        ((sum - 1) % 65535 + 1) as u16
    }
}

/// Sums of numbers of four bytes, a lane for each place: modulo 2^32, and of their upper halves. Of the lower
/// halves no sum is kept, since it is the difference of the two.
#[derive(Clone, Copy)]
struct Sums {
    whole: u32x8,
    upper: u32x8,
}

/// The sums with the 32 bytes added.
#[inline(always)]
fn sums_with(sums: Sums, bytes: u8x32) -> Sums
    ensures { (s : ℕ) → SumTo s sums → s + little_sum bytes < 2 ^ 32 → SumTo (s + little_sum bytes) result }
{
    let numbers = u32x8::from_le_bytes(bytes);
    Sums {
        whole: sums.whole + numbers,
        upper: sums.upper + (numbers >> u32x8::splat(16)),
    }
}

/// The sum of all words.
#[inline(always)]
fn sum_of(sums: Sums) -> u32
    ensures { (s : ℕ) → SumTo s sums → s < 2 ^ 32 → result ≡ s }
{
    let lower = sums.whole - (sums.upper << u32x8::splat(16));
    (lower + sums.upper).reduce_sum()
}

/// The sum of the words, one by one.
fn sum_by_words(part: &[u8]) -> u32
    requires { length part.now ≤ 65536 }
    ensures { result ≡ little_sum part.now }
{
    let mut sum = 0;
    let mut rest = part;
    while let Some((pair, more)) = rest.split_first_chunk::<2>() {
        sum += u32::from(u16::from_le_bytes(*pair));
        rest = more;
    }
    if let [last] = rest {
        sum += u32::from(*last);
    }
    sum
}

/// The sum of the words of at most 64 KiB.
fn sum_of_chunk(part: &[u8]) -> u32
    requires { length part.now ≤ 65536 }
    ensures { result ≡ little_sum part.now }
{
    let mut sums = Sums {
        whole: u32x8::splat(0),
        upper: u32x8::splat(0),
    };
    let mut rest = part;
    while let Some((block, more)) = rest.split_first_chunk::<32>() {
        sums = sums_with(sums, u8x32::from_array(*block));
        rest = more;
    }
    sum_of(sums) + sum_by_words(rest)
}

/// What the next byte counts, as the lower byte of an open word or the higher one of a new word.
fn weight(half_open: bool) -> u64
    ensures { result ≡ weight_of half_open }
{
    if half_open { 1 } else { 256 }
}

/// The folded sum after these bytes more.
pub fn sum_after(start: u16, half_open: bool, part: &[u8]) -> u16
    ensures { result ≡ folded (start + weight_of half_open * little_sum part.now) }
{
    let weight = weight(half_open);
    let mut sum = start;
    let mut rest = part;
    while !rest.is_empty() {
        let (chunk, more) = rest.split_at(rest.len().min(CHUNK));
        sum = fold(u64::from(sum) + weight * u64::from(sum_of_chunk(chunk)));
        rest = more;
    }
    sum
}

/// Whether the sum's last word wants its lower byte after these bytes more.
pub fn is_half_open_after(half_open: bool, part: &[u8]) -> bool
    ensures { result ≡ half_open_after half_open part.now }
{
    half_open != (part.len() % 2 == 1)
}
