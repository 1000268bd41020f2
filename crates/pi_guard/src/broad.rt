//! Division down to 256 bytes, in vectors of thirty-two.
//!
//! The square again: a byte of the dividend is taken away if it is added 144, 224 and 252 places on.
//! 224 bytes are seven whole vectors, and 144 are four and a half, so a step puts two vectors together
//! from others: by half a vector, and that one by four bytes more, which is carried until it is due.

ghost use Rattle.std.specs.Prelude.{◌≡◌, ℕ, ◌+◌, ◌≤◌, List, ◌++◌, length, drop, take};
ghost use Rattle.std.specs.Simd.Lanes.{chunk};
ghost use Rattle.pi_guard.specs.Register.{register};
ghost use Rattle.pi_guard.specs.Broad.{aligned_by, Owes, broad_owed_next, broad_register};

use std::simd::prelude::*;

/// 256 bytes, a window as `Bytes64` is.
#[derive(Clone, Copy)]
pub struct Bytes256 {
    pub a: u8x32,
    pub b: u8x32,
    pub c: u8x32,
    pub d: u8x32,
    pub e: u8x32,
    pub f: u8x32,
    pub g: u8x32,
    pub h: u8x32,
}

/// A trail of 256 bytes, of which the first 32 are left out, and what each of the first three vectors owes 252
/// places on, with the one behind it.
#[derive(Clone, Copy)]
pub struct Trail {
    pub b: u8x32,
    pub c: u8x32,
    pub d: u8x32,
    pub e: u8x32,
    pub f: u8x32,
    pub g: u8x32,
    pub h: u8x32,
    pub far_a: u8x32,
    pub far_b: u8x32,
    pub far_c: u8x32,
}

/// The first thirty-two bytes, with the register added to their front.
#[inline(always)]
fn with_register(start: u16, first: u8x32) -> u8x32
    ensures sum { (rest : List ℕ) → register 0 (result ++ rest) ≡ register start (first ++ rest) }
    ensures rest { (length result ≡ 32) × (drop 2 result ≡ drop 2 first) }
{
    let high = (start >> 8) as u8;
    let low = (start & 0xff) as u8;
    let front = u8x32::from_array([
        high, low, 0, 0, 0, 0, 0, 0, 0, 0, 0, 0, 0, 0, 0, 0, 0, 0, 0, 0, 0, 0, 0, 0, 0, 0, 0, 0, 0,
        0, 0, 0,
    ]);
    front ^ first
}

/// The 32 bytes from the middle of the first vector on.
#[inline(always)]
pub fn half_on(a: u8x32, b: u8x32) -> u8x32
    ensures { result ≡ chunk 16 32 (a ++ b) }
{
    a.shuffle(
        b,
        [
            16, 17, 18, 19, 20, 21, 22, 23, 24, 25, 26, 27, 28, 29, 30, 31, 32, 33, 34, 35, 36, 37,
            38, 39, 40, 41, 42, 43, 44, 45, 46, 47,
        ],
    )
}

/// The halves of two vectors, each moved on by four bytes.
#[inline(always)]
fn by_four(u: u8x32, v: u8x32) -> u8x32
    ensures { result ≡ aligned_by 4 12 (u ++ v) }
{
    u.shuffle(
        v,
        [
            4, 5, 6, 7, 8, 9, 10, 11, 12, 13, 14, 15, 32, 33, 34, 35, 20, 21, 22, 23, 24, 25, 26,
            27, 28, 29, 30, 31, 48, 49, 50, 51,
        ],
    )
}

/// The 32 bytes from the fifth one of the first vector on.
#[inline(always)]
fn far_on(a: u8x32, b: u8x32) -> u8x32
    ensures { result ≡ chunk 4 32 (a ++ b) }
{
    by_four(a, half_on(a, b))
}

/// What the next 32 bytes are owed, by the second, fourth and fifth vector and what is due 252 places on.
#[inline(always)]
fn owed_to(far: u8x32, b: u8x32, d: u8x32, e: u8x32) -> u8x32
    ensures { result ≡ broad_owed_next far b d e }
{
    half_on(d, e) ^ (b ^ far)
}

/// The trail after 32 bytes more.
#[inline(always)]
fn next_trail(t: Trail, m: u8x32) -> Trail
    ensures { (r : ℕ) → Owes r t → Owes (register r m) result }
{
    Trail {
        b: t.c,
        c: t.d,
        d: t.e,
        e: t.f,
        f: t.g,
        g: t.h,
        h: m ^ owed_to(t.far_a, t.b, t.d, t.e),
        far_a: t.far_b,
        far_b: t.far_c,
        far_c: far_on(t.d, t.e),
    }
}

/// The trail after the 32 bytes of the part that begin at `at`.
#[inline(always)]
fn trail_after(t: Trail, part: &[u8], at: usize) -> Trail
    requires { at + 32 ≤ length part.now }
    ensures { (r : ℕ) → Owes (register r (take at part.now)) t
        → Owes (register r (take (at + 32) part.now)) result }
{
    next_trail(t, u8x32::from_slice(&part[at..]))
}

/// The trail after the 256 bytes of the part that begin at `at`.
#[inline(always)]
pub fn trail_after_all(t: Trail, part: &[u8], at: usize) -> Trail
    requires { at + 256 ≤ length part.now }
    ensures { (r : ℕ) → Owes (register r (take at part.now)) t
        → Owes (register r (take (at + 256) part.now)) result }
{
    let mut t = t;
    t = trail_after(t, part, at);
    t = trail_after(t, part, at + 32);
    t = trail_after(t, part, at + 64);
    t = trail_after(t, part, at + 96);
    t = trail_after(t, part, at + 128);
    t = trail_after(t, part, at + 160);
    t = trail_after(t, part, at + 192);
    t = trail_after(t, part, at + 224);
    t
}

/// The trail of the first 256 bytes, with the register added to their front. What the first of them owe is read at the
/// places where it is due.
#[inline(always)]
pub fn first_trail(start: u16, part: &[u8]) -> Trail
    requires { 256 ≤ length part.now }
    ensures { Owes (register start (take 256 part.now)) result }
{
    let zero = u8x32::from_array([0; 32]);
    let a = with_register(start, u8x32::from_slice(part));
    Trail {
        b: u8x32::from_slice(&part[32..]),
        c: u8x32::from_slice(&part[64..]),
        d: u8x32::from_slice(&part[96..]),
        e: u8x32::from_slice(&part[128..]) ^ half_on(zero, a),
        f: u8x32::from_slice(&part[160..]) ^ u8x32::from_slice(&part[16..]),
        g: u8x32::from_slice(&part[192..]) ^ u8x32::from_slice(&part[48..]),
        h: u8x32::from_slice(&part[224..])
            ^ (u8x32::from_slice(&part[80..]) ^ (a ^ far_on(zero, a))),
        far_a: u8x32::from_slice(&part[4..]),
        far_b: u8x32::from_slice(&part[36..]),
        far_c: u8x32::from_slice(&part[68..]),
    }
}

/// Pays all that a trail owes into the 256 bytes of the part that begin at `at`.
#[inline(always)]
pub fn last_window(t: Trail, part: &[u8], at: usize) -> Bytes256
    requires { at + 256 ≤ length part.now }
    ensures { (r : ℕ) → Owes (register r (take at part.now)) t
        → broad_register result ≡ register r (take (at + 256) part.now) }
{
    let zero = u8x32::from_array([0; 32]);
    Bytes256 {
        a: u8x32::from_slice(&part[at..]) ^ owed_to(t.far_a, t.b, t.d, t.e),
        b: u8x32::from_slice(&part[at + 32..]) ^ owed_to(t.far_b, t.c, t.e, t.f),
        c: u8x32::from_slice(&part[at + 64..]) ^ owed_to(t.far_c, t.d, t.f, t.g),
        d: u8x32::from_slice(&part[at + 96..]) ^ owed_to(far_on(t.d, t.e), t.e, t.g, t.h),
        e: u8x32::from_slice(&part[at + 128..]) ^ owed_to(far_on(t.e, t.f), t.f, t.h, zero),
        f: u8x32::from_slice(&part[at + 160..]) ^ owed_to(far_on(t.f, t.g), t.g, zero, zero),
        g: u8x32::from_slice(&part[at + 192..]) ^ owed_to(far_on(t.g, t.h), t.h, zero, zero),
        h: u8x32::from_slice(&part[at + 224..]) ^ owed_to(far_on(t.h, zero), zero, zero, zero),
    }
}
