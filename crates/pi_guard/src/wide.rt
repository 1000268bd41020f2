//! Division down to 128 bytes, in vectors of sixteen.
//!
//! The square of the multiple that divides down to 64 bytes: a byte of the dividend is taken away if it
//! is added 72, 112 and 126 places on. 112 bytes are seven whole vectors, so a step needs one vector
//! less put together from two.

ghost use Rattle.std.specs.Prelude.{◌≡◌, ℕ, ◌+◌, ◌≤◌, ◌++◌, length, take};
ghost use Rattle.pi_guard.specs.Register.{register};
ghost use Rattle.pi_guard.specs.Windows.{wide_register, window_register};
ghost use Rattle.pi_guard.specs.Trails.{after_128, wide_owed, wide_owed_by, wide_owed_next};

use crate::narrow::{self, Bytes64, trail_of, with_register};
use std::simd::prelude::*;

/// 128 bytes, a window or a trail as `Bytes64` is.
#[derive(Clone, Copy)]
pub struct Bytes128 {
    pub a: u8x16,
    pub b: u8x16,
    pub c: u8x16,
    pub d: u8x16,
    pub e: u8x16,
    pub f: u8x16,
    pub g: u8x16,
    pub h: u8x16,
}

/// What the next sixteen bytes are owed, by the first, second, fourth and fifth vector.
#[inline(always)]
fn owed_to(a: u8x16, b: u8x16, d: u8x16, e: u8x16) -> u8x16
    ensures { result ≡ wide_owed_next a b d e }
{
    let near = d.shuffle(
        e,
        [8, 9, 10, 11, 12, 13, 14, 15, 16, 17, 18, 19, 20, 21, 22, 23],
    );
    let far = a.shuffle(b, [2, 3, 4, 5, 6, 7, 8, 9, 10, 11, 12, 13, 14, 15, 16, 17]);
    near ^ (b ^ far)
}

/// The trail after sixteen bytes more.
#[inline(always)]
fn next_trail(
    a: u8x16,
    b: u8x16,
    c: u8x16,
    d: u8x16,
    e: u8x16,
    f: u8x16,
    g: u8x16,
    h: u8x16,
    m: u8x16,
) -> Bytes128
    ensures { (r : ℕ) → wide_owed_by (a ++ (b ++ (c ++ (d ++ (e ++ (f ++ (g ++ h))))))) ≡ after_128 r
        → wide_owed result ≡ after_128 (register r m) }
{
    Bytes128 {
        a: b,
        b: c,
        c: d,
        d: e,
        e: f,
        f: g,
        g: h,
        h: m ^ owed_to(a, b, d, e),
    }
}

/// The trail after the sixteen bytes of the part that begin at `at`.
#[inline(always)]
fn trail_after(trail: Bytes128, part: &[u8], at: usize) -> Bytes128
    requires { at + 16 ≤ length part.now }
    ensures { (r : ℕ) → wide_owed trail ≡ after_128 (register r (take at part.now))
        → wide_owed result ≡ after_128 (register r (take (at + 16) part.now)) }
{
    next_trail(
        trail.a,
        trail.b,
        trail.c,
        trail.d,
        trail.e,
        trail.f,
        trail.g,
        trail.h,
        u8x16::from_slice(&part[at..]),
    )
}

/// The trail after the 128 bytes of the part that begin at `at`.
#[inline(always)]
fn trail_after_all(trail: Bytes128, part: &[u8], at: usize) -> Bytes128
    requires { at + 128 ≤ length part.now }
    ensures { (r : ℕ) → wide_owed trail ≡ after_128 (register r (take at part.now))
        → wide_owed result ≡ after_128 (register r (take (at + 128) part.now)) }
{
    let mut trail = trail;
    trail = trail_after(trail, part, at);
    trail = trail_after(trail, part, at + 16);
    trail = trail_after(trail, part, at + 32);
    trail = trail_after(trail, part, at + 48);
    trail = trail_after(trail, part, at + 64);
    trail = trail_after(trail, part, at + 80);
    trail = trail_after(trail, part, at + 96);
    trail = trail_after(trail, part, at + 112);
    trail
}

/// The trail of the first 128 bytes, with the register added to their front.
#[inline(always)]
fn first_trail(start: u16, part: &[u8]) -> Bytes128
    requires { 128 ≤ length part.now }
    ensures { wide_owed result ≡ after_128 (register start (take 128 part.now)) }
{
    let zero = u8x16::from_array([0; 16]);
    let first = with_register(start, u8x16::from_slice(part));
    let mut trail = next_trail(zero, zero, zero, zero, zero, zero, zero, zero, first);
    trail = trail_after(trail, part, 16);
    trail = trail_after(trail, part, 32);
    trail = trail_after(trail, part, 48);
    trail = trail_after(trail, part, 64);
    trail = trail_after(trail, part, 80);
    trail = trail_after(trail, part, 96);
    trail = trail_after(trail, part, 112);
    trail
}

/// Pays all that a trail owes into the 128 bytes that come next.
#[inline(always)]
fn paid_window(
    a: u8x16,
    b: u8x16,
    c: u8x16,
    d: u8x16,
    e: u8x16,
    f: u8x16,
    g: u8x16,
    h: u8x16,
    m1: u8x16,
    m2: u8x16,
    m3: u8x16,
    m4: u8x16,
    m5: u8x16,
    m6: u8x16,
    m7: u8x16,
    m8: u8x16,
) -> Bytes128
    ensures { (r : ℕ) → wide_owed_by (a ++ (b ++ (c ++ (d ++ (e ++ (f ++ (g ++ h))))))) ≡ after_128 r
        → wide_register result ≡ register r (m1 ++ (m2 ++ (m3 ++ (m4 ++ (m5 ++ (m6 ++ (m7 ++ m8))))))) }
{
    let zero = u8x16::from_array([0; 16]);
    Bytes128 {
        a: m1 ^ owed_to(a, b, d, e),
        b: m2 ^ owed_to(b, c, e, f),
        c: m3 ^ owed_to(c, d, f, g),
        d: m4 ^ owed_to(d, e, g, h),
        e: m5 ^ owed_to(e, f, h, zero),
        f: m6 ^ owed_to(f, g, zero, zero),
        g: m7 ^ owed_to(g, h, zero, zero),
        h: m8 ^ owed_to(h, zero, zero, zero),
    }
}

/// The window of the 128 bytes of the part that begin at `at`.
#[inline(always)]
fn last_window(trail: Bytes128, part: &[u8], at: usize) -> Bytes128
    requires { at + 128 ≤ length part.now }
    ensures { (r : ℕ) → wide_owed trail ≡ after_128 (register r (take at part.now))
        → wide_register result ≡ register r (take (at + 128) part.now) }
{
    paid_window(
        trail.a,
        trail.b,
        trail.c,
        trail.d,
        trail.e,
        trail.f,
        trail.g,
        trail.h,
        u8x16::from_slice(&part[at..]),
        u8x16::from_slice(&part[at + 16..]),
        u8x16::from_slice(&part[at + 32..]),
        u8x16::from_slice(&part[at + 48..]),
        u8x16::from_slice(&part[at + 64..]),
        u8x16::from_slice(&part[at + 80..]),
        u8x16::from_slice(&part[at + 96..]),
        u8x16::from_slice(&part[at + 112..]),
    )
}

/// Divides 128 bytes down to 64.
#[inline(always)]
fn narrowed(
    a: u8x16,
    b: u8x16,
    c: u8x16,
    d: u8x16,
    e: u8x16,
    f: u8x16,
    g: u8x16,
    h: u8x16,
) -> Bytes64
    ensures { window_register result ≡ register 0 (a ++ (b ++ (c ++ (d ++ (e ++ (f ++ (g ++ h))))))) }
{
    let trail = trail_of(a, b, c, d);
    narrow::paid_window(trail.a, trail.b, trail.c, trail.d, e, f, g, h)
}

/// The window of all but the last 0 to 127 bytes, and how many bytes it stands for.
#[inline(always)]
pub fn whole_window(start: u16, part: &[u8]) -> (Bytes64, usize)
    requires { 256 ≤ length part.now }
    ensures { (result.1 ≤ length part.now)
        × (window_register result.0 ≡ register start (take result.1 part.now)) }
{
    let mut trail = first_trail(start, part);
    let mut at = 128;
    while part.len() - at >= 256 {
        trail = trail_after_all(trail, part, at);
        at += 128;
    }
    let last = last_window(trail, part, at);
    (
        narrowed(
            last.a, last.b, last.c, last.d, last.e, last.f, last.g, last.h,
        ),
        at + 128,
    )
}
