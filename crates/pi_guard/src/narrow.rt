//! Division down to 64 bytes, in vectors of sixteen.
//!
//! A multiple of the polynomial has four terms that fall on whole bytes, so a byte of the dividend is
//! taken away if it is added 36, 56 and 63 places on. That divides down to 64 bytes by xors of whole
//! vectors alone.

ghost use Rattle.std.specs.Prelude.{◌≡◌, ℕ, ◌+◌, ◌≤◌, List, ◌++◌, length, take};
ghost use Rattle.pi_guard.specs.Register.{register};
ghost use Rattle.pi_guard.specs.Windows.{window_register};
ghost use Rattle.pi_guard.specs.Trails.{after_64, owed, owed_by, owed_next};

use std::simd::prelude::*;

/// Sixty-four bytes: a window, which leaves the register that all bytes up to its end leave, or a
/// trail, the last bytes of the quotient, which still owe what each adds to later places.
#[derive(Clone, Copy)]
pub struct Bytes64 {
    pub a: u8x16,
    pub b: u8x16,
    pub c: u8x16,
    pub d: u8x16,
}

/// The first sixteen bytes, with the register added to their front.
#[inline(always)]
pub fn with_register(start: u16, first: u8x16) -> u8x16
    ensures { (rest : List ℕ) → register 0 (result ++ rest) ≡ register start (first ++ rest) }
{
    let high = (start >> 8) as u8;
    let low = (start & 0xff) as u8;
    u8x16::from_array([high, low, 0, 0, 0, 0, 0, 0, 0, 0, 0, 0, 0, 0, 0, 0]) ^ first
}

/// What the next sixteen bytes are owed.
#[inline(always)]
fn owed_to(a: u8x16, b: u8x16, c: u8x16) -> u8x16
    ensures { result ≡ owed_next a b c }
{
    let near = b.shuffle(
        c,
        [
            12, 13, 14, 15, 16, 17, 18, 19, 20, 21, 22, 23, 24, 25, 26, 27,
        ],
    );
    let middle = a.shuffle(
        b,
        [8, 9, 10, 11, 12, 13, 14, 15, 16, 17, 18, 19, 20, 21, 22, 23],
    );
    let far = a.shuffle(b, [1, 2, 3, 4, 5, 6, 7, 8, 9, 10, 11, 12, 13, 14, 15, 16]);
    near ^ (middle ^ far)
}

/// The trail after sixteen bytes more.
#[inline(always)]
fn next_trail(a: u8x16, b: u8x16, c: u8x16, d: u8x16, m: u8x16) -> Bytes64
    ensures { (r : ℕ) → owed_by (a ++ (b ++ (c ++ d))) ≡ after_64 r
        → owed result ≡ after_64 (register r m) }
{
    Bytes64 {
        a: b,
        b: c,
        c: d,
        d: m ^ owed_to(a, b, c),
    }
}

/// The trail of these 64 bytes.
#[inline(always)]
pub fn trail_of(a: u8x16, b: u8x16, c: u8x16, d: u8x16) -> Bytes64
    ensures { owed result ≡ after_64 (register 0 (a ++ (b ++ (c ++ d)))) }
{
    let zero = u8x16::from_array([0; 16]);
    let one = next_trail(zero, zero, zero, zero, a);
    let two = next_trail(one.a, one.b, one.c, one.d, b);
    let three = next_trail(two.a, two.b, two.c, two.d, c);
    next_trail(three.a, three.b, three.c, three.d, d)
}

/// The trail after the sixteen bytes of the part that begin at `at`.
#[inline(always)]
fn trail_after(trail: Bytes64, part: &[u8], at: usize) -> Bytes64
    requires { at + 16 ≤ length part.now }
    ensures { (r : ℕ) → owed trail ≡ after_64 (register r (take at part.now))
        → owed result ≡ after_64 (register r (take (at + 16) part.now)) }
{
    next_trail(
        trail.a,
        trail.b,
        trail.c,
        trail.d,
        u8x16::from_slice(&part[at..]),
    )
}

/// Pays all that a trail owes into the 64 bytes that come next.
#[inline(always)]
pub fn paid_window(
    a: u8x16,
    b: u8x16,
    c: u8x16,
    d: u8x16,
    m: u8x16,
    n: u8x16,
    o: u8x16,
    p: u8x16,
) -> Bytes64
    ensures { (r : ℕ) → owed_by (a ++ (b ++ (c ++ d))) ≡ after_64 r
        → window_register result ≡ register r (m ++ (n ++ (o ++ p))) }
{
    let zero = u8x16::from_array([0; 16]);
    Bytes64 {
        a: m ^ owed_to(a, b, c),
        b: n ^ owed_to(b, c, d),
        c: o ^ owed_to(c, d, zero),
        d: p ^ owed_to(d, zero, zero),
    }
}

/// The first 64 bytes, with the register added to their front.
#[inline(always)]
fn first_window(start: u16, part: &[u8]) -> Bytes64
    requires { 64 ≤ length part.now }
    ensures { window_register result ≡ register start (take 64 part.now) }
{
    Bytes64 {
        a: with_register(start, u8x16::from_slice(part)),
        b: u8x16::from_slice(&part[16..]),
        c: u8x16::from_slice(&part[32..]),
        d: u8x16::from_slice(&part[48..]),
    }
}

/// The trail of the first 64 bytes, with the register added to their front.
#[inline(always)]
fn first_trail(start: u16, part: &[u8]) -> Bytes64
    requires { 64 ≤ length part.now }
    ensures { owed result ≡ after_64 (register start (take 64 part.now)) }
{
    let first = first_window(start, part);
    trail_of(first.a, first.b, first.c, first.d)
}

/// The window of the 64 bytes of the part that begin at `at`.
#[inline(always)]
fn last_window(trail: Bytes64, part: &[u8], at: usize) -> Bytes64
    requires { at + 64 ≤ length part.now }
    ensures { (r : ℕ) → owed trail ≡ after_64 (register r (take at part.now))
        → window_register result ≡ register r (take (at + 64) part.now) }
{
    paid_window(
        trail.a,
        trail.b,
        trail.c,
        trail.d,
        u8x16::from_slice(&part[at..]),
        u8x16::from_slice(&part[at + 16..]),
        u8x16::from_slice(&part[at + 32..]),
        u8x16::from_slice(&part[at + 48..]),
    )
}

/// The window of all but the last 0 to 63 bytes, and how many bytes it stands for.
#[inline(always)]
pub fn whole_window(start: u16, part: &[u8]) -> (Bytes64, usize)
    requires { 64 ≤ length part.now }
    ensures { (result.1 ≤ length part.now)
        × (window_register result.0 ≡ register start (take result.1 part.now)) }
{
    if part.len() < 128 {
        return (first_window(start, part), 64);
    }
    let mut trail = first_trail(start, part);
    let mut at = 64;
    while part.len() - at >= 128 {
        trail = trail_after(trail, part, at);
        trail = trail_after(trail, part, at + 16);
        trail = trail_after(trail, part, at + 32);
        trail = trail_after(trail, part, at + 48);
        at += 64;
    }
    (last_window(trail, part, at), at + 64)
}
