//! Bytes in parts that lie apart.

ghost use Rattle.std.specs.Prelude.{◌≡◌, ℕ, List, ◌++◌, ◌+◌, ◌-◌, ◌^◌, ◌<◌, ◌≤◌, length, take, drop};
ghost use Rattle.pi_guard.specs.Guards.{crc, guard_of, ip};
ghost use Rattle.pi_guard.specs.Stands.{Stands, kind_of};
ghost use Rattle.pi_blocks.specs.Parts.{IsInside, all_of, all_parts, bytes_of_mut, bytes_of, first_of, left_in};

use pi_guard::{GuardKind, GuardRun};

/// A part of bytes that lie apart: in C a `struct iovec`.
#[repr(C)]
#[derive(Clone, Copy)]
pub struct Part<'a> {
    /// The part's bytes.
    pub bytes: &'a [u8],
}

/// A part that may be written: in C a `struct iovec`.
#[repr(C)]
#[derive(Drop)]
pub struct PartMut<'a> {
    /// The part's bytes.
    pub bytes: &'a mut [u8],
}

/// Parts of both kinds, as they are read.
pub(crate) trait Readable {
    ghost read: { Self → List ℕ };

    /// The part's bytes.
    fn bytes(&self) -> &[u8]
        ensures { result.now ≡ read self.now };
}

impl Readable for Part<'_> {
    ghost read = { bytes_of };

    fn bytes(&self) -> &[u8] {
        self.bytes
    }
}

impl Readable for PartMut<'_> {
    ghost read = { bytes_of_mut };

    fn bytes(&self) -> &[u8] {
        self.bytes
    }
}

fn run_over(kind: GuardKind, parts: &[Part]) -> u16
    ensures { result ≡ guard_of kind (all_parts parts.now) }
{
    let mut run = GuardRun::new(kind);
    for part in parts {
        run.update(part.bytes);
    }
    run.finish()
}

/// The CRC of the parts' bytes, one part after another.
pub fn crc16v(parts: &[Part]) -> u16
    ensures { result ≡ crc (all_parts parts.now) }
{
    run_over(GuardKind::Crc, parts)
}

/// The Internet checksum of the parts' bytes, one part after another; a part may end within a word.
pub fn ip_sumv(parts: &[Part]) -> u16
    ensures { result ≡ ip (all_parts parts.now) }
{
    run_over(GuardKind::Ip, parts)
}

/// A place in parts: the number of a part, and how many of its bytes lie before.
#[derive(Clone, Copy)]
pub(crate) struct Place {
    pub(crate) part: usize,
    pub(crate) at: usize,
}

/// The place before all bytes.
pub(crate) fn front<P: Readable>(_parts: &[P]) -> Place
    ensures inside { IsInside P.read _parts.now result }
    ensures left { left_in P.read _parts.now result ≡ all_of P.read _parts.now }
{
    Place { part: 0, at: 0 }
}

fn behind(bytes: &[u8], at: usize) -> &[u8]
    requires { at ≤ length bytes.now }
    ensures rest { result.now ≡ drop at bytes.now }
    ensures fits { length bytes.now < 2 ^ 64 }
{
    &bytes[at..]
}

/// The bytes of the part from the place on.
pub(crate) fn rest_of<P: Readable>(parts: &[P], place: Place) -> &[u8]
    requires inside { IsInside P.read parts.now place }
    requires more { 0 < length (left_in P.read parts.now place) }
    ensures rest { left_in P.read parts.now place ≡ result.now ++ all_of P.read (drop (place.part + 1) parts.now) }
    ensures ends { place.at + length result.now ≡ length (first_of P.read (drop place.part parts.now)) }
    ensures there { place.part < length parts.now }
    ensures fits { place.at + length result.now < 2 ^ 64 }
{
    behind(parts[place.part].bytes(), place.at)
}

// Takes the next bytes that lie in one part, at most so many.
fn take_part<'a, P: Readable>(parts: &'a [P], place: &mut Place, wanted: usize) -> &'a [u8]
    requires inside { IsInside P.read parts.now place.old }
    requires some { 0 < wanted }
    requires enough { wanted ≤ length (left_in P.read parts.now place.old) }
    ensures taken { length result.now ≤ wanted }
    ensures bytes { result.now ≡ take (length result.now) (left_in P.read parts.now place.old) }
    ensures inside { IsInside P.read parts.now place.new }
    ensures left { left_in P.read parts.now place.new ≡ drop (length result.now) (left_in P.read parts.now place.old) }
    ensures less { wanted - length result.now + (length parts.now - place.new.part)
        < wanted + (length parts.now - place.old.part) }
{
    let rest = rest_of(parts, *place);
    if wanted < rest.len() {
        place.at += wanted;
        return &rest[..wanted];
    }
    place.part += 1;
    place.at = 0;
    rest
}

// Takes so many bytes into a run.
fn feed<P: Readable>(parts: &[P], place: &mut Place, run: &mut GuardRun, count: usize)
    requires inside { IsInside P.read parts.now place.old }
    requires enough { count ≤ length (left_in P.read parts.now place.old) }
    ensures inside { IsInside P.read parts.now place.new }
    ensures left { left_in P.read parts.now place.new ≡ drop count (left_in P.read parts.now place.old) }
    ensures kind { kind_of run.new ≡ kind_of run.old }
    ensures more { (b : List ℕ) → Stands run.old b → Stands run.new (b ++ take count (left_in P.read parts.now place.old)) }
{
    let mut wanted = count;
    while wanted > 0 {
        let bytes = take_part(parts, place, wanted);
        run.update(bytes);
        wanted -= bytes.len();
    }
}

/// Copies the next bytes of the parts, as many as there is room for.
pub(crate) fn copy_next<P: Readable>(parts: &[P], place: &mut Place, out: &mut [u8])
    requires inside { IsInside P.read parts.now place.old }
    requires enough { length out.old ≤ length (left_in P.read parts.now place.old) }
    ensures copied { out.new ≡ take (length out.old) (left_in P.read parts.now place.old) }
    ensures inside { IsInside P.read parts.now place.new }
    ensures left { left_in P.read parts.now place.new ≡ drop (length out.old) (left_in P.read parts.now place.old) }
{
    let mut done = 0;
    while done < out.len() {
        let bytes = take_part(parts, place, out.len() - done);
        out[done..done + bytes.len()].copy_from_slice(bytes);
        done += bytes.len();
    }
}

/// Goes past so many bytes, which may be more than an address space has, as parts may share memory.
pub(crate) fn skip<P: Readable>(parts: &[P], place: &mut Place, count: u128)
    requires inside { IsInside P.read parts.now place.old }
    requires enough { count ≤ length (left_in P.read parts.now place.old) }
    ensures inside { IsInside P.read parts.now place.new }
    ensures left { left_in P.read parts.now place.new ≡ drop count (left_in P.read parts.now place.old) }
{
    let mut wanted = count;
    while wanted > 0 {
        let most = wanted.min(u64::MAX as u128) as usize;
        wanted -= take_part(parts, place, most).len() as u128;
    }
}

/// The guard of the next so many bytes of the parts and of these behind them.
pub(crate) fn guard_of_next<P: Readable>(
    parts: &[P],
    place: &mut Place,
    kind: GuardKind,
    count: usize,
    behind: &[u8],
) -> u16
    requires inside { IsInside P.read parts.now place.old }
    requires enough { count ≤ length (left_in P.read parts.now place.old) }
    ensures guard { result ≡ guard_of kind (take count (left_in P.read parts.now place.old) ++ behind.now) }
    ensures inside { IsInside P.read parts.now place.new }
    ensures left { left_in P.read parts.now place.new ≡ drop count (left_in P.read parts.now place.old) }
{
    let mut run = GuardRun::new(kind);
    feed(parts, place, &mut run, count);
    run.update(behind);
    run.finish()
}
