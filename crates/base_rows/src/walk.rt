//! A file as a store beside a plain copy of its bytes in memory, both read and written at the same places.

ghost use Rattle.std.specs.Prelude.{◌≡◌, ◌+◌, ◌≤◌, IfOk, IsTrue, length};

use crate::names::yes_or_no;
use dix_base::{CalmStore, FileStore, Store};
use std::alloc::{AllocError, Global};
use std::{fs, io};

/// The bytes of the file: more than two of the pieces that a file is read ahead in.
const SIZE: usize = 700_000;
/// The bytes of the greatest read or write.
const MOST: usize = 5_000;

/// Where a walk is.
#[derive(Clone, Copy)]
struct Place {
    /// A number from which the next step follows.
    state: u64,
    /// Where the last read ended.
    next: usize,
}

/// Two words of an answer.
fn two_words(alloc: Global, first: &str, second: &str) -> io::Result<String> {
    Ok(format!(in alloc; "{first} {second}")?)
}

/// Whether both give the same bytes.
fn reads_alike(
    file: &mut FileStore,
    plain: &mut CalmStore,
    at: u64,
    room: &mut [u8; 2 * MOST],
    n: usize,
) -> bool
    requires count { n ≤ 5000 }
    requires inside { at + n ≤ file.old.len }
    requires copied { at + n ≤ length plain.old.bytes }
    ensures file { file.new.len ≡ file.old.len }
    ensures plain { length plain.new.bytes ≡ length plain.old.bytes }
{
    let (one, other) = room.split_at_mut(MOST);
    let came = file.read_at(at, &mut one[..n]).is_ok()
        && plain.read_at(at, &mut other[..n]).is_ok();
    came && one[..n] == other[..n]
}

/// Whether both took the same bytes.
fn writes_alike(file: &mut FileStore, plain: &mut CalmStore, at: u64, piece: &[u8]) -> bool
    requires inside { at + length piece.now ≤ file.old.len }
    requires copied { at + length piece.now ≤ length plain.old.bytes }
    ensures file { file.new.len ≡ file.old.len }
    ensures plain { length plain.new.bytes ≡ length plain.old.bytes }
{
    file.write_at(at, piece).is_ok() && plain.write_at(at, piece).is_ok()
}

/// The next number of a sequence that looks random.
fn stirred(state: u64) -> u64 {
    state
        .wrapping_mul(6_364_136_223_846_793_005)
        .wrapping_add(1_442_695_040_888_963_407)
}

/// The next place of so many bytes: in five of eight steps the one where the last read ended, in one some bytes before it,
/// else any.
fn place_of(place: Place, n: usize) -> usize
    requires { n ≤ 5000 }
    ensures { result + n ≤ 700000 }
{
    let far = ((place.state >> 20) % SIZE as u64) as usize;
    let at = match place.state >> 61 {
        0..=4 => place.next,
        5 => place.next.saturating_sub(far % 3_000),
        _ => far,
    };
    at.min(SIZE - n)
}

/// One step: a read in three of four, else a write.
fn step(file: &mut FileStore, plain: &mut CalmStore, place: &mut Place) -> bool
    requires file { file.old.len ≡ 700000 }
    requires plain { length plain.old.bytes ≡ 700000 }
    ensures file { file.new.len ≡ 700000 }
    ensures plain { length plain.new.bytes ≡ 700000 }
{
    place.state = stirred(place.state);
    let n = 1 + ((place.state >> 40) % MOST as u64) as usize;
    let at = place_of(*place, n);
    if (place.state >> 33) % 4 == 0 {
        let piece = [(place.state % 251) as u8; MOST];
        return writes_alike(file, plain, at as u64, &piece[..n]);
    }
    place.next = at + n;
    reads_alike(file, plain, at as u64, &mut [0; 2 * MOST], n)
}

/// Whether each of so many steps went alike.
fn all_alike(file: &mut FileStore, plain: &mut CalmStore, seed: u64, steps: u32) -> bool
    requires file { file.old.len ≡ 700000 }
    requires plain { length plain.old.bytes ≡ 700000 }
{
    let mut place = Place {
        state: seed,
        next: 0,
    };
    for _ in 0..steps {
        if !step(file, plain, &mut place) {
            return false;
        }
    }
    true
}

fn bytes_of_file(alloc: Global) -> Result<Vec<u8>, AllocError>
    ensures { IfOk result (λ bytes. length bytes.items ≡ 700000) }
{
    vec![in alloc; 7; SIZE]
}

/// Whether the file, which has as many bytes, is opened.
fn opens(alloc: Global, store: &mut FileStore, path: &str) -> Result<bool, AllocError>
    ensures { IfOk result (λ b. IsTrue b → store.new.len ≡ 700000) }
{
    let name = String::from_str(alloc, path)?;
    Ok(match store.open(name) {
        Ok(len) => len == SIZE as u64,
        Err(_) => false,
    })
}

/// Makes a file, and answers a copy of it in memory.
fn made(rt: &HostRuntime, path: &str) -> io::Result<CalmStore>
    ensures { IfOk result (λ plain. length plain.bytes ≡ 700000) }
{
    let bytes = bytes_of_file(rt.alloc())?;
    fs::write(rt, path, bytes.as_slice())?;
    Ok(CalmStore::new(bytes))
}

/// Whether the file holds these bytes.
fn holds(rt: &HostRuntime, path: &str, bytes: &[u8]) -> io::Result<bool> {
    Ok(fs::read(rt, path)?.as_slice() == bytes)
}

/// Whether the file, of which this is a copy, is opened, and each of so many steps goes alike.
fn walked(
    alloc: Global,
    store: &mut FileStore,
    path: &str,
    plain: &mut CalmStore,
    seed: u64,
    steps: u32,
) -> Result<bool, AllocError>
    requires { length plain.old.bytes ≡ 700000 }
{
    Ok(opens(alloc, store, path)? && all_alike(store, plain, seed, steps))
}

/// Makes a file, takes so many steps beside a copy of it, and says whether each step went alike, and whether the file then
/// holds what the copy does.
pub(crate) fn walk(
    rt: HostRuntime,
    store: &mut FileStore,
    path: &str,
    seed: u64,
    steps: u32,
) -> io::Result<String> {
    let mut plain = made(&rt, path)?;
    let alike = yes_or_no(walked(rt.alloc(), store, path, &mut plain, seed, steps)?);
    let same = yes_or_no(holds(&rt, path, plain.bytes())?);
    two_words(rt.alloc(), alike, same)
}

/// Whether the hundred bytes from this one on are read.
fn is_read(store: &mut FileStore, at: u64) -> &'static str
    requires { at + 100 ≤ store.old.len }
    ensures { store.new.len ≡ store.old.len }
{
    yes_or_no(store.read_at(at, &mut [0; 100]).is_ok())
}

/// Whether reads go well of a file that was cut to half its bytes: inside the piece that was read ahead, behind that piece,
/// and where nothing is any more.
fn behind_cut(alloc: Global, store: &mut FileStore) -> Result<String, AllocError>
    requires { store.old.len ≡ 700000 }
{
    let inside = is_read(store, 200_000);
    let behind = is_read(store, 349_000);
    let nowhere = is_read(store, 400_000);
    format!(in alloc; "{inside} {behind} {nowhere}")
}

/// Cuts an opened file to half its bytes behind the store's back, and says whether reads go well: before the cut, and
/// behind it.
fn cut_short(rt: &HostRuntime, store: &mut FileStore, path: &str, half: &[u8]) -> io::Result<String>
    requires { store.old.len ≡ 700000 }
{
    let first = is_read(store, 0);
    fs::write(rt, path, half)?;
    let behind = behind_cut(rt.alloc(), store)?;
    two_words(rt.alloc(), first, behind.as_str())
}

/// Makes a file, reads its first bytes, cuts it to half its bytes, and says which reads go well.
pub(crate) fn shrunk(rt: HostRuntime, store: &mut FileStore, path: &str) -> io::Result<String> {
    let plain = made(&rt, path)?;
    if !opens(rt.alloc(), store, path)? {
        return Ok(String::from_str(rt.alloc(), "failed")?);
    }
    let (half, _) = plain.bytes().split_at(SIZE / 2);
    cut_short(&rt, store, path, half)
}
