//! Files as stores, in the folder for temporary files.

ghost use Rattle.std.specs.Prelude.{IfOk, IfSome, ◌≡◌};

use crate::names::{add, yes_or_no};
use crate::stores::step;
use crate::walk::{shrunk, walk};
use dix_base::{FileStore, Store};
use std::alloc::{AllocError, Global};
use std::fs::{OpenOptions, Permissions};
use std::os::unix::fs::PermissionsExt;
use std::{env, fs, io, process};
use test_table::{bytes_of, cut, hex_of, small};

/// A path in the folder for temporary files, of this process alone; a name that begins with / is a path itself.
fn path_of(rt: HostRuntime, name: &str) -> io::Result<String> {
    let alloc = rt.alloc();
    if name.starts_with('/') {
        return Ok(String::from_str(alloc, name)?);
    }
    let id = process::id(rt.process());
    let own = format!(in alloc; "base_rows_{name}_{id}")?;
    Ok(env::temp_dir(&rt)?.join(alloc, own.as_str())?.into_string())
}

/// Opens a file; its length, or none where that failed.
fn opens(alloc: Global, store: &mut FileStore, path: &str) -> Result<Option<u64>, AllocError>
    ensures { IfOk result (λ opened. IfSome opened (λ len. store.new.len ≡ len)) }
{
    Ok(store.open(String::from_str(alloc, path)?).ok())
}

/// The length of an opened file, and whether two of its bytes are read from byte 1 on.
fn read_of_opened(
    alloc: Global,
    store: &mut FileStore,
    opened: Option<u64>,
) -> Result<String, AllocError>
    requires { IfSome opened (λ len. store.old.len ≡ len) }
{
    match opened {
        Some(len) if len >= 3 => {
            let read = yes_or_no(store.read_at(1, &mut [0u8; 2]).is_ok());
            format!(in alloc; "{len} {read}")
        }
        _ => String::from_str(alloc, "failed"),
    }
}

/// Opens a file, makes it these bytes, which are fewer, and reads two of them from byte 1 on.
fn read_of_cut(
    rt: HostRuntime,
    store: &mut FileStore,
    path: &str,
    bytes: &str,
) -> io::Result<String> {
    let opened = opens(rt.alloc(), store, path)?;
    fs::write(&rt, path, bytes_of(rt.alloc(), bytes)?.as_slice())?;
    Ok(read_of_opened(rt.alloc(), store, opened)?)
}

/// Whether a byte is added to a file.
fn adds(alloc: Global, store: &mut FileStore) -> bool {
    store.append(alloc, b"d").is_ok()
}

/// Whether a file that is only to be read is opened, and written to exactly where the system lets it: whoever may write
/// every file writes to it all the same.
fn written_as_by_system(rt: HostRuntime, store: &mut FileStore, path: &str) -> io::Result<bool> {
    fs::set_permissions(&rt, path, Permissions::from_mode(0o444))?;
    let may_write = OpenOptions::new().write(true).open(&rt, path).is_ok();
    let opened = opens(rt.alloc(), store, path)?.is_some();
    Ok(opened && adds(rt.alloc(), store) == may_write)
}

fn told(alloc: Global, word: &str) -> io::Result<String> {
    Ok(String::from_str(alloc, word)?)
}

fn contents(rt: HostRuntime, path: &str) -> io::Result<String> {
    match fs::read(&rt, path) {
        Ok(bytes) => Ok(hex_of(rt.alloc(), &bytes)?),
        Err(_) => told(rt.alloc(), "missing"),
    }
}

/// Makes the file's content these bytes.
fn wrote(rt: HostRuntime, path: &str, bytes: &str) -> io::Result<String> {
    fs::write(&rt, path, bytes_of(rt.alloc(), bytes)?.as_slice())?;
    told(rt.alloc(), "done")
}

fn removed(rt: HostRuntime, path: &str) -> io::Result<String> {
    fs::remove_file(&rt, path)?;
    told(rt.alloc(), "done")
}

/// What comes of one call: of the store, or of the file behind its back.
fn came(
    rt: HostRuntime,
    store: &mut FileStore,
    call: &str,
    path: &str,
    words: &str,
) -> io::Result<String> {
    let alloc = rt.alloc();
    match call {
        "open" => told(alloc, yes_or_no(opens(alloc, store, path)?.is_some())),
        "contents" => contents(rt, path),
        "write" => wrote(rt, path, words),
        "cut" => read_of_cut(rt, store, path, words),
        "lock" => told(alloc, yes_or_no(written_as_by_system(rt, store, path)?)),
        "walk" => {
            let (seed, count) = cut(words);
            walk(rt, store, path, small(seed) as u64, small(count))
        }
        "shrunk" => shrunk(rt, store, path),
        "remove" => removed(rt, path),
        _ => Ok(step(alloc, store, call, String::from_str(alloc, path)?, words)?),
    }
}

/// What comes of a call, by its word, the name of a file and what it is of.
fn one(rt: HostRuntime, store: &mut FileStore, words: &str) -> io::Result<String> {
    let (call, rest) = cut(words);
    let (name, words) = cut(rest);
    let path = path_of(rt, name)?;
    came(rt, store, call, path.as_str(), words)
}

/// What comes of calls, one after another.
fn steps(rt: HostRuntime, words: &str) -> io::Result<String> {
    let mut store = FileStore::new(rt);
    let mut text = String::new(rt.alloc());
    for call in words.split(';') {
        add(&mut text, one(rt, &mut store, call)?.as_str())?;
    }
    Ok(text)
}

pub(crate) fn answer(rt: HostRuntime, words: &str) -> Result<String, AllocError> {
    match steps(rt, words) {
        Ok(text) => Ok(text),
        Err(_) => String::from_str(rt.alloc(), "the system refused"),
    }
}
