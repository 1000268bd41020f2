//! A file as a store.

ghost use Rattle.std.specs.Prelude.{◌≡◌, ◌+◌, ◌-◌, ◌^◌, min, ◌≤◌, ◌↔◌, [], false, None, IsTrue, IfOk, IsOk, IsErrOf, OnErr, OnOk, length, string_bytes};
ghost use Rattle.dix_base.specs.Forms.{after_file_fault, file_state, longer, one_more};
ghost use Rattle.dix_base.specs.Stores.{IsCounted, WasExtended, WasOpened, WasRead, WasWritten};
ghost use Rattle.dix_base.specs.Told.{Rose};

use crate::fault_plan::raise;
use crate::read_ahead::ReadAhead;
use crate::size_limit::{front_of, largest_file};
use crate::{Failed, Store, StoreFault};
use std::alloc::Global;
use std::fs::{self, File, Metadata, OpenOptions};
use std::io::{self, ErrorKind, Seek, SeekFrom};
use std::marker::Model;
use std::os::unix::fs::FileTypeExt;

/// A file. It doesn't tell its bytes.
///
/// Reads that follow one another are served from pieces that were read ahead. Writes go to the file
/// at once. Where the system limits the size of files, a write to a plain one past the limit fails.
#[derive(Drop)]
pub struct FileStore {
    rt: HostRuntime,
    file: Option<File>,
    ahead: ReadAhead,
    size: u64,
    /// Writes end here or before.
    most: u64,
    faults: u64,
    opened: u64,
    name: String,
}

impl Model for FileStore {
    ghost use Rattle.std.specs.Prelude.{is_some, string_bytes};
    ghost use Rattle.dix_base.specs.Forms.{OpenFile};

    ghost Value = { OpenFile };

    ghost view = { λ s. record { is_open = is_some s.file; len = s.size; faults = s.faults; openings = s.opened; handed = string_bytes s.name } };
}

/// Whether a file may be there that only can't be written.
fn is_for_reading(error: &io::Error) -> bool {
    matches!(
        error.kind(),
        ErrorKind::PermissionDenied | ErrorKind::ReadOnlyFilesystem
    )
}

/// Opens a file that is there, for reading alone where it may not be written.
fn reachable(rt: &HostRuntime, name: &str) -> io::Result<File> {
    match OpenOptions::new().read(true).write(true).open(rt, name) {
        Err(error) if is_for_reading(&error) => OpenOptions::new().read(true).open(rt, name),
        opened => opened,
    }
}

/// Whether what stands under a name gives back what is written: a plain file or a block device. A pipe could make the
/// call that opens it wait, and a device of characters keeps nothing.
fn is_kept(found: &Metadata) -> bool {
    let kind = found.file_type();
    kind.is_file() || kind.is_block_device()
}

/// A file that was opened, its length in bytes, and the place behind which it isn't written.
struct Reached {
    file: File,
    size: u64,
    most: u64,
}

/// Where writes to such a file end: the system limits the size of plain files alone.
fn last_place(rt: &HostRuntime, found: &Metadata) -> u64 {
    if found.is_file() {
        largest_file(rt)
    } else {
        u64::MAX
    }
}

/// Opens a file that is there. The length of a block device only its end tells.
fn opened(rt: &HostRuntime, name: &str) -> Option<Reached> {
    let found = fs::metadata(rt, name).ok()?;
    if !is_kept(&found) {
        return None;
    }
    let mut file = reachable(rt, name).ok()?;
    let size = file.seek(SeekFrom::End(0)).ok()?;
    let most = last_place(rt, &found);
    Some(Reached { file, size, most })
}

/// Makes a file empty, or makes an empty one where there is none.
fn emptied(rt: &HostRuntime, name: &str) -> Option<File> {
    if let Ok(found) = fs::metadata(rt, name) {
        if !is_kept(&found) {
            return None;
        }
    }
    let mut how = OpenOptions::new();
    how.read(true).write(true).create(true).truncate(true);
    how.open(rt, name).ok()
}

impl FileStore {
    /// A store with no file yet.
    pub fn new(rt: HostRuntime) -> FileStore
        ensures closed { result.is_open ≡ false }
        ensures len { result.len ≡ 0 }
        ensures faults { result.faults ≡ 0 }
        ensures openings { result.openings ≡ 0 }
        ensures handed { result.handed ≡ [] }
    {
        FileStore {
            name: String::new(rt.alloc()),
            ahead: ReadAhead::new(rt.alloc()),
            rt,
            file: None,
            size: 0,
            most: 0,
            faults: 0,
            opened: 0,
        }
    }

    /// Makes a write, if a file is open, up to the limit, and says whether all bytes went.
    fn write(&mut self, at: u64, piece: &[u8]) -> bool
        ensures stays { self.new ≡ self.old }
        ensures is_open { IsTrue result → IsTrue self.old.is_open }
    {
        let front = front_of(piece, self.most.saturating_sub(at));
        match &self.file {
            Some(file) => {
                self.ahead.write(file, at, front).is_ok() && front.len() == piece.len()
            }
            None => false,
        }
    }
}

impl Store for FileStore {
    ghost state = { λ s. file_state s };

    ghost told = { λ s. tt };

    ghost octets = { λ s. tt };

    /// Closes the file that was open, and opens the one of this name for reading and writing, or
    /// for reading alone where it may not be written: then each write fails. A file that isn't there
    /// is a failure; then no file is open, and the length is 0.
    fn open(&mut self, name: String) -> Result<u64, Failed>
        ensures length { IfOk result (λ n. n ≡ self.new.len) }
        ensures counted { IsCounted result (file_state self.old) (file_state self.new) }
        ensures opened { WasOpened (string_bytes name) (file_state self.old) (file_state self.new) }

        ensures passed { OnOk result (self.new.faults ≡ self.old.faults) }
        ensures failed { OnErr result (self.new.faults ≡ one_more self.old.faults) }
        ensures is_open { IsTrue self.new.is_open ↔ IsOk result }
        ensures closed { OnErr result (self.new.len ≡ 0) }
    {
        raise(&mut self.opened);
        self.file = None;
        self.ahead.clear();
        self.size = 0;
        let found = opened(&self.rt, name.as_str());
        self.name = name;
        if let Some(found) = found {
            let Reached { file, size, most } = found;
            self.file = Some(file);
            self.size = size;
            self.most = most;
            return Ok(size);
        }
        raise(&mut self.faults);
        Err(Failed)
    }

    /// Closes the file that was open, and opens the one of this name, which it empties, or makes
    /// where it isn't there. After a failure no file is open, and the length is 0.
    fn reset(&mut self, name: String) -> Result<(), Failed>
        ensures length { OnOk result (self.new.len ≡ 0) }
        ensures counted { IsCounted result (file_state self.old) (file_state self.new) }
        ensures opened { WasOpened (string_bytes name) (file_state self.old) (file_state self.new) }

        ensures passed { OnOk result (self.new.faults ≡ self.old.faults) }
        ensures failed { OnErr result (self.new.faults ≡ one_more self.old.faults) }
        ensures is_open { IsTrue self.new.is_open ↔ IsOk result }
        ensures closed { OnErr result (self.new.len ≡ 0) }
    {
        raise(&mut self.opened);
        self.file = None;
        self.ahead.clear();
        self.size = 0;
        let made = emptied(&self.rt, name.as_str());
        self.name = name;
        if let Some(file) = made {
            self.file = Some(file);
            self.most = largest_file(&self.rt);
            return Ok(());
        }
        raise(&mut self.faults);
        Err(Failed)
    }

    /// Reads until all bytes came, of the file or of a piece that was read ahead. An end that comes
    /// before is a failure, and so is a read while no file is open.
    fn read_at(&mut self, at: u64, into: &mut [u8]) -> Result<(), Failed>
        requires { at + length into.old ≤ self.old.len }
        ensures stays { WasRead (file_state self.old) (file_state self.new) }
        ensures counted { IsCounted result (file_state self.old) (file_state self.new) }

        ensures is_open { OnOk result (IsTrue self.old.is_open) }
        ensures passed { OnOk result (self.new ≡ self.old) }
        ensures failed { OnErr result (self.new ≡ after_file_fault self.old) }
    {
        if let Some(file) = &self.file {
            if self.ahead.read(file, at, into).is_ok() {
                return Ok(());
            }
        }
        raise(&mut self.faults);
        Err(Failed)
    }

    /// Writes until all bytes went. A write while no file is open is a failure.
    fn write_at(&mut self, at: u64, piece: &[u8]) -> Result<(), Failed>
        requires { at + length piece.now ≤ self.old.len }
        ensures stays { WasWritten (file_state self.old) (file_state self.new) }
        ensures counted { IsCounted result (file_state self.old) (file_state self.new) }

        ensures is_open { OnOk result (IsTrue self.old.is_open) }
        ensures passed { OnOk result (self.new ≡ self.old) }
        ensures failed { OnErr result (self.new ≡ after_file_fault self.old) }
    {
        if self.write(at, piece) {
            return Ok(());
        }
        raise(&mut self.faults);
        Err(Failed)
    }

    /// Writes behind the last byte until all bytes went. After a failure the length is as before,
    /// and what came behind it is written over by the next call.
    fn append(&mut self, _alloc: Global, piece: &[u8]) -> Result<(), StoreFault>
        ensures length { OnOk result (self.new.len ≡ self.old.len + length piece.now) }
        ensures memory { IsErrOf result StoreFault.Memory → ⊥ }
        ensures cause { IsErrOf result StoreFault.Failed → Rose self.old.faults self.new.faults }
        ensures stays { WasExtended (file_state self.old) (file_state self.new) }

        ensures is_open { OnOk result (IsTrue self.old.is_open) }
        ensures passed { OnOk result (self.new ≡ longer (length piece.now) self.old) }
        ensures failed { OnErr result (self.new ≡ after_file_fault self.old) }
    {
        if let Some(end) = self.size.checked_add(piece.len() as u64) {
            if self.write(self.size, piece) {
                self.size = end;
                return Ok(());
            }
        }
        raise(&mut self.faults);
        Err(StoreFault::Failed)
    }
}
