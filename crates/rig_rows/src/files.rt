//! An image in a file.

ghost use Rattle.std.specs.Prelude.{◌≡◌};
ghost use Rattle.rig_api.specs.Telling.{source_of};

use crate::units::units_of;
use arrayvec::ArrayVec;
use dix_base::FileStore;
use fault_schedule::ShortBytes;
use image_rig::ImageRig;
use rig_api::{Change, Rig, is_layout};
use std::alloc::{AllocError, Global};
use std::{env, fs, io, process};
use test_table::{Words, bytes_of, hex_of};

/// A rig over the file.
#[derive(Drop)]
pub(crate) struct Files {
    rt: HostRuntime,
    rig: ImageRig<FileStore>,
}

/// A path in the folder for temporary files, of this process alone.
fn path_of(rt: &HostRuntime) -> io::Result<String> {
    let id = process::id(rt.process());
    let name = format!(in rt.alloc(); "dix_rig_rows_{id}")?;
    Ok(
        env::temp_dir(rt)?
            .join(rt.alloc(), name.as_str())?
            .into_string(),
    )
}

/// The change of these words: flip OFF BYTES, or copy DEV LBA.
fn change_of(alloc: Global, words: &mut Words<'_>) -> Result<Change, AllocError> {
    if words.word() == "copy" {
        return Ok(Change::Copy {
            dev: words.small(),
            lba: words.number(),
        });
    }
    let off = words.small();
    let mut bytes = ArrayVec::new();
    let _ = bytes.try_extend_from_slice(&bytes_of(alloc, words.word())?);
    Ok(Change::Flip {
        off,
        bytes: ShortBytes::from_array(bytes),
    })
}

fn source(change: &Change, dev: u32) -> u32
    ensures { result ≡ source_of change.now dev }
{
    match change {
        Change::Flip { .. } => dev,
        Change::Copy { dev: from, .. } => *from,
    }
}

/// Makes this change in the image of the file that is open, where it has these devices.
fn change(rig: &mut ImageRig<FileStore>, dev: u32, lba: u64, change: &Change) -> bool {
    let count = rig.devices();
    dev < count && source(change, dev) < count && rig.overwrite(dev, lba, change).is_ok()
}

/// Makes the file that of these units, and opens it.
fn format<R: Rig>(alloc: Global, rig: &mut R, path: &str, words: &str) -> bool {
    let units = units_of(words);
    is_layout(&units) && rig.format(alloc, path, &units).is_ok() && rig.open(alloc, path).is_ok()
}

/// The last byte of each of six blocks of 520 bytes.
fn last_bytes(image: &[u8]) -> [u8; 6] {
    let mut last = [0; 6];
    for k in 0..6usize {
        if let Some(byte) = image.get(512 + 520 * k + 519) {
            last[k] = *byte;
        }
    }
    last
}

impl Files {
    pub(crate) fn new(rt: HostRuntime) -> Files {
        Files {
            rt,
            rig: ImageRig::new(rt.alloc(), FileStore::new(rt)),
        }
    }

    fn change(&mut self, alloc: Global, words: &str) -> Result<bool, AllocError> {
        let mut words = Words::of(words);
        let (dev, lba) = (words.small(), words.number());
        let what = change_of(alloc, &mut words)?;
        Ok(change(&mut self.rig, dev, lba, &what))
    }

    /// Does what a line says with the file. Answers false where it is none, or the file isn't so.
    pub(crate) fn set(
        &mut self,
        alloc: Global,
        word: &str,
        rest: &str,
    ) -> Result<bool, AllocError> {
        if word == "change" {
            return self.change(alloc, rest);
        }
        match path_of(&self.rt) {
            Ok(path) if word == "file" => Ok(format(alloc, &mut self.rig, path.as_str(), rest)),
            Ok(path) => Ok(fs::remove_file(&self.rt, path.as_str()).is_ok()),
            Err(_) => Ok(false),
        }
    }

    fn image(&self) -> io::Result<Vec<u8>> {
        let path = path_of(&self.rt)?;
        fs::read(&self.rt, path.as_str())
    }

    /// The last byte of each block in the file.
    pub(crate) fn answer(&self, alloc: Global) -> Result<Option<String>, AllocError> {
        match self.image() {
            Ok(image) => Ok(Some(hex_of(alloc, &last_bytes(&image))?)),
            Err(_) => Ok(None),
        }
    }
}
