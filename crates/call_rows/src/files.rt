//! Calls over an image in a file.

use crate::calls::came_over;
use crate::wanted::{add_call, add_image};
use dix_base::FileStore;
use image_rig::ImageRig;
use std::fs::{OpenOptions, Permissions};
use std::os::unix::fs::PermissionsExt;
use std::{env, fs, io, process};
use test_rig::image_in;
use test_table::has;

/// A path in the folder for temporary files, of this process alone.
pub(crate) fn path_of(rt: &HostRuntime) -> io::Result<String> {
    let id = process::id(rt.process());
    let name = format!(in rt.alloc(); "call_rows_{id}")?;
    Ok(
        env::temp_dir(rt)?
            .join(rt.alloc(), name.as_str())?
            .into_string(),
    )
}

/// What the file holds; nothing where there is none.
fn held(rt: &HostRuntime, path: &str) -> Vec<u8> {
    fs::read(rt, path).unwrap_or(Vec::new(rt.alloc()))
}

/// Lets the file only be read. Answers false where the process may write it all the same, as it may write every file.
fn is_only_read(rt: &HostRuntime, path: &str) -> io::Result<bool> {
    fs::set_permissions(rt, path, Permissions::from_mode(0o444))?;
    Ok(OpenOptions::new().write(true).open(rt, path).is_err())
}

/// The file as a row says, made of the one that was left.
fn file_in(rt: &HostRuntime, lines: &[String], path: &str) -> io::Result<Vec<u8>> {
    let left = held(rt, path);
    let image = image_in(rt.alloc(), lines, &left)?;
    if image.as_slice() != left.as_slice() {
        fs::write(rt, path, &image)?;
    }
    Ok(image)
}

/// Makes a row's call over the file of this path. Adds what came otherwise than the row says.
pub(crate) fn add_in_file(
    rt: &HostRuntime,
    others: &mut Vec<u8>,
    lines: &[String],
    path: &str,
) -> io::Result<()> {
    let before = file_in(rt, lines, path)?;
    if has(lines, "read-only") && !is_only_read(rt, path)? {
        return Ok(());
    }
    let mut rig = ImageRig::new(rt.alloc(), FileStore::new(rt.clone()?));
    let came = came_over(rt.alloc(), lines, path, &mut rig)?;
    add_call(rt.alloc(), others, lines, &came, &[])?;
    add_image(rt.alloc(), others, lines, &before, &held(rt, path))?;
    Ok(())
}
