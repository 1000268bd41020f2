//! The places of standard streams that are closed.

use crate::Failed;
use std::fs::{self, File};
use std::os::fd::AsRawFd;

/// Keeps the places of standard streams that are closed, so that no image is opened in one and overwritten by what is
/// printed.
#[derive(Drop)]
pub struct HeldStreams {
    _places: [Option<File>; 3],
}

/// Opens something that can't be written, in the first place that is free.
fn placed(rt: &HostRuntime) -> Result<File, Failed> {
    for name in ["/", "/dev/null", "."] {
        if let Ok(file) = fs::open(rt, name) {
            return Ok(file);
        }
    }
    Err(Failed)
}

/// Holds the first place that is free, if it is a standard stream's.
fn place(rt: &HostRuntime) -> Result<Option<File>, Failed> {
    let file = placed(rt)?;
    if file.as_raw_fd() > 2 {
        return Ok(None);
    }
    Ok(Some(file))
}

impl HeldStreams {
    /// Takes the places that are free. Where none can be taken it isn't known that none is free, and no image may be
    /// opened.
    pub fn hold(rt: &HostRuntime) -> Result<HeldStreams, Failed> {
        Ok(HeldStreams {
            _places: [place(rt)?, place(rt)?, place(rt)?],
        })
    }
}
