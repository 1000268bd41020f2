//! The program `dix`: makes disk images and looks after them, runs a script on one and prints a
//! report.
#![tactic(auto)]

use dix_base::{FileStore, HeldStreams, StdinSource, StdoutSink, unworded, words_of};
use dix_run::{Refusal, refuse, run};
use image_rig::ImageRig;
use std::io;
use std::process::ExitCode;

/// Where the places of closed streams can't be held no image is opened.
fn main(rt: HostRuntime) -> io::Result<ExitCode> {
    let mut script = StdinSource::new(rt.clone()?);
    let mut rig = ImageRig::new(rt.alloc(), FileStore::new(rt.clone()?));
    let mut out = StdoutSink::new(rt.clone()?);
    let Ok(_held) = HeldStreams::hold(&rt) else {
        return Ok(ExitCode::from(refuse(&mut out, Refusal::RIG_FAULT).number()));
    };
    let status = match words_of(&rt) {
        Ok(words) => run(rt.alloc(), &words, &mut script, &mut rig, &mut out),
        Err(error) => refuse(&mut out, unworded(&error, Refusal::Words, Refusal::MEMORY)),
    };
    Ok(ExitCode::from(status.number()))
}
