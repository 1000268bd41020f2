//! The program `dixlab`: shows the stored blocks of disk images, compares them, takes dumps of them out and in, and
//! judges scripts.
#![tactic(auto)]

use dix_base::{FileStore, HeldStreams, StderrSink, StdinSource, StdoutSink, unworded, words_of};
use image_rig::ImageRig;
use lab_run::{Refusal, refuse, run};
use std::io;
use std::process::ExitCode;

/// Where the places of closed streams can't be held no image is opened.
fn main(rt: HostRuntime) -> io::Result<ExitCode> {
    let mut input = StdinSource::new(rt.clone()?);
    let mut rig = ImageRig::new(rt.alloc(), FileStore::new(rt.clone()?));
    let mut first = FileStore::new(rt.clone()?);
    let mut second = FileStore::new(rt.clone()?);
    let mut out = StdoutSink::new(rt.clone()?);
    let mut says = StderrSink::new(rt.clone()?);
    let Ok(_held) = HeldStreams::hold(&rt) else {
        return Ok(ExitCode::from(refuse(&mut says, Refusal::RIG_FAULT).number()));
    };
    let status = match words_of(&rt) {
        Ok(words) => run(
            rt.alloc(),
            &words,
            &mut input,
            &mut rig,
            &mut first,
            &mut second,
            &mut out,
            &mut says,
        ),
        Err(error) => refuse(&mut says, unworded(&error, Refusal::Words, Refusal::MEMORY)),
    };
    Ok(ExitCode::from(status.number()))
}
