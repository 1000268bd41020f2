//! One call of the top call, and what comes of it.

use crate::holding_sink::HoldingSink;
use crate::sources::{source_in, words_in};
use dix_base::{MemSink, MemSource, Sink, Source};
use dix_run::run;
use report_text::print_trace;
use rig_api::Rig;
use std::alloc::{AllocError, Global};
use test_table::{behind, numbers};

/// The most bytes of a text or a trace, where a row says nothing else.
const ROOM: u32 = 100_000;

/// What a call came to.
#[derive(Drop)]
pub(crate) struct Came {
    pub(crate) status: u8,
    pub(crate) text: Vec<u8>,
    /// All records of the rig.
    pub(crate) records: Vec<u8>,
}

/// The exit status of a call.
fn exit<S: Source, R: Rig, O: Sink>(
    alloc: Global,
    words: &[String],
    source: &mut S,
    rig: &mut R,
    out: &mut O,
) -> u8 {
    run(alloc, words, source, rig, out).number()
}

fn records_of<R: Rig>(alloc: Global, rig: &R) -> Result<Vec<u8>, AllocError> {
    let mut sink = MemSink::new(alloc, ROOM, Vec::new(alloc))?;
    let _ = print_trace(&mut sink, rig, 0);
    Vec::from_slice(alloc, sink.bytes())
}

/// A sink with the room that a row says, which fails as it says, and passes nothing on before it is flushed.
fn sink_in(alloc: Global, lines: &[String]) -> Result<HoldingSink, AllocError> {
    let room = behind(lines, "room").parse::<u32>().unwrap_or(ROOM);
    let fails = numbers(alloc, lines, "sink-fails")?;
    Ok(HoldingSink::new(MemSink::new(alloc, room, fails)?))
}

/// The source of a row, which fails as it says.
fn input_in(alloc: Global, lines: &[String]) -> Result<MemSource, AllocError> {
    let fails = numbers(alloc, lines, "source-fails")?;
    Ok(MemSource::new(source_in(alloc, lines)?, fails))
}

/// What a call came to that ended with this status: what the sink passed on, or took where it failed, and what the rig
/// has on record.
fn ended<R: Rig>(
    alloc: Global,
    status: u8,
    sink: &HoldingSink,
    rig: &R,
) -> Result<Came, AllocError> {
    let text = Vec::from_slice(alloc, sink.bytes(status == 8))?;
    let records = records_of(alloc, rig)?;
    Ok(Came {
        status,
        text,
        records,
    })
}

/// Calls the top call with the words and the source of a row over a rig. The image of the row has this name.
pub(crate) fn came_over<R: Rig>(
    alloc: Global,
    lines: &[String],
    name: &str,
    rig: &mut R,
) -> Result<Came, AllocError> {
    let words = words_in(alloc, lines, name)?;
    let mut source = input_in(alloc, lines)?;
    let mut sink = sink_in(alloc, lines)?;
    let status = exit(alloc, &words, &mut source, rig, &mut sink);
    ended(alloc, status, &sink, rig)
}
