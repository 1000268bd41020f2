//! One call of the top call, and what comes of it.

use crate::images::{Images, image_after, images_in};
use crate::lines::source;
use dix_base::{CalmSource, MemSink, MemSource, MemStore, Sink, Source, Store};
use image_rig::ImageRig;
use lab_run::run;
use rig_api::Rig;
use std::alloc::{AllocError, Global};
use test_table::{behind, has, numbers, word_of};

/// The most bytes of a text, where a row says nothing else.
const ROOM: u32 = 1_000_000;

/// What a call came to.
#[derive(Drop)]
pub(crate) struct Came {
    pub(crate) status: u8,
    pub(crate) text: Vec<u8>,
    /// The line of a refusal.
    pub(crate) said: Vec<u8>,
    /// Whether each byte of the images is as the row says.
    pub(crate) is_left: bool,
}

/// The words of the call.
fn words_in(alloc: Global, lines: &[String]) -> Result<Vec<String>, AllocError> {
    let mut words = Vec::new(alloc);
    let line = behind(lines, "$");
    if line == "" {
        return Ok(words);
    }
    for word in line.split(' ') {
        words.push(word_of(alloc, word)?)?;
    }
    Ok(words)
}

/// The exit status of a call.
fn exit<S: Source, R: Rig, A: Store, B: Store, O: Sink, E: Sink>(
    alloc: Global,
    words: &[String],
    input: &mut S,
    rig: &mut R,
    first: &mut A,
    second: &mut B,
    out: &mut O,
    says: &mut E,
) -> u8 {
    run(alloc, words, input, rig, first, second, out, says).number()
}

/// The rig and the stores of a call, each of which fails where a row says so.
#[derive(Drop)]
struct Stores {
    rig: ImageRig<MemStore>,
    first: MemStore,
    second: MemStore,
}

/// The source, the stores and the sinks of a call. Source and sinks fail too where a row says so; a file is a source that
/// knows how many bytes it has, and is in place of the other.
#[derive(Drop)]
struct Outside {
    input: MemSource,
    file: Option<CalmSource>,
    stores: Stores,
    sink: MemSink,
    says: MemSink,
}

/// A source with the text that a row says, which fails as it says.
fn input_in(alloc: Global, lines: &[String]) -> Result<MemSource, AllocError> {
    Ok(MemSource::new(
        source(alloc, lines)?,
        numbers(alloc, lines, "source-fails")?,
    ))
}

/// A file with the text that a row says, where it asks for one.
fn file_in(alloc: Global, lines: &[String]) -> Result<Option<CalmSource>, AllocError> {
    if has(lines, "file") {
        return Ok(Some(CalmSource::new(source(alloc, lines)?)));
    }
    Ok(None)
}

/// A store with these bytes, which fails as the line with this mark says.
fn store_of(
    alloc: Global,
    lines: &[String],
    image: &Vec<u8>,
    mark: &str,
) -> Result<MemStore, AllocError> {
    Ok(MemStore::new(image.clone()?, numbers(alloc, lines, mark)?))
}

/// A sink with the room that the line with this mark says, which fails as that with the other mark says.
fn sink_in(alloc: Global, lines: &[String], room: &str, mark: &str) -> Result<MemSink, AllocError> {
    let room = behind(lines, room).parse::<u32>().unwrap_or(ROOM);
    MemSink::new(alloc, room, numbers(alloc, lines, mark)?)
}

/// The rig and the stores over these images.
fn stores_of(alloc: Global, lines: &[String], images: &Images) -> Result<Stores, AllocError> {
    let held = store_of(alloc, lines, &images.first, "rig-fails")?;
    let first = store_of(alloc, lines, &images.first, "store-fails")?;
    let second = store_of(alloc, lines, &images.second, "second-fails")?;
    Ok(Stores {
        rig: ImageRig::new(alloc, held),
        first,
        second,
    })
}

/// What a row's call is made over.
fn outside_of(alloc: Global, lines: &[String], images: &Images) -> Result<Outside, AllocError> {
    let input = input_in(alloc, lines)?;
    let file = file_in(alloc, lines)?;
    let sink = sink_in(alloc, lines, "room", "sink-fails")?;
    let says = sink_in(alloc, lines, "says-room", "says-fails")?;
    let stores = stores_of(alloc, lines, images)?;
    Ok(Outside {
        input,
        file,
        stores,
        sink,
        says,
    })
}

impl Outside {
    /// The exit status of a call with these words.
    fn status(&mut self, alloc: Global, words: &[String]) -> u8 {
        if let Some(file) = &mut self.file {
            return exit(
                alloc,
                words,
                file,
                &mut self.stores.rig,
                &mut self.stores.first,
                &mut self.stores.second,
                &mut self.sink,
                &mut self.says,
            );
        }
        exit(
            alloc,
            words,
            &mut self.input,
            &mut self.stores.rig,
            &mut self.stores.first,
            &mut self.stores.second,
            &mut self.sink,
            &mut self.says,
        )
    }

    /// Whether a call over these images left each byte as a row says.
    fn is_left(
        &self,
        alloc: Global,
        lines: &[String],
        images: &Images,
    ) -> Result<bool, AllocError> {
        let first = image_after(alloc, lines, &images.first, "then")?;
        let rig = image_after(alloc, lines, &images.first, "rig")?;
        Ok(
            self.stores.first.bytes() == first.as_slice()
                && self.stores.rig.store().bytes() == rig.as_slice()
                && self.stores.second.bytes() == images.second.as_slice(),
        )
    }

    /// Makes the call of a row over these images.
    fn ended(
        &mut self,
        alloc: Global,
        lines: &[String],
        images: &Images,
        words: &[String],
    ) -> Result<Came, AllocError> {
        let status = self.status(alloc, words);
        let is_left = self.is_left(alloc, lines, images)?;
        let text = Vec::from_slice(alloc, self.sink.bytes())?;
        let said = Vec::from_slice(alloc, self.says.bytes())?;
        Ok(Came {
            status,
            text,
            said,
            is_left,
        })
    }
}

/// Calls the top call with the words of a row over its images.
pub(crate) fn came_over(
    alloc: Global,
    lines: &[String],
    table: &Images,
) -> Result<Came, AllocError> {
    let words = words_in(alloc, lines)?;
    let images = images_in(alloc, lines, table)?;
    let mut outside = outside_of(alloc, lines, &images)?;
    outside.ended(alloc, lines, &images, &words)
}
