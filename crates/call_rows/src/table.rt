//! The lines of the table.

use crate::bytes::add_on_bytes;
use crate::calls::came_over;
use crate::commands::{command_row, image_row};
use crate::files::{add_in_file, path_of};
use crate::lines::is_mark;
use crate::outside::{answers_in, rig_over};
use crate::sweeps::add_sweep;
use crate::wanted::{add_call, add_image};
use dix_base::MemStore;
use image_rig::ImageRig;
use std::alloc::{AllocError, Global};
use std::{fs, io};
use test_rig::{ScriptedRig, image_in, image_of_words};
use test_table::{Judge, add_line, cut, has};

/// What the row before left.
#[derive(Drop)]
struct Left {
    image: Vec<u8>,
    rig: Option<ImageRig<MemStore>>,
    text: Vec<u8>,
}

/// What was left by the rows that were done, and the lines of the row that is read.
#[derive(Drop)]
pub struct Table {
    rt: HostRuntime,
    left: Left,
    lines: Vec<String>,
    /// Where the rows go over an image in a file.
    path: String,
    is_in_file: bool,
}

impl Left {
    /// The rig of the row before, where a row goes on with it; else one over this image.
    fn rig_of(
        &mut self,
        alloc: Global,
        lines: &[String],
        image: &Vec<u8>,
    ) -> Result<ImageRig<MemStore>, AllocError> {
        match self.rig.take() {
            Some(rig) if has(lines, "again") => Ok(rig),
            _ => rig_over(alloc, lines, image.clone()?),
        }
    }

    /// Makes a row's call over a rig, and answers its text. Adds what came otherwise than the row says.
    fn text_over(
        &self,
        alloc: Global,
        lines: &[String],
        others: &mut Vec<u8>,
        before: &[u8],
        rig: &mut ImageRig<MemStore>,
    ) -> Result<Vec<u8>, AllocError> {
        let came = came_over(alloc, lines, "a", rig)?;
        add_call(alloc, others, lines, &came, &self.text)?;
        add_image(alloc, others, lines, before, rig.store().bytes())?;
        Ok(came.text)
    }

    /// Makes a row's call over the image, or over the rig of the row before. Adds what came otherwise than the row says.
    fn call(
        &mut self,
        alloc: Global,
        lines: &[String],
        others: &mut Vec<u8>,
    ) -> Result<(), AllocError> {
        let before = image_in(alloc, lines, &self.image)?;
        let mut rig = self.rig_of(alloc, lines, &before)?;
        self.text = self.text_over(alloc, lines, others, &before, &mut rig)?;
        self.image = Vec::from_slice(alloc, rig.store().bytes())?;
        self.rig = Some(rig);
        Ok(())
    }

    /// A rig over the image that answers as a row says in its place.
    fn scripted(
        &self,
        alloc: Global,
        lines: &[String],
    ) -> Result<ScriptedRig<ImageRig<MemStore>>, AllocError> {
        let answers = answers_in(alloc, lines)?;
        let rig = rig_over(alloc, lines, self.image.clone()?)?;
        Ok(ScriptedRig::new(alloc, rig, answers))
    }

    /// Makes a row's call over a rig that answers in place of the image.
    fn call_answered(
        &self,
        alloc: Global,
        lines: &[String],
        others: &mut Vec<u8>,
    ) -> Result<(), AllocError> {
        let mut rig = self.scripted(alloc, lines)?;
        let came = came_over(alloc, lines, "a", &mut rig)?;
        add_call(alloc, others, lines, &came, &self.text)?;
        let left = rig.inner().store().bytes();
        add_image(alloc, others, lines, &self.image, left)
    }

    /// Makes a row's call from the image's bytes to bytes.
    fn call_on_bytes(
        &mut self,
        alloc: Global,
        lines: &[String],
        others: &mut Vec<u8>,
    ) -> Result<(), AllocError> {
        let before = image_in(alloc, lines, &self.image)?;
        self.image = add_on_bytes(alloc, others, lines, &before)?;
        self.rig = None;
        Ok(())
    }

    /// Makes a row's call over forms in memory.
    fn add(
        &mut self,
        alloc: Global,
        lines: &[String],
        others: &mut Vec<u8>,
    ) -> Result<(), AllocError> {
        if has(lines, "each") {
            add_sweep(alloc, others, lines, &self.image)
        } else if has(lines, "bytes") {
            self.call_on_bytes(alloc, lines, others)
        } else if has(lines, "answer") {
            self.call_answered(alloc, lines, others)
        } else {
            self.call(alloc, lines, others)
        }
    }
}

impl Table {
    /// Over no image.
    pub fn new(rt: HostRuntime) -> io::Result<Table> {
        let alloc = rt.alloc();
        let path = path_of(&rt)?;
        Ok(Table {
            rt,
            left: Left {
                image: Vec::new(alloc),
                rig: None,
                text: Vec::new(alloc),
            },
            lines: Vec::new(alloc),
            path,
            is_in_file: false,
        })
    }

    /// Takes the file away.
    pub fn clear(&self) {
        let _ = fs::remove_file(&self.rt, self.path.as_str());
    }
}

impl Judge for Table {
    fn set(&mut self, alloc: Global, line: &str) -> Result<bool, AllocError> {
        let (word, rest) = cut(line);
        if word == "image" {
            self.left.image = image_of_words(alloc, rest)?;
            self.is_in_file = false;
            return Ok(true);
        }
        if word == "file" {
            self.clear();
            self.is_in_file = true;
            return Ok(true);
        }
        self.lines.push(String::from_str(alloc, line)?)?;
        Ok(is_mark(word))
    }

    /// Of words their command or image. Of a row so, where its call comes to what its lines say; else what came
    /// otherwise.
    fn answer(&mut self, alloc: Global, call: &str) -> Result<String, AllocError> {
        let (word, words) = cut(call);
        match word {
            "command" => return command_row(alloc, words),
            "image" => return image_row(alloc, words),
            _ => {}
        }
        let lines = std::mem::replace(&mut self.lines, Vec::new(alloc));
        let mut others = Vec::new(alloc);
        if !self.is_in_file {
            self.left.add(alloc, &lines, &mut others)?;
        } else if add_in_file(&self.rt, &mut others, &lines, self.path.as_str()).is_err() {
            add_line(&mut others, "no file")?;
        }
        if others.is_empty() {
            return String::from_str(alloc, "so");
        }
        let text = others.strip_suffix(b"\n").unwrap_or(&others);
        String::from_str(alloc, std::str::from_utf8(text).unwrap_or("?"))
    }
}
