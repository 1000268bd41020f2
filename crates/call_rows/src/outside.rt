//! What a call runs over: a rig over an image, and answers of devices in its place.

use dix_base::MemStore;
use image_rig::ImageRig;
use rig_api::Outcome;
use sense_codes::Sense;
use std::alloc::{AllocError, Global};
use test_rig::Answer;
use test_table::{array_of, bytes_of, cut, numbers};

/// A rig over an image, whose store fails as the row says.
pub(crate) fn rig_over(
    alloc: Global,
    lines: &[String],
    image: Vec<u8>,
) -> Result<ImageRig<MemStore>, AllocError> {
    let fails = numbers(alloc, lines, "store-fails")?;
    Ok(ImageRig::new(alloc, MemStore::new(image, fails)))
}

/// The key and the two codes of a sense; none where it is no sense.
fn sense_of(word: &str) -> Option<Sense> {
    let [key, asc, ascq] = array_of::<3>(word)?;
    Some(Sense {
        key,
        asc,
        ascq,
        info: None,
    })
}

/// The answer of three words: the blocks that are done, the sense or `-`, and the bytes.
fn answer_of(alloc: Global, words: &str) -> Result<Answer, AllocError> {
    let (done, rest) = cut(words);
    let (sense, digits) = cut(rest);
    Ok(Answer {
        outcome: Outcome {
            done: done.parse::<u32>().unwrap_or(0),
            sense: sense_of(sense),
        },
        bytes: bytes_of(alloc, digits)?,
    })
}

/// What devices answer in turn in place of those of the image.
pub(crate) fn answers_in(alloc: Global, lines: &[String]) -> Result<Vec<Answer>, AllocError> {
    let mut answers = Vec::new(alloc);
    for line in lines {
        let (word, rest) = cut(line.as_str());
        if word == "answer" {
            answers.push(answer_of(alloc, rest)?)?;
        }
    }
    Ok(answers)
}
