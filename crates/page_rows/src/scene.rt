//! What the rows of pages, tuples and requests stand on.

use crate::kinds::{dir_of, seg_of, segs_of};
use crate::pages::{put, scatter, zero};
use crate::tuples;
use bio_core::{Bio, Dir, Io};
use integrity_payload::{Owner, Payload};
use page_pool::{PagePool, SgList};
use std::alloc::{AllocError, Global};
use test_groups::list_of;
use test_table::{Words, bytes_of, cut, small, tag_of};

/// The pool, a request whose data and tuples may lie in it, and a bio of it.
#[derive(Drop)]
pub(crate) struct Scene {
    pub(crate) pool: PagePool,
    pub(crate) io: Io,
    pub(crate) bio: Bio,
}

pub(crate) const NO_BIO: Bio = Bio {
    op: 0,
    k: 0,
    count: 0,
    dev: 0,
    lba: 0,
    dir: Dir::Read,
    segs: 0,
    pi_segs: 0,
};

/// The list of these segments; an empty one where they have too many bytes.
fn list(alloc: Global, words: &str) -> Result<SgList, AllocError> {
    let segs = segs_of(alloc, words)?;
    match list_of(alloc, &segs)? {
        Some(list) => Ok(list),
        None => empty(alloc),
    }
}

fn empty(alloc: Global) -> Result<SgList, AllocError> {
    match list_of(alloc, &[])? {
        Some(list) => Ok(list),
        None => Err(AllocError),
    }
}

fn payload(alloc: Global, words: &str) -> Result<Payload, AllocError> {
    let mut words = Words::of(words);
    let seed = words.number();
    let count = words.small();
    let owner = if words.word() == "block" {
        Owner::Block
    } else {
        Owner::App
    };
    let app = tag_of(words.word());
    Ok(Payload {
        seed,
        count,
        tuples: list(alloc, words.rest())?,
        owner,
        app,
    })
}

impl Scene {
    pub(crate) fn new(alloc: Global) -> Result<Scene, AllocError> {
        Ok(Scene {
            pool: PagePool::new(alloc, 1)?,
            io: Io {
                dir: Dir::Read,
                first: 0,
                count: 0,
                body: empty(alloc)?,
                pi: None,
            },
            bio: NO_BIO,
        })
    }

    /// Takes a line that says what there is, or what is done. Answers false where it is none, or may not be done.
    pub(crate) fn set(&mut self, alloc: Global, line: &str) -> Result<bool, AllocError> {
        let (word, rest) = cut(line);
        match word {
            "pool" => self.pool = PagePool::new(alloc, small(rest).min(64))?,
            "body" => self.io.body = list(alloc, rest)?,
            "payload" => self.io.pi = Some(payload(alloc, rest)?),
            "request" => self.request(rest),
            _ => return self.change(alloc, word, rest),
        }
        Ok(true)
    }

    fn request(&mut self, words: &str) {
        let mut words = Words::of(words);
        self.io.dir = dir_of(words.word());
        self.io.first = words.number();
        self.io.count = words.small();
        if words.word() == "plain" {
            self.io.pi = None;
        }
    }

    fn change(&mut self, alloc: Global, word: &str, rest: &str) -> Result<bool, AllocError> {
        let (first, words) = cut(rest);
        match word {
            "put" => Ok(put(&mut self.pool, seg_of(first), &bytes_of(alloc, words)?)),
            "scatter" => {
                let bytes = bytes_of(alloc, words)?;
                Ok(scatter(&mut self.pool, &self.io.body, small(first), &bytes))
            }
            "zero" => Ok(zero(&mut self.pool, &self.io.body, small(first), small(words))),
            _ => Ok(tuples::change(&mut self.pool, &self.io, word, rest)),
        }
    }
}
