//! The pool of pages.

ghost use Rattle.std.specs.Prelude.{◌≡◌, ℕ, List, ◌<◌, IfOk, length, slice_index_or};
ghost use Rattle.std.specs.Borrow.{sem};
ghost use Rattle.page_pool.specs.Lending.{LendsPart};
ghost use Rattle.page_pool.specs.Pages.{AreWhole, IsBlank, LiesIn, Wrote, bytes_at, part};
ghost use Rattle.page_pool.specs.Places.{places_of};

use crate::{PAGE, Seg};
use std::alloc::{AllocError, Global};
use std::marker::Model;

/// Pages of 4,096 bytes, which contracts see as a list of pages.
#[derive(Drop)]
pub struct PagePool {
    pages: Vec<Vec<u8>>,
}

impl Model for PagePool {
    ghost use Rattle.std.specs.Prelude.{List, ℕ};
    ghost use Rattle.page_pool.specs.Pages.{contents, AreWhole};

    ghost Value = { List (List ℕ) };

    ghost view = { λ p. contents p.pages.items };

    ghost invariant = { λ p. AreWhole (contents p.pages.items) };
}

impl PagePool {
    /// So many pages of zeros.
    pub fn new(alloc: Global, pages: u32) -> Result<PagePool, AllocError>
        ensures { IfOk result (λ pool. IsBlank pages pool) }
    {
        let mut list = Vec::with_capacity(alloc, pages as usize)?;
        for _ in 0..pages {
            list.push(zeros(alloc, PAGE as usize)?)?;
        }
        Ok(PagePool { pages: list })
    }

    /// The number of pages. It asks for nothing, and tells that each page has 4,096 bytes.
    pub fn pages(&self) -> usize
        ensures count { result ≡ length self.now }
        ensures whole { AreWhole self.now }
    {
        self.pages.len()
    }

    /// The page's bytes at the segment, which lies in the pool.
    pub fn part(&self, s: Seg) -> &[u8]
        requires { LiesIn self.now s }
        ensures value { result.now ≡ part self.now s }
        ensures bytes { result.now ≡ bytes_at self.now (places_of s) }
        ensures whole { AreWhole self.now }
    {
        let page = &self.pages[s.page as usize];
        let start = s.off as usize;
        &page[start..start + s.len as usize]
    }

    /// The page's bytes at the segment, to be written. When the borrow ends, what was written stands there, and
    /// all other bytes are as before.
    pub fn part_mut(&mut self, s: Seg) -> &mut [u8]
        requires { LiesIn self.old s }
        ensures* writes_back { sem 𝓛 (LendsPart self.entry s result) }
        ensures value { result.now ≡ part self.old s }
        ensures len { length result.now ≡ s.len }
        ensures whole { AreWhole self.old }
    {
        let page = &mut self.pages[s.page as usize];
        let start = s.off as usize;
        page.slice_mut(start..start + s.len as usize)
    }

    /// Writes these bytes at the segment, which has as many.
    pub fn write_part(&mut self, s: Seg, bytes: &[u8])
        requires lies { LiesIn self.old s }
        requires long { length bytes.now ≡ s.len }
        ensures { Wrote self.old self.new (places_of s) bytes.now }
    {
        // Eight bytes, as of a tuple, take one store in place of a call.
        match <[u8; 8]>::try_from(bytes) {
            Ok(eight) => self.part_mut(s).copy_from_slice(&eight),
            Err(_) => self.part_mut(s).copy_from_slice(bytes),
        }
    }
}

fn zeros(alloc: Global, count: usize) -> Result<Vec<u8>, AllocError>
    ensures size { IfOk result (λ page. length page.items ≡ count) }
    ensures zeros { IfOk result (λ page. (i : ℕ) → slice_index_or page.items i 0 ≡ 0) }
{
    let bytes = vec![in alloc; 0u8; count]?;
    Ok(bytes)
}
