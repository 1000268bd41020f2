//! What is the same in two runs.

ghost use Rattle.std.specs.Prelude.{◌≡◌, ◌*◌, ◌<◌, length, take};
ghost use Rattle.std.specs.Str.{bytes_eq};
ghost use Rattle.page_pool.specs.Cells.{flat};
ghost use Rattle.page_pool.specs.Pages.{page_of};
ghost use Rattle.flip_sweep.specs.Verdicts.{are_same_blocks, are_same_replies, is_same_block, is_same_check, is_same_reply, is_same_why};

use bio_core::Why;
use page_pool::{PAGE, PagePool, Seg};
use pi_tuple::Check;
use stack_ops::{BadBlock, Reply};

pub(crate) fn is_same_check(one: Check, other: Check) -> bool
    ensures { result ≡ is_same_check one other }
{
    one == other
}

pub(crate) fn is_same_why(one: Why, other: Why) -> bool
    ensures { result ≡ is_same_why one other }
{
    one == other
}

pub(crate) fn is_same_block(one: BadBlock, other: BadBlock) -> bool
    ensures { result ≡ is_same_block one other }
{
    one.k == other.k && is_same_why(one.why, other.why)
}

fn are_same_blocks(one: &[BadBlock], other: &[BadBlock]) -> bool
    ensures { result ≡ are_same_blocks one.now other.now }
{
    let mut left = one;
    let mut right = other;
    while let Some((a, behind)) = left.split_first() {
        let Some((b, rest)) = right.split_first() else {
            return false;
        };
        if !is_same_block(*a, *b) {
            return false;
        }
        left = behind;
        right = rest;
    }
    right.is_empty()
}

fn is_same_reply(one: &Reply, other: &Reply) -> bool
    ensures { result ≡ is_same_reply one.now other.now }
{
    match (one, other) {
        (Reply::Silent, Reply::Silent) => true,
        (Reply::Whole, Reply::Whole) => true,
        (Reply::Bad(a), Reply::Bad(b)) => are_same_blocks(a.as_slice(), b.as_slice()),
        (Reply::Shown(a), Reply::Shown(b)) => a.as_slice() == b.as_slice(),
        (Reply::Medium, Reply::Medium) => true,
        _ => false,
    }
}

pub(crate) fn are_same_replies(one: &[Reply], other: &[Reply]) -> bool
    ensures { result ≡ are_same_replies one.now other.now }
{
    let mut left = one;
    let mut right = other;
    while let Some((a, behind)) = left.split_first() {
        let Some((b, rest)) = right.split_first() else {
            return false;
        };
        if !is_same_reply(a, b) {
            return false;
        }
        left = behind;
        right = rest;
    }
    right.is_empty()
}

/// Whether this page of two pools holds the same.
fn is_same_page(one: &PagePool, other: &PagePool, page: u32) -> bool
    requires one { page < length one.now }
    requires other { page < length other.now }
    ensures { result ≡ bytes_eq (page_of one.now page) (page_of other.now page) }
{
    let whole = Seg {
        page,
        off: 0,
        len: PAGE,
    };
    one.part(whole) == other.part(whole)
}

/// Whether so many first pages of two pools hold the same.
pub(crate) fn are_same_pages(one: &PagePool, other: &PagePool, pages: u32) -> bool
    ensures { result ≡ bytes_eq (take (PAGE * pages) (flat one.now)) (take (PAGE * pages) (flat other.now)) }
{
    let count = one.pages().min(pages as usize);
    if count != other.pages().min(pages as usize) {
        return false;
    }
    for page in 0..count as u32 {
        if !is_same_page(one, other, page) {
            return false;
        }
    }
    true
}
