//! Blocks that one report lists and another doesn't.

ghost use Rattle.std.specs.Prelude.{◌≡◌, ◌+◌, ◌<◌, ◌^◌, length};
ghost use Rattle.std.specs.List.{list_any};
ghost use Rattle.flip_sweep.specs.Verdicts.{first_found, first_other, is_same_block, listed};

use crate::same::is_same_block;
use crate::verdict::Verdict;
use stack_ops::{BadBlock, Reply};

/// The blocks that a reply lists.
fn listed(reply: &Reply) -> &[BadBlock]
    ensures { result.now ≡ listed reply.now }
{
    match reply {
        Reply::Bad(blocks) => blocks.as_slice(),
        Reply::Silent | Reply::Whole | Reply::Shown(_) | Reply::Medium => &[],
    }
}

/// Whether the block is among these.
fn is_among(block: BadBlock, blocks: &[BadBlock]) -> bool
    ensures { result ≡ list_any (is_same_block block) blocks.now }
{
    let mut rest = blocks;
    while let Some((other, behind)) = rest.split_first() {
        if is_same_block(block, *other) {
            return true;
        }
        rest = behind;
    }
    false
}

/// The first block that isn't among the others.
fn first_other(was: &[BadBlock], now: &[BadBlock]) -> Option<BadBlock>
    ensures { result ≡ first_other was.now now.now }
{
    let mut rest = now;
    while let Some((block, behind)) = rest.split_first() {
        if !is_among(*block, was) {
            return Some(*block);
        }
        rest = behind;
    }
    None
}

/// The first block that these replies list and the others don't list so.
pub(crate) fn first_found(was: &[Reply], now: &[Reply]) -> Option<Verdict>
    requires { length now.now < 2 ^ 31 }
    ensures { result ≡ first_found 1 was.now now.now }
{
    let mut before = was;
    let mut rest = now;
    let mut op = 1u32;
    while let Some((reply, more)) = rest.split_first() {
        let (other, behind) = before.split_first()?;
        if let Some(block) = first_other(listed(other), listed(reply)) {
            return Some(Verdict::Found {
                op,
                k: block.k,
                why: block.why,
            });
        }
        before = behind;
        rest = more;
        op += 1;
    }
    None
}
