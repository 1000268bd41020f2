//! What a flip comes to.

ghost use Rattle.std.specs.Prelude.{◌≡◌, ◌<◌, ◌^◌, length, true};
ghost use Rattle.rig_api.specs.Headers.{image_size, is_layout};
ghost use Rattle.flip_sweep.specs.Comes.{seen_of};
ghost use Rattle.flip_sweep.specs.Verdicts.{is_same_verdict, verdict_of};

use crate::listing::first_found;
use crate::runs::Came;
use crate::same::{are_same_pages, are_same_replies, is_same_check, is_same_why};
use crate::spoilt::first_spoilt;
use bio_core::Why;
use pi_tuple::Check;
use rig_api::UnitSpec;

/// What a flip comes to, beside the run as it is.
#[derive(Clone, Copy, Debug, PartialEq, Eq)]
pub enum Verdict {
    /// The report lists this block, which it doesn't list so otherwise.
    Found {
        /// The number of the op, from 1.
        op: u32,
        /// The block's place in the request, from 0.
        k: u32,
        /// Why it is listed.
        why: Why,
    },
    /// This stored block is at fault afterwards, and isn't so otherwise.
    Scrub {
        /// The device, from 0.
        dev: u32,
        /// The block's address.
        lba: u64,
        /// What a check of it finds.
        check: Check,
    },
    /// Replies, pages and stored blocks are as otherwise.
    Same,
    /// Something of them is not, and nobody finds it.
    Unseen,
}

/// Whether two verdicts are one.
pub(crate) fn is_same_verdict(one: Verdict, other: Verdict) -> bool
    ensures { result ≡ is_same_verdict one other }
{
    match (one, other) {
        (
            Verdict::Found { op, k, why },
            Verdict::Found {
                op: a,
                k: b,
                why: c,
            },
        ) => op == a && k == b && is_same_why(why, c),
        (
            Verdict::Scrub { dev, lba, check },
            Verdict::Scrub {
                dev: a,
                lba: b,
                check: c,
            },
        ) => { dev == a && lba == b && is_same_check(check, c) }
        (Verdict::Same, Verdict::Same) => true,
        (Verdict::Unseen, Verdict::Unseen) => true,
        _ => false,
    }
}

/// What a run over these units with so many pages came to, beside the run as it is.
pub(crate) fn verdict_of(units: &[UnitSpec], pages: u32, was: &Came, now: &Came) -> Verdict
    requires layout { is_layout units.now ≡ true }
    requires was { length was.now.rig.store.bytes ≡ image_size units.now }
    requires now { length now.now.rig.store.bytes ≡ image_size units.now }
    requires few { length now.now.run.stack.replies.items < 2 ^ 31 }
    ensures { result ≡ verdict_of units.now (seen_of was.now pages) (seen_of now.now pages) }
{
    if let Some(verdict) = first_found(was.replies(), now.replies()) {
        return verdict;
    }
    let (_, before) = was.image().split_at(512);
    let (_, after) = now.image().split_at(512);
    if let Some(verdict) = first_spoilt(units, before, after) {
        return verdict;
    }
    if are_same_replies(was.replies(), now.replies())
        && are_same_pages(was.pool(), now.pool(), pages)
        && before == after
    {
        return Verdict::Same;
    }
    Verdict::Unseen
}
