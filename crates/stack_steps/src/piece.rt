//! The pieces that a request is cut into.

ghost use Rattle.std.specs.Prelude.{◌≡◌, ◌<◌, ◌≤◌, ◌+◌, ◌^◌, min, length};
ghost use Rattle.stack_laws.specs.Plan.{request_at};
ghost use Rattle.stack_laws.specs.Pieces.{longest, greatest_piece, cut_to, bio_of};

use crate::Requests;
use crate::within::blocks_within;
use bio_core::Bio;
use merge_queue::Limits;

fn smaller(run: u64, most: u32) -> u32
    ensures { result ≡ min run most }
{
    if run < most as u64 { run as u32 } else { most }
}

/// At most how many blocks a piece has.
fn longest_piece<P: Requests>(plan: &P, lim: &Limits, op: u32, k: u32) -> u32
    requires limits { lim.now ≡ (P.plan plan.now).limits }
    requires op { op < length (P.plan plan.now).requests }
    requires more { k < (request_at (P.plan plan.now) op).count }
    ensures { result ≡ longest (P.plan plan.now) op k }
{
    let left = plan.io(op).count - k;
    let site = plan.site(op, k);
    left.min(smaller(site.run, lim.max_blocks))
}

/// How many blocks the greatest piece has.
fn greatest_of<P: Requests>(plan: &P, op: u32, k: u32) -> u32
    requires op { op < length (P.plan plan.now).requests }
    requires more { k < (request_at (P.plan plan.now) op).count }
    ensures { result ≡ greatest_piece (P.plan plan.now) op k }
{
    let lim = plan.limits();
    let most = longest_piece(plan, &lim, op, k);
    blocks_within(plan.io(op), &lim, k, most).min(most).max(1)
}

fn cut_down(cut: u32, most: u32) -> u32
    requires { 1 ≤ most }
    ensures { result ≡ cut_to cut most }
{
    if cut == 0 {
        return most;
    }
    1 + (cut - 1) % most
}

/// The next piece of an op.
pub fn next_piece<P: Requests>(plan: &P, op: u32, k: u32, cut: u32) -> Bio
    requires op { op < length (P.plan plan.now).requests }
    requires number { op + 1 < 2 ^ 32 }
    requires more { k < (request_at (P.plan plan.now) op).count }
    ensures { result ≡ bio_of (P.plan plan.now) op k (cut_to cut (greatest_piece (P.plan plan.now) op k)) }
{
    let most = greatest_of(plan, op, k);
    let n = cut_down(cut, most);
    let site = plan.site(op, k);
    Bio::of(plan.io(op), op + 1, k, n, site.dev, site.lba)
}
