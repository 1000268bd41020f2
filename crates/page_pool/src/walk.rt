//! A walk along the bytes of a list, part by part.

ghost use Rattle.std.specs.Prelude.{◌≡◌, ◌+◌, ◌≤◌, ◌<◌, List, ℕ, [], length};
ghost use Rattle.page_pool.specs.Cuts.{past};
ghost use Rattle.page_pool.specs.Places.{places_in};
ghost use Rattle.page_pool.specs.Walking.{InPages, Steps};
ghost use Rattle.page_pool.specs.Ahead.{IsAhead};

use crate::Seg;
use std::marker::Model;

/// A walk along the bytes of a list of segments. Contracts see the list of what is still ahead, its first segment
/// cut at the front.
///
/// It holds no pool, so that between two parts the pool may be written.
#[derive(Drop)]
pub struct Walk<'a> {
    segs: &'a [Seg],
    // so many bytes of these segments are behind
    at: u32,
}

impl<'a> Model for Walk<'a> {
    ghost use Rattle.std.specs.Prelude.{List};
    ghost use Rattle.page_pool.specs.declared.segs.Seg.{Seg};
    ghost use Rattle.page_pool.specs.Cuts.{past};
    ghost use Rattle.page_pool.specs.Places.{places_in};
    ghost use Rattle.page_pool.specs.Walking.{InPages};

    ghost Value = { List Seg };

    ghost view = { λ w. past w.at w.segs.now };

    ghost invariant = { λ w. InPages (places_in (past w.at w.segs.now)) };
}

impl<'a> Walk<'a> {
    pub(crate) fn new(segs: &'a [Seg], at: u32) -> Walk<'a>
        requires { InPages (places_in segs.now) }
        ensures { result ≡ past at segs.now }
    {
        Walk { segs, at }
    }

    /// The next part: the first segment that is ahead, cut to at most `most` bytes. `None` where `most` is 0 or the
    /// walk is at its end.
    pub fn next_part(&mut self, most: u32) -> Option<Seg>
        ensures { Steps most self.old result self.new }
    {
        let (segs, at) = (self.segs, self.at);
        if most == 0 {
            return None;
        }
        let (segs, at) = first_ahead(segs, at);
        self.segs = segs;
        self.at = at;
        let Some((first, _more)) = segs.split_first() else {
            return None;
        };
        let len = (first.len - at).min(most);
        if len == 0 {
            return None;
        }
        self.at = at + len;
        Some(Seg {
            page: first.page,
            off: first.off + at,
            len,
        })
    }

    /// Goes past the next bytes, so many of them or all that are ahead, without a look at any.
    pub fn advance(&mut self, count: u32)
        ensures { self.new ≡ past count self.old }
    {
        let mut left = count;
        while let Some(s) = self.next_part(left) {
            left -= s.len;
        }
    }
}

// The segments from the one that holds byte `at` on, and the byte's offset there.
fn first_ahead(segs: &[Seg], at: u32) -> (&[Seg], u32)
    ensures { IsAhead segs.now at result.0.now result.1 }
{
    let mut segs = segs;
    let mut at = at;
    while let Some((first, more)) = segs.split_first() {
        if at < first.len {
            return (segs, at);
        }
        at -= first.len;
        segs = more;
    }
    (segs, at)
}
