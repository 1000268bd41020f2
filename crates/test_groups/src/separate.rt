//! Segments that share no byte.

ghost use Rattle.std.specs.Prelude.{◌≡◌, true};
ghost use Rattle.page_pool.specs.Places.{Apart, NoneTwice, places_in, places_of};

use page_pool::Seg;

/// Whether no byte of the segment is in one of these.
fn is_apart(before: &[Seg], s: Seg) -> bool
    ensures { result ≡ true → Apart (places_in before.now) (places_of s) }
{
    for t in before {
        if t.shares(s) {
            return false;
        }
    }
    true
}

/// Whether no byte of these segments is in one of those.
pub fn are_apart(these: &[Seg], those: &[Seg]) -> bool
    ensures { result ≡ true → Apart (places_in these.now) (places_in those.now) }
{
    for s in those {
        if !is_apart(these, *s) {
            return false;
        }
    }
    true
}

/// Whether no byte is there twice.
pub fn none_twice(segs: &[Seg]) -> bool
    ensures { result ≡ true → NoneTwice (places_in segs.now) }
{
    for i in 0..segs.len() {
        if !is_apart(&segs[..i], segs[i]) {
            return false;
        }
    }
    true
}
