//! Tuples of a payload.

ghost use Rattle.std.specs.Prelude.{◌≡◌, true};
ghost use Rattle.integrity_payload.specs.Payloads.{AreWholeTuples, IsPayload};

use integrity_payload::Payload;
use page_pool::Seg;

/// Whether each segment holds whole tuples.
fn whole_tuples(segs: &[Seg]) -> bool
    ensures { result ≡ true → AreWholeTuples segs.now }
{
    for s in segs {
        if s.len % 8 != 0 {
            return false;
        }
    }
    true
}

/// Whether the payload's segments hold its tuples, each in one of them.
pub fn is_payload(pi: &Payload) -> bool
    ensures { result ≡ true → IsPayload pi.now }
{
    pi.tuples.total() as u64 == 8 * pi.count as u64 && whole_tuples(pi.tuples.as_slice())
}
