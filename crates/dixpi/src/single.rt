//! One tuple by itself.

ghost use Rattle.std.specs.Prelude.{◌≡◌, ◌≤◌, ◌⊎◌, true, false, Some, None};
ghost use Rattle.pi_tuple.specs.Tuples.{tuple_bytes, tuple_in};
ghost use Rattle.pi_blocks.specs.Blocks.{compared};
ghost use Rattle.pi_blocks.specs.Layouts.{are_flags, is_type, of_type};
ghost use Rattle.pi_blocks.specs.Single.{fields_of, tuple_of};

use crate::status::told;
use pi_blocks::{Found, TupleFields, Want, check};

/// Writes the eight bytes of a tuple as they travel.
#[unsafe(no_mangle)]
pub extern "C" fn dixpi_tuple_write(out: &mut [u8; 8], tuple: &TupleFields)
    ensures bytes { out.new ≡ tuple_bytes (tuple_of tuple.now) }
    ensures back { fields_of (tuple_in out.new) ≡ tuple.now }
{
    *out = tuple.to_bytes();
}

/// Reads the eight bytes of a tuple.
#[unsafe(no_mangle)]
pub extern "C" fn dixpi_tuple_read(eight: &[u8; 8], tuple: &mut TupleFields)
    ensures value { tuple.new ≡ fields_of (tuple_in eight.now) }
    ensures back { tuple_bytes (tuple_of tuple.new) ≡ eight.now }
{
    *tuple = TupleFields::from_bytes(eight);
}

/// Checks a tuple against a guard that was computed elsewhere, as that of block `i`. Answers `OK` or `DIFFERS`, or
/// `BAD_LAYOUT` where the type isn't 1 to 3, or `BAD_FIELD` where the flags name no check. `found` is written where it differs alone.
#[unsafe(no_mangle)]
pub extern "C" fn dixpi_check(
    pi_type: u32,
    eight: &[u8; 8],
    guard: u16,
    want: &Want,
    i: u64,
    found: &mut Found,
) -> u32
    ensures fine { result ≡ 0 → (is_type pi_type ≡ true) × (are_flags want.now.checks ≡ true)
        × (compared (of_type pi_type) want.now i guard (tuple_in eight.now) ≡ None) }
    ensures differs { result ≡ 1 → (is_type pi_type ≡ true) × (are_flags want.now.checks ≡ true)
        × (compared (of_type pi_type) want.now i guard (tuple_in eight.now) ≡ Some found.new) }
    ensures bad_layout { result ≡ 2 → is_type pi_type ≡ false }
    ensures bad_field { result ≡ 5 → (is_type pi_type ≡ true) × (are_flags want.now.checks ≡ false) }
    ensures one_of { (result ≤ 2) ⊎ (result ≡ 5) }
    ensures stays { ¬ (result ≡ 1) → found.new ≡ found.old }
{
    told(check(pi_type, eight, guard, want, i), found)
}
