//! Sense data.

ghost use Rattle.std.specs.Prelude.{◌≡◌, ◌<◌, ◌≤◌, ◌⊎◌, ◌++◌, Bool, drop, if◌then◌else◌, length, true};
ghost use Rattle.pi_tuple.specs.declared.checks.Check.{Check};
ghost use Rattle.sense_codes.specs.Checks.{Tells as TellsCheck};
ghost use Rattle.pi_blocks.specs.Seen.{Tells, TellsNone, is_cut_off};
ghost use Rattle.sense_codes.specs.Written.{Fits, fault_of, written};
ghost use Rattle.sense_codes.specs.declared.Sense.{Sense as AnySense};
ghost use Rattle.sense_codes.specs.declared.decode.SenseFault.TheVariants.{Short, Form};
ghost use Rattle.sense_codes.specs.declared.layer.Layer.{Layer};
ghost use Rattle.pi_blocks.specs.Blocks.{number_of};
ghost use Rattle.pi_blocks.specs.Senses.{described, sense_fields, sense_of};
ghost use Rattle.dixpi.specs.Layers.{by_target_of};

use crate::status::{BAD_FIELD, BAD_LENGTH, OK};
use pi_blocks::{Seen, SenseFields};
use pi_tuple::Check;
use sense_codes::{Layer, SenseFault};

/// Writes the bytes of sense data (SPC-4, 4.5) to the front of `out`, and their number to `len`: 18 in fixed format, 20
/// in descriptor format where the information wants 64 bits. Answers `OK`, or `BAD_FIELD` where the key isn't below 16.
#[unsafe(no_mangle)]
pub extern "C" fn dixpi_sense_encode(sense: &SenseFields, out: &mut [u8; 20], len: &mut u32) -> u32
    ensures written { result ≡ 0 → (sense.now.key < 16) × (len.new ≡ length (written (sense_of sense.now)))
        × (out.new ≡ written (sense_of sense.now) ++ drop len.new out.old) }
    ensures bad_field { result ≡ 5 → (16 ≤ sense.now.key) × (out.new ≡ out.old) × (len.new ≡ len.old) }
    ensures one_of { (result ≡ 0) ⊎ (result ≡ 5) }
{
    let Some(count) = sense.encode(out) else {
        return BAD_FIELD;
    };
    *len = count as u32;
    OK
}

/// Writes the bytes of sense data in descriptor format (SPC-4, 4.5.2) to the front of `out`, and their number to `len`: 8,
/// or 20 where there is an information. Answers as `dixpi_sense_encode` does.
#[unsafe(no_mangle)]
pub extern "C" fn dixpi_sense_describe(
    sense: &SenseFields,
    out: &mut [u8; 20],
    len: &mut u32,
) -> u32
    ensures written { result ≡ 0 → (sense.now.key < 16) × (len.new ≡ length (described (sense_of sense.now)))
        × (out.new ≡ described (sense_of sense.now) ++ drop len.new out.old) }
    ensures bad_field { result ≡ 5 → (16 ≤ sense.now.key) × (out.new ≡ out.old) × (len.new ≡ len.old) }
    ensures one_of { (result ≡ 0) ⊎ (result ≡ 5) }
{
    let Some(count) = sense.describe(out) else {
        return BAD_FIELD;
    };
    *len = count as u32;
    OK
}

/// Reads the bytes of sense data. Answers `OK`, or `BAD_LENGTH` where the response code asks for more bytes, and
/// `BAD_FIELD` where no sense is written like this for another reason.
#[unsafe(no_mangle)]
pub extern "C" fn dixpi_sense_decode(bytes: &[u8], sense: &mut SenseFields) -> u32
    ensures read { result ≡ 0 → Fits (sense_of sense.new) × (bytes.now ≡ written (sense_of sense.new)) }
    ensures only { (s : AnySense) → Fits s → bytes.now ≡ written s → (result ≡ 0) × (sense.new ≡ sense_fields s) }
    ensures bad_length { result ≡ 3 → fault_of bytes.now ≡ Short }
    ensures bad_field { result ≡ 5 → fault_of bytes.now ≡ Form }
    ensures one_of { (result ≡ 0) ⊎ ((result ≡ 3) ⊎ (result ≡ 5)) }
    ensures stays { ¬ (result ≡ 0) → sense.new ≡ sense.old }
{
    match SenseFields::decode(bytes) {
        Ok(fields) => {
            *sense = fields;
            OK
        }
        Err(SenseFault::Short) => BAD_LENGTH,
        Err(SenseFault::Form) => BAD_FIELD,
    }
}

/// Finds what sense data tell as devices send them (SPC-4, 4.5): response codes 70h to 73h, in buffers of any length from
/// the qualifier on, with any vendor's bytes behind it. The information is that of the fixed format or of the first
/// information descriptor, where it is valid. `deferred` is 1 where the sense is of an earlier command. Answers `OK`,
/// `BAD_LENGTH` where the bytes end before the qualifier, or `BAD_FIELD` where no sense has their response code; then
/// nothing is written.
#[unsafe(no_mangle)]
pub extern "C" fn dixpi_sense_find(bytes: &[u8], sense: &mut SenseFields, deferred: &mut u32) -> u32
    ensures found { result ≡ 0 → (s : AnySense) × (late : Bool) × Tells bytes.now s late
        × (sense.new ≡ sense_fields s) × (deferred.new ≡ (if late then 1 else 0)) }
    ensures bad_length { result ≡ 3 → is_cut_off bytes.now ≡ true }
    ensures bad_field { result ≡ 5 → TellsNone bytes.now Form }
    ensures one_of { (result ≡ 0) ⊎ ((result ≡ 3) ⊎ (result ≡ 5)) }
    ensures stays { ¬ (result ≡ 0) → (sense.new ≡ sense.old) × (deferred.new ≡ deferred.old) }
{
    match Seen::find(bytes) {
        Ok(seen) => {
            *sense = SenseFields::of(seen.sense);
            *deferred = u32::from(seen.is_deferred);
            OK
        }
        Err(SenseFault::Short) => BAD_LENGTH,
        Err(SenseFault::Form) => BAD_FIELD,
    }
}

fn number_of_check(check: Check) -> u32
    ensures { result ≡ number_of check }
{
    match check {
        Check::Guard => 2,
        Check::AppTag => 4,
        Check::RefTag => 8,
    }
}

fn is_target(layer: Layer) -> u32
    ensures { result ≡ by_target_of layer }
{
    match layer {
        Layer::Adapter => 0,
        Layer::Target => 1,
    }
}

/// The flag of the check that failed, where the sense tells that one did (additional sense code 10h), else 0. `by_target` is 1 where
/// the target made it (ABORTED COMMAND), and 0 where the adapter did (ILLEGAL REQUEST); it is written only then.
#[unsafe(no_mangle)]
pub extern "C" fn dixpi_sense_check(sense: &SenseFields, by_target: &mut u32) -> u32
    ensures found { ¬ (result ≡ 0) → (l : Layer) × (c : Check) × TellsCheck l c (sense_of sense.now) }
    ensures only { (l : Layer) → (c : Check) → TellsCheck l c (sense_of sense.now)
        → (result ≡ number_of c) × (by_target.new ≡ by_target_of l) }
    ensures stays { result ≡ 0 → by_target.new ≡ by_target.old }
{
    match sense.layer_and_check() {
        None => 0,
        Some((layer, check)) => {
            *by_target = is_target(layer);
            number_of_check(check)
        }
    }
}
