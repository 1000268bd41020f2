//! Why a command isn't carried out.

ghost use Rattle.std.specs.Prelude.{◌≡◌, ◌+◌, ◌^◌, ◌<◌, ◌≤◌, ◌+ℤ◌, ◌&&◌, [], ℕ, pos, not, eqb, true, false, IfSome, IfNone, OnSome, IfOk, IfErr, OnOk, None, Some};
ghost use Rattle.pi_tuple.specs.Finds.{is_zero};
ghost use Rattle.target_model.specs.Served.{FitsFrame, HasBlocks};
ghost use Rattle.rig_api.specs.Target.{bytes_of, first_of, has_blocks, illegal, move_refusals, refusals_of, shift_by_first, wire_address};
ghost use Rattle.rig_api.specs.declared.request.Request.TheVariants.{Verify};
ghost use Rattle.rig_api.specs.declared.units.UnitSpec.{UnitSpec};
ghost use Rattle.pi_tuple.specs.declared.TheConstants.{LARGEST_BLOCK};

use cdb_codec::{Cdb, Rw};
use fault_schedule::{Crossing, Label, Tamper};
use pi_tuple::PiType;
use rig_api::{UnitSpec, is_foreign, sent_size};
use sense_codes::codes::{INVALID_FIELD, INVALID_OPCODE, OUT_OF_RANGE};

fn shift_by_first(tamper: &Tamper, at: Crossing, labels: &[Label]) -> i64
    ensures { result ≡ shift_by_first tamper.now at labels.now }
{
    match labels.first() {
        Some(label) => tamper.shift(at, label.op),
        None => 0,
    }
}

/// The LBA after a shift, unless no unit has it.
fn shifted(lba: u64, by: i64) -> Option<u64>
    ensures found { IfSome result (λ a. pos lba +ℤ by ≡ pos a) }
    ensures none { IfNone result ((unit : UnitSpec) → (n : ℕ) → unit.first + unit.blocks < 2 ^ 64 → has_blocks unit (pos lba +ℤ by) n ≡ false) }
{
    lba.checked_add_signed(by)
}

/// The LBA of a command's first block after the shift on the wire, unless no unit has it.
pub(crate) fn wire_lba(tamper: &Tamper, labels: &[Label], c: Rw) -> Option<u64>
    ensures found { IfSome result (λ a. wire_address tamper.now labels.now c ≡ pos a) }
    ensures none { IfNone result ((unit : UnitSpec) → (n : ℕ) → unit.first + unit.blocks < 2 ^ 64 → has_blocks unit (wire_address tamper.now labels.now c) n ≡ false) }
{
    shifted(
        c.lba,
        shift_by_first(tamper, Crossing::AdapterToTarget, labels),
    )
}

/// Where the block at this LBA is stored or fetched, after the shift at this crossing of the medium,
/// unless no unit has it.
fn medium_lba(tamper: &Tamper, at: Crossing, labels: &[Label], lba: u64) -> Option<u64>
    ensures found { IfSome result (λ a. pos lba +ℤ shift_by_first tamper.now at labels.now ≡ pos a) }
    ensures none { IfNone result ((unit : UnitSpec) → (n : ℕ) → unit.first + unit.blocks < 2 ^ 64
        → has_blocks unit (pos lba +ℤ shift_by_first tamper.now at labels.now) n ≡ false) }
{
    shifted(lba, shift_by_first(tamper, at, labels))
}

/// Whether the unit has so many blocks from this LBA on.
fn has_blocks(unit: UnitSpec, lba: u64, count: u32) -> bool
    ensures value { result ≡ has_blocks unit (pos lba) count }
    ensures inside { result ≡ true → HasBlocks unit lba count }
{
    unit.first <= lba && lba as u128 + count as u128 <= unit.first as u128 + unit.blocks as u128
}

fn lacks_tuples(unit: UnitSpec, c: Rw) -> bool
    ensures value { result ≡ is_zero unit.ty && not (eqb c.protect 0) }
    ensures fits { result ≡ false → FitsFrame unit c }
{
    unit.ty == PiType::Zero && c.protect != 0
}

/// The bytes that a command transfers.
fn bytes_of(size: u32, c: Rw) -> u64
    requires { size ≤ LARGEST_BLOCK }
    ensures { result ≡ bytes_of size c }
{
    c.n as u64 * sent_size(c.protect, size) as u64
}

/// Where the blocks of a command of so many from this LBA on are stored or fetched, unless one of
/// them lies outside the unit; a command of none moves none.
fn moved_to(
    unit: UnitSpec,
    tamper: &Tamper,
    at: Crossing,
    labels: &[Label],
    lba: u64,
    count: u32,
) -> Option<u64>
    requires fits { unit.first + unit.blocks < 2 ^ 64 }
    requires there { HasBlocks unit lba count }
    ensures none { IfNone result ((not (eqb count 0) && not (has_blocks unit (pos lba +ℤ shift_by_first tamper.now at labels.now) count)) ≡ true) }
    ensures some { OnSome result ((not (eqb count 0) && not (has_blocks unit (pos lba +ℤ shift_by_first tamper.now at labels.now) count)) ≡ false) }
    ensures address { IfSome result (λ a. 0 < count → pos lba +ℤ shift_by_first tamper.now at labels.now ≡ pos a) }
    ensures inside { IfSome result (λ a. HasBlocks unit a count) }
{
    if count == 0 {
        return Some(lba);
    }
    let Some(to) = medium_lba(tamper, at, labels, lba) else {
        return None;
    };
    if !has_blocks(unit, to, count) {
        return None;
    }
    Some(to)
}

/// Two LBAs of the first block of a write or a read of so many bytes: as the target is told it, and
/// where it is stored or fetched, after the shift at this crossing of the medium; or the
/// additional sense code of the first refusal.
pub(crate) fn taken(
    unit: UnitSpec,
    cdb: Cdb,
    c: Rw,
    tamper: &Tamper,
    at: Crossing,
    labels: &[Label],
    bytes: usize,
) -> Result<(u64, u64), u8>
    requires size { unit.size ≤ LARGEST_BLOCK }
    requires fits { unit.first + unit.blocks < 2 ^ 64 }
    ensures refused { IfErr result (λ asc. first_of
        (move_refusals unit cdb c (wire_address tamper.now labels.now c) (wire_address tamper.now labels.now c +ℤ shift_by_first tamper.now at labels.now) bytes) ≡ Some (illegal asc)) }
    ensures taken { OnOk result (first_of
        (move_refusals unit cdb c (wire_address tamper.now labels.now c) (wire_address tamper.now labels.now c +ℤ shift_by_first tamper.now at labels.now) bytes) ≡ None) }
    ensures address { IfOk result (λ a. wire_address tamper.now labels.now c ≡ pos a.0) }
    ensures moved { IfOk result (λ a. 0 < c.n → wire_address tamper.now labels.now c +ℤ shift_by_first tamper.now at labels.now ≡ pos a.1) }
    ensures inside { IfOk result (λ a. HasBlocks unit a.0 c.n) }
    ensures there { IfOk result (λ a. HasBlocks unit a.1 c.n) }
    ensures frame { OnOk result (FitsFrame unit c) }
    ensures room { OnOk result (bytes ≡ bytes_of unit.size c) }
{
    if is_foreign(unit.ty, cdb) {
        return Err(INVALID_OPCODE);
    }
    if lacks_tuples(unit, c) {
        return Err(INVALID_FIELD);
    }
    let Some(lba) = wire_lba(tamper, labels, c) else {
        return Err(OUT_OF_RANGE);
    };
    if !has_blocks(unit, lba, c.n) {
        return Err(OUT_OF_RANGE);
    }
    let Some(to) = moved_to(unit, tamper, at, labels, lba, c.n) else {
        return Err(OUT_OF_RANGE);
    };
    if bytes as u64 != bytes_of(unit.size, c) {
        return Err(INVALID_FIELD);
    }
    Ok((lba, to))
}

/// The additional sense code of the first refusal of VERIFY, if there is one.
pub(crate) fn taken_verify(unit: UnitSpec, cdb: Cdb, c: Rw) -> Result<(), u8>
    ensures refused { IfErr result (λ asc. first_of (refusals_of unit cdb (Verify c) [] [] 0 0) ≡ Some (illegal asc)) }
    ensures taken { OnOk result (first_of (refusals_of unit cdb (Verify c) [] [] 0 0) ≡ None) }
    ensures inside { OnOk result (HasBlocks unit c.lba c.n) }
    ensures frame { OnOk result (FitsFrame unit c) }
{
    if is_foreign(unit.ty, cdb) {
        return Err(INVALID_OPCODE);
    }
    if lacks_tuples(unit, c) {
        return Err(INVALID_FIELD);
    }
    if !has_blocks(unit, c.lba, c.n) {
        return Err(OUT_OF_RANGE);
    }
    Ok(())
}
