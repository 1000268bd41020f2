//! What the data of READ CAPACITY(16) tells.

ghost use Rattle.std.specs.Prelude.{◌≡◌, ◌+◌, ◌<◌, ◌^◌, IfSome, is_some, ◌||◌, not, eqb, length};
ghost use Rattle.rig_discovery.specs.Answers.{info_with, is_fault, told_by, type_told};

use pi_tuple::PiType;
use rig_api::Outcome;
use volume_table::DeviceInfo;

/// The type that byte 12 tells: PROT_EN in bit 0 and P_TYPE in bits 3 to 1 (SBC-3, 5.16.2).
fn type_told(byte: u8) -> Option<PiType>
    ensures { result ≡ type_told byte }
{
    let number = byte / 2 % 8;
    if byte % 2 == 0 {
        return if number == 0 {
            Some(PiType::Zero)
        } else {
            None
        };
    }
    match number {
        0 => Some(PiType::One),
        1 => Some(PiType::Two),
        2 => Some(PiType::Three),
        _ => None,
    }
}

/// Whether the answer is at fault beside its type: a sense, another block size, a last address of
/// all ones or one before the first.
fn is_fault(first: u64, size: u32, outcome: Outcome, last: u64, told: u32) -> bool
    ensures { result ≡ is_fault first size outcome last told }
{
    outcome.sense.is_some() || told != size || last == u64::MAX || last < first
}

/// The device of this first address and block size that answered so, or `None` where the answer is
/// at fault.
pub(crate) fn told_by(
    first: u64,
    size: u32,
    outcome: Outcome,
    bytes: &[u8; 32],
) -> Option<DeviceInfo>
    ensures value { result ≡ told_by first size outcome bytes.now }
    ensures end { IfSome result (λ i. i.first + i.blocks < 2 ^ 64) }
{
    let last = u64::from_be_bytes([
        bytes[0], bytes[1], bytes[2], bytes[3], bytes[4], bytes[5], bytes[6], bytes[7],
    ]);
    let told = u32::from_be_bytes([bytes[8], bytes[9], bytes[10], bytes[11]]);
    if is_fault(first, size, outcome, last, told) {
        return None;
    }
    let ty = type_told(bytes[12])?;
    Some(DeviceInfo {
        ty,
        blocks: last - first + 1,
        size,
        first,
    })
}
