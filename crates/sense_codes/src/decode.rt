//! The sense of a list of bytes.

ghost use Rattle.std.specs.Prelude.{◌≡◌, ◌<◌, ◌^◌, ℕ, Bool, IfErr, IfOk, None, Ok, Some, false, if◌then◌else◌};
ghost use Rattle.sense_codes.specs.Written.{Fits, descriptor, fault_number, fault_of, fixed, is_short, written};
ghost use Rattle.sense_codes.specs.declared.Sense.{Sense};

use crate::Sense;

/// Why a list of bytes isn't sense data as they are written here.
#[derive(Clone, Copy, Debug, PartialEq, Eq)]
pub enum SenseFault {
    /// There are no bytes, or fewer than the response code asks for.
    Short,
    /// No sense is written like this.
    Form,
}

impl SenseFault {
    /// 1 for too few bytes, 2 for what no sense is written like.
    pub fn number(self) -> u8
        ensures { result ≡ fault_number self }
    {
        match self {
            SenseFault::Short => 1,
            SenseFault::Form => 2,
        }
    }
}

fn is_cut(bytes: &[u8]) -> bool
    ensures { result ≡ is_short bytes.now }
{
    let Some(code) = bytes.first() else {
        return true;
    };
    match *code {
        0x70 | 0xF0 => bytes.len() < 18,
        0x72 => bytes.len() < 20,
        _ => false,
    }
}

/// The fields at their places in fixed format, whatever the other bytes are.
fn of_fixed(bytes: &[u8], is_valid: bool) -> Option<Sense>
    ensures { (s : Sense) → (response info : ℕ) → info < 2 ^ 32 → bytes.now ≡ fixed response info s → s.info ≡ (if is_valid then Some info else None) → result ≡ Some s }
{
    if bytes.len() != 18 {
        return None;
    }
    let info = u32::from_be_bytes([bytes[3], bytes[4], bytes[5], bytes[6]]);
    Some(Sense {
        key: bytes[2],
        asc: bytes[12],
        ascq: bytes[13],
        info: if is_valid { Some(info as u64) } else { None },
    })
}

/// The fields at their places in descriptor format, whatever the other bytes are.
fn of_descriptor(bytes: &[u8]) -> Option<Sense>
    ensures { (s : Sense) → (info : ℕ) → info < 2 ^ 64 → bytes.now ≡ descriptor info s → s.info ≡ Some info → result ≡ Some s }
{
    if bytes.len() != 20 {
        return None;
    }
    let [a0, a1, a2, a3] = [bytes[12], bytes[13], bytes[14], bytes[15]];
    let [a4, a5, a6, a7] = [bytes[16], bytes[17], bytes[18], bytes[19]];
    Some(Sense {
        key: bytes[1],
        asc: bytes[2],
        ascq: bytes[3],
        info: Some(u64::from_be_bytes([a0, a1, a2, a3, a4, a5, a6, a7])),
    })
}

fn told(bytes: &[u8]) -> Option<Sense>
    ensures { (s : Sense) → Fits s → bytes.now ≡ written s → result ≡ Some s }
{
    let Some(code) = bytes.first() else {
        return None;
    };
    match *code {
        0x70 => of_fixed(bytes, false),
        0xF0 => of_fixed(bytes, true),
        0x72 => of_descriptor(bytes),
        _ => None,
    }
}

impl Sense {
    /// The sense that is written as these bytes, else why there is none: `Short` where there are
    /// no bytes or fewer than the response code asks for, which is 18 after 70h and F0h and 20
    /// after 72h, and `Form` where none is written like this for another reason.
    ///
    /// It undoes `encode`, and `encode` undoes it.
    pub fn decode(bytes: &[u8]) -> Result<Sense, SenseFault>
        ensures found { IfOk result (λ s. Fits s × (bytes.now ≡ written s)) }
        ensures only { (s : Sense) → Fits s → bytes.now ≡ written s → result ≡ Ok s }
        ensures fault { IfErr result (λ e. e ≡ fault_of bytes.now) }
        ensures good { IfOk result (λ _. is_short bytes.now ≡ false) }
    {
        if is_cut(bytes) {
            return Err(SenseFault::Short);
        }
        let Some(sense) = told(bytes) else {
            return Err(SenseFault::Form);
        };
        if sense.key >= 16 || sense.encode().as_slice() != bytes {
            return Err(SenseFault::Form);
        }
        Ok(sense)
    }
}
