//! Sense data as plain numbers.

ghost use Rattle.std.specs.Prelude.{◌≡◌, ◌<◌, ◌≤◌, ◌++◌, drop, length, IfErr, IfNone, IfOk, IfSome};
ghost use Rattle.pi_tuple.specs.declared.checks.Check.{Check};
ghost use Rattle.sense_codes.specs.Checks.{Tells};
ghost use Rattle.sense_codes.specs.Written.{Fits, descriptor, fault_of, written};
ghost use Rattle.sense_codes.specs.declared.Sense.{Sense as AnySense};
ghost use Rattle.sense_codes.specs.declared.layer.Layer.{Layer};
ghost use Rattle.pi_blocks.specs.Senses.{described, sense_fields, sense_of};

use arrayvec::ArrayVec;
use pi_tuple::Check;
use sense_codes::{Layer, Sense, SenseFault, layer_and_check};

/// Sense data as plain numbers (SPC-4, 4.5).
#[repr(C)]
#[derive(Clone, Copy, Debug)]
pub struct SenseFields {
    /// The INFORMATION field, or 0 where there is none.
    pub info: u64,
    /// The sense key, 0h to Fh.
    pub key: u8,
    /// The additional sense code.
    pub asc: u8,
    /// The additional sense code qualifier.
    pub ascq: u8,
    /// Whether there is an information: 0 where there is none.
    pub has_info: u8,
}

fn with_information(info: u64, s: &Sense) -> ArrayVec<u8, 20>
    ensures { result.items ≡ descriptor info s.now }
{
    let mut out = ArrayVec::new();
    out.try_extend_from_slice(&[0x72, s.key, s.asc, s.ascq, 0, 0, 0, 0x0C])
        .unwrap();
    out.try_extend_from_slice(&[0, 0x0A, 0x80, 0]).unwrap();
    out.try_extend_from_slice(&info.to_be_bytes()).unwrap();
    out
}

fn described(s: &Sense) -> ArrayVec<u8, 20>
    ensures { result.items ≡ described s.now }
{
    match s.info {
        Some(info) => with_information(info, s),
        None => {
            let mut out = ArrayVec::new();
            out.try_extend_from_slice(&[0x72, s.key, s.asc, s.ascq, 0, 0, 0, 0])
                .unwrap();
            out
        }
    }
}

impl SenseFields {
    fn sense(self) -> Sense
        ensures { result ≡ sense_of self }
    {
        Sense {
            key: self.key,
            asc: self.asc,
            ascq: self.ascq,
            info: if self.has_info == 0 {
                None
            } else {
                Some(self.info)
            },
        }
    }

    /// The numbers of a sense.
    pub fn of(sense: Sense) -> SenseFields
        ensures { result ≡ sense_fields sense }
    {
        let Sense {
            key,
            asc,
            ascq,
            info,
        } = sense;
        SenseFields {
            info: info.unwrap_or(0),
            key,
            asc,
            ascq,
            has_info: u8::from(info.is_some()),
        }
    }

    /// Writes the bytes of the sense to the front of `out`, 18 in fixed format, or 20 in descriptor format where the
    /// information wants 64 bits, and answers how many. The rest of `out` stays. Where the key isn't below 16 all
    /// stays, and the answer is `None`.
    pub fn encode(self, out: &mut [u8; 20]) -> Option<usize>
        ensures written { IfSome result (λ n. (self.key < 16) × (n ≡ length (written (sense_of self)))
            × (out.new ≡ written (sense_of self) ++ drop n out.old)) }
        ensures refused { IfNone result ((16 ≤ self.key) × (out.new ≡ out.old)) }
    {
        if self.key >= 16 {
            return None;
        }
        let bytes = self.sense().encode();
        let len = bytes.len();
        out[..len].copy_from_slice(bytes.as_slice());
        Some(len)
    }

    /// Writes the bytes of the sense in descriptor format, as a unit does whose D_SENSE bit is 1 (SPC-4, 4.5.2): 8, or 20
    /// where there is an information. It answers as `encode` does.
    pub fn describe(self, out: &mut [u8; 20]) -> Option<usize>
        ensures written { IfSome result (λ n. (self.key < 16) × (n ≡ length (described (sense_of self)))
            × (out.new ≡ described (sense_of self) ++ drop n out.old)) }
        ensures refused { IfNone result ((16 ≤ self.key) × (out.new ≡ out.old)) }
    {
        if self.key >= 16 {
            return None;
        }
        let bytes = described(&self.sense());
        let len = bytes.len();
        out[..len].copy_from_slice(bytes.as_slice());
        Some(len)
    }

    /// The sense that is written as these bytes, or the fault of bytes that none is written as.
    pub fn decode(bytes: &[u8]) -> Result<SenseFields, SenseFault>
        ensures found { IfOk result (λ f. Fits (sense_of f) × (bytes.now ≡ written (sense_of f))) }
        ensures only { (s : AnySense) → Fits s → bytes.now ≡ written s → result ≡ Ok (sense_fields s) }
        ensures fault { IfErr result (λ e. e ≡ fault_of bytes.now) }
    {
        Ok(SenseFields::of(Sense::decode(bytes)?))
    }

    /// Who found a block altered, and by which check, where the sense tells that.
    pub fn layer_and_check(self) -> Option<(Layer, Check)>
        ensures found { IfSome result (λ r. Tells r.0 r.1 (sense_of self)) }
        ensures only { (l : Layer) → (c : Check) → Tells l c (sense_of self)
            → result ≡ Some (record { 0 = l; 1 = c }) }
    {
        layer_and_check(&self.sense())
    }
}
