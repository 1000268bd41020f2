//! A text that grows: words of all kinds.

ghost use Rattle.std.specs.Prelude.{◌≡◌, ◌++◌, ◌∷◌, [], OnOk, codes, decimal};
ghost use Rattle.std.specs.Fmt.{signed_decimal};
ghost use Rattle.hex.specs.Hex.{encode_lower};
ghost use Rattle.script_text.specs.Printed.{legs_text, long_tag_text, more_segs, seg_text, segs_text, switch_text, tag_text};

use page_pool::Seg;
use std::alloc::AllocError;
use stripe_volume::Leg;

/// The text of a script as far as it is printed.
#[derive(Drop)]
pub(crate) struct Text {
    pub(crate) bytes: Vec<u8>,
}

impl Text {
    pub(crate) fn add(&mut self, piece: &[u8]) -> Result<(), AllocError>
        ensures { OnOk result (self.new.bytes.items ≡ self.old.bytes.items ++ piece.now) }
    {
        self.bytes.extend_from_slice(piece)
    }

    pub(crate) fn number(&mut self, number: u64) -> Result<(), AllocError>
        ensures { OnOk result (self.new.bytes.items ≡ self.old.bytes.items ++ decimal number) }
    {
        let mut buffer = itoa::Buffer::new();
        self.add(buffer.format(number).as_bytes())
    }

    pub(crate) fn small(&mut self, number: u32) -> Result<(), AllocError>
        ensures { OnOk result (self.new.bytes.items ≡ self.old.bytes.items ++ decimal number) }
    {
        self.number(u64::from(number))
    }

    pub(crate) fn signed(&mut self, number: i64) -> Result<(), AllocError>
        ensures { OnOk result (self.new.bytes.items ≡ self.old.bytes.items ++ signed_decimal number) }
    {
        let mut buffer = itoa::Buffer::new();
        self.add(buffer.format(number).as_bytes())
    }

    fn byte(&mut self, byte: u8) -> Result<(), AllocError>
        ensures { OnOk result (self.new.bytes.items ≡ self.old.bytes.items ++ encode_lower (byte ∷ [])) }
    {
        let mut digits = [0u8; 2];
        match hex::encode_to_slice([byte].as_slice(), &mut digits) {
            Ok(()) => self.add(&digits),
            Err(_) => unreachable!(),
        }
    }

    /// Bytes as hexadecimal digits in lower case.
    pub(crate) fn hex(&mut self, bytes: &[u8]) -> Result<(), AllocError>
        ensures { OnOk result (self.new.bytes.items ≡ self.old.bytes.items ++ encode_lower bytes.now) }
    {
        for byte in bytes {
            self.byte(*byte)?;
        }
        Ok(())
    }

    pub(crate) fn tag(&mut self, tag: u16) -> Result<(), AllocError>
        ensures { OnOk result (self.new.bytes.items ≡ self.old.bytes.items ++ tag_text tag) }
    {
        self.hex(&tag.to_be_bytes())
    }

    pub(crate) fn long_tag(&mut self, tag: u32) -> Result<(), AllocError>
        ensures { OnOk result (self.new.bytes.items ≡ self.old.bytes.items ++ long_tag_text tag) }
    {
        self.hex(&tag.to_be_bytes())
    }

    pub(crate) fn switch(&mut self, is_on: bool) -> Result<(), AllocError>
        ensures { OnOk result (self.new.bytes.items ≡ self.old.bytes.items ++ switch_text is_on) }
    {
        if is_on {
            self.add(b" on")
        } else {
            self.add(b" off")
        }
    }

    pub(crate) fn seg(&mut self, seg: Seg) -> Result<(), AllocError>
        ensures { OnOk result (self.new.bytes.items ≡ self.old.bytes.items ++ seg_text seg) }
    {
        self.small(seg.page)?;
        self.add(b":")?;
        self.small(seg.off)?;
        self.add(b":")?;
        self.small(seg.len)
    }

    fn more_segs(&mut self, segs: &[Seg]) -> Result<(), AllocError>
        ensures { OnOk result (self.new.bytes.items ≡ self.old.bytes.items ++ more_segs segs.now) }
    {
        for seg in segs {
            self.add(b",")?;
            self.seg(*seg)?;
        }
        Ok(())
    }

    /// Segments with commas between them.
    pub(crate) fn segs(&mut self, segs: &[Seg]) -> Result<(), AllocError>
        ensures { OnOk result (self.new.bytes.items ≡ self.old.bytes.items ++ segs_text segs.now) }
    {
        match segs.split_first() {
            Some((first, more)) => {
                self.seg(*first)?;
                self.more_segs(more)
            }
            None => Ok(()),
        }
    }

    fn leg(&mut self, leg: Leg) -> Result<(), AllocError>
        ensures { OnOk result (self.new.bytes.items ≡ self.old.bytes.items ++ (codes " " ++ (decimal leg.dev ++ (codes ":" ++ decimal leg.at)))) }
    {
        self.add(b" ")?;
        self.small(leg.dev)?;
        self.add(b":")?;
        self.number(leg.at)
    }

    pub(crate) fn legs(&mut self, legs: &[Leg]) -> Result<(), AllocError>
        ensures { OnOk result (self.new.bytes.items ≡ self.old.bytes.items ++ legs_text legs.now) }
    {
        for leg in legs {
            self.leg(*leg)?;
        }
        Ok(())
    }
}
