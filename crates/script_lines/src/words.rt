//! The words of a line, one after another.

ghost use Rattle.std.specs.Prelude.{◌≡◌, ◌∷◌, ◌≤◌, [], IfErr, IfNone, IfOk, IfSome, OnOk};
ghost use Rattle.script_lines.specs.declared.kind.ScriptKind.{ScriptKind};
ghost use Rattle.script_lines.specs.Reading.{HasMore, Reads, ReadsUnless, either, fixed, value};
ghost use Rattle.script_words.specs.Cuts.{words_of};
ghost use Rattle.script_words.specs.Hexes.{byte_in, hex_in, long_tag_in, tag_in};
ghost use Rattle.script_words.specs.Numbers.{number_within};
ghost use Rattle.script_words.specs.Places.{seg_in, segs_in, spot_in, word32, word64};

use crate::{ScriptKind, SegList};
use dix_base::ByteList;
use fault_schedule::ShortBytes;
use page_pool::Seg;
use script_words::next_word;
use std::alloc::Global;
use std::marker::Model;

/// The words of a line that are still to be read. A contract sees them as a list.
#[derive(Drop)]
pub struct Words<'a> {
    rest: &'a [u8],
}

impl<'a> Model for Words<'a> {
    ghost use Rattle.std.specs.Prelude.{ℕ, List};
    ghost use Rattle.script_words.specs.Cuts.{words_of};

    ghost Value = { List (List ℕ) };

    ghost view = { λ w. words_of w.rest.now };
}

impl<'a> Words<'a> {
    /// The words of this line.
    pub fn of(line: &'a [u8]) -> Words<'a>
        ensures { result ≡ words_of line.now }
    {
        Words { rest: line }
    }

    /// The next word, where there is one.
    pub fn next(&mut self) -> Option<&'a [u8]>
        ensures some { IfSome result (λ w. self.old ≡ w.now ∷ self.new) }
        ensures none { IfNone result (self.old ≡ []) }
        ensures rest { IfNone result (self.new ≡ []) }
    {
        match next_word(self.rest) {
            Some((word, rest)) => {
                self.rest = rest;
                Some(word)
            }
            None => None,
        }
    }
}

impl<'a> Words<'a> {
    /// The next word, which has to be there.
    pub(crate) fn word(&mut self) -> Result<&'a [u8], ScriptKind>
        ensures found { IfOk result (λ w. self.old ≡ w.now ∷ self.new) }
        ensures missing { IfErr result (λ k. (k ≡ ScriptKind.MissingWord) × (self.old ≡ [])) }
    {
        match self.next() {
            Some(word) => Ok(word),
            None => Err(ScriptKind::MissingWord),
        }
    }

    /// This very word.
    pub(crate) fn fixed(&mut self, text: &[u8]) -> Result<(), ScriptKind>
        ensures found { OnOk result (fixed text.now self.old ≡ Ok self.new) }
        ensures fault { IfErr result (λ k. fixed text.now self.old ≡ Err k) }
    {
        if self.word()? == text {
            Ok(())
        } else {
            Err(ScriptKind::UnknownWord)
        }
    }

    /// One of two words: whether it is the first.
    pub(crate) fn either(&mut self, first: &[u8], second: &[u8]) -> Result<bool, ScriptKind>
        ensures { Reads (either first.now second.now self.old) result self.new }
    {
        let word = self.word()?;
        if word == first {
            return Ok(true);
        }
        if word == second {
            return Ok(false);
        }
        Err(ScriptKind::UnknownWord)
    }

    /// A number of 64 bits in this range.
    #[tactic(auto, using(crate::proofs::Ranges::not_below))]
    pub(crate) fn number(&mut self, low: u64, high: u64) -> Result<u64, ScriptKind>
        ensures value { Reads (value (number_within low high) self.old) result self.new }
        ensures low { IfOk result (λ n. low ≤ n) }
        ensures high { IfOk result (λ n. n ≤ high) }
    {
        match script_words::number_within(self.word()?, low, high) {
            Some(number) => Ok(number),
            None => Err(ScriptKind::BadNumber),
        }
    }

    /// A number of 32 bits in this range.
    pub(crate) fn small(&mut self, low: u32, high: u32) -> Result<u32, ScriptKind>
        ensures value { Reads (value (number_within low high) self.old) result self.new }
        ensures low { IfOk result (λ n. low ≤ n) }
        ensures high { IfOk result (λ n. n ≤ high) }
    {
        let value = self.number(u64::from(low), u64::from(high))?;
        Ok(value as u32)
    }

    /// A segment, P:O:L.
    pub(crate) fn segment(&mut self) -> Result<Seg, ScriptKind>
        ensures { Reads (value seg_in self.old) result self.new }
    {
        match script_words::segment(self.word()?) {
            Some(seg) => Ok(seg),
            None => Err(ScriptKind::BadNumber),
        }
    }

    /// A byte of two hexadecimal digits.
    pub(crate) fn byte(&mut self) -> Result<u8, ScriptKind>
        ensures { Reads (value byte_in self.old) result self.new }
    {
        match script_words::byte(self.word()?) {
            Some(byte) => Ok(byte),
            None => Err(ScriptKind::BadNumber),
        }
    }

    /// An application tag of four hexadecimal digits.
    pub(crate) fn tag(&mut self) -> Result<u16, ScriptKind>
        ensures { Reads (value tag_in self.old) result self.new }
    {
        match script_words::tag(self.word()?) {
            Some(tag) => Ok(tag),
            None => Err(ScriptKind::BadNumber),
        }
    }

    /// A reference tag of eight hexadecimal digits.
    pub(crate) fn long_tag(&mut self) -> Result<u32, ScriptKind>
        ensures { Reads (value long_tag_in self.old) result self.new }
    {
        match script_words::long_tag(self.word()?) {
            Some(tag) => Ok(tag),
            None => Err(ScriptKind::BadNumber),
        }
    }

    /// A page and an offset, P:O.
    pub(crate) fn spot(&mut self) -> Result<(u32, u32), ScriptKind>
        ensures { Reads (value spot_in self.old) result self.new }
    {
        match script_words::spot(self.word()?) {
            Some(spot) => Ok(spot),
            None => Err(ScriptKind::BadNumber),
        }
    }

    /// 1 to 32 bytes in hexadecimal digits.
    pub(crate) fn short_hex(&mut self) -> Result<ShortBytes, ScriptKind>
        ensures { Reads (value (hex_in 32) self.old) result self.new }
    {
        match script_words::short_hex(self.word()?) {
            Some(bytes) => Ok(bytes),
            None => Err(ScriptKind::BadNumber),
        }
    }

    /// 1 to 512 bytes in hexadecimal digits.
    pub(crate) fn hex(&mut self, alloc: Global) -> Result<ByteList, ScriptKind>
        ensures { ReadsUnless (value (hex_in 512) self.old) result self.new }
    {
        match script_words::hex_bytes(alloc, self.word()?)? {
            Some(bytes) => Ok(ByteList::from_vec(bytes)),
            None => Err(ScriptKind::BadNumber),
        }
    }

    /// A number of 32 bits.
    pub(crate) fn word32(&mut self) -> Result<u32, ScriptKind>
        ensures { Reads (value word32 self.old) result self.new }
    {
        self.small(0, 0xffff_ffff)
    }

    /// A number of 64 bits.
    pub(crate) fn word64(&mut self) -> Result<u64, ScriptKind>
        ensures { Reads (value word64 self.old) result self.new }
    {
        self.number(0, 0xffff_ffff_ffff_ffff)
    }

    /// A list of segments.
    pub(crate) fn segments(&mut self, alloc: Global) -> Result<SegList, ScriptKind>
        ensures { ReadsUnless (value segs_in self.old) result self.new }
    {
        match script_words::segments(alloc, self.word()?)? {
            Some(segs) => Ok(SegList::from_vec(segs)),
            None => Err(ScriptKind::BadNumber),
        }
    }

    /// The line ends here.
    pub(crate) fn end(&mut self) -> Result<(), ScriptKind>
        ensures ends { OnOk result (self.old ≡ []) }
        ensures extra { IfErr result (λ k. (k ≡ ScriptKind.ExtraWord) × HasMore self.old) }
    {
        match self.next() {
            None => Ok(()),
            Some(_) => Err(ScriptKind::ExtraWord),
        }
    }
}
