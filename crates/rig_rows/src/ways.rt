//! Blocks on their ways between host and medium.

ghost use Rattle.std.specs.Prelude.{◌≡◌};

use crate::faults::faults_of;
use crate::modes::mode_of;
use crate::units::type_of;
use crate::whole_way::{way_in, way_out};
use bio_core::Why;
use block_path::{Mode, Route};
use fault_schedule::Label;
use integrity_payload::Owner;
use pi_tuple::{Check, PiType};
use std::alloc::{AllocError, Global};
use test_table::{Words, array_of, hex_of};

/// The block of virtual block 0, at address 100. A mode whose protect field is 0 has 1 in its place.
fn route(ty: PiType, mode: Mode) -> Route
    ensures size { result.size ≡ 512 }
    ensures lba { result.lba ≡ 100 }
    ensures protect { result.mode.protect ≡ 1 }
{
    Route {
        label: Label { op: 1, k: 0 },
        virt: 0,
        dev: 0,
        lba: 100,
        ty,
        size: 512,
        mode: Mode { protect: 1, ..mode },
    }
}

fn check_word(check: Check) -> &'static str {
    match check {
        Check::Guard => "guard",
        Check::AppTag => "app",
        Check::RefTag => "ref",
    }
}

/// Who finds what.
fn why_words(why: Why) -> (&'static str, &'static str) {
    match why {
        Why::Adapter(check) => ("adapter", check_word(check)),
        Why::Target(check) => ("target", check_word(check)),
        Why::Block(check) => ("block", check_word(check)),
        Why::App(check) => ("app", check_word(check)),
        _ => ("other", "-"),
    }
}

/// Why the block failed, or its tuple.
fn told(alloc: Global, why: Option<Why>, frame: &[u8; 520]) -> Result<String, AllocError> {
    match why {
        Some(why) => {
            let (layer, check) = why_words(why);
            format!(in alloc; "{layer} {check}")
        }
        None => hex_of(alloc, &frame[512..]),
    }
}

/// A block of zeros with this last byte and this tuple, in sixteen digits.
fn frame(last: u8, tuple: &str) -> [u8; 520] {
    let mut frame = [0; 520];
    frame[511] = last;
    if let Some(bytes) = array_of::<8>(tuple) {
        frame[512..].copy_from_slice(&bytes);
    }
    frame
}

fn owner_of(word: &str) -> Owner {
    if word == "block" {
        Owner::Block
    } else {
        Owner::App
    }
}

/// The type of the unit, and how tuples travel.
#[derive(Clone, Copy)]
pub(crate) struct Way {
    ty: PiType,
    mode: Mode,
}

impl Way {
    /// The way of a word for the type, and five for the mode.
    pub(crate) fn of(words: &str) -> Way {
        let mut words = Words::of(words);
        Way {
            ty: type_of(words.word()),
            mode: mode_of(&mut words),
        }
    }

    /// What becomes of a block on its way out.
    pub(crate) fn written(self, alloc: Global, words: &str) -> Result<String, AllocError> {
        let mut words = Words::of(words);
        let last = (words.small() % 256) as u8;
        let mut frame = frame(last, words.word());
        let tamper = faults_of(alloc, &mut words)?;
        let why = way_out(&route(self.ty, self.mode), &tamper, &mut frame);
        told(alloc, why, &frame)
    }

    /// What becomes of a stored block of zeros on its way in.
    pub(crate) fn read(self, alloc: Global, words: &str) -> Result<String, AllocError> {
        let mut words = Words::of(words);
        let owner = owner_of(words.word());
        let mut frame = frame(0, words.word());
        let tamper = faults_of(alloc, &mut words)?;
        let why = way_in(&route(self.ty, self.mode), &tamper, owner, &mut frame);
        told(alloc, why, &frame)
    }
}
