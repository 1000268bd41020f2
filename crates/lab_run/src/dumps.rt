//! Layouts of dumps, and how dumps end.

ghost use Rattle.std.specs.Prelude.{◌≡◌, IfErr};
ghost use Rattle.image_blocks.specs.Images.{units_open};
ghost use Rattle.image_blocks.specs.Places.{IsStretch, spec_of};
ghost use Rattle.image_text.specs.Dumps.{fits};
ghost use Rattle.lab_run.specs.Dumping.{IsOtherSize, dump_len, dumped_status};
ghost use Rattle.lab_run.specs.Texts.{imported_text};

use crate::refusal::Refusal;
use call_verdict::Status;
use dix_base::Source;
use image_blocks::{Image, Stretch, WalkFault};
use image_text::{Layout, fits, piece_len};
use report_text::{Line, add, add_number};

/// Whether the blocks of a place have what the layout holds.
pub(crate) fn fits_there(image: &Image, at: Stretch, layout: Layout) -> bool
    requires { IsStretch (units_open image.now) at }
    ensures { result ≡ fits layout (spec_of (units_open image.now) at.dev).ty }
{
    let unit = image.units()[at.dev as usize];
    fits(layout, unit.ty)
}

/// How many bytes a dump of a place has.
fn dump_len(image: &Image, at: Stretch, layout: Layout) -> u64
    requires { IsStretch (units_open image.now) at }
    ensures { result ≡ dump_len (units_open image.now) at layout }
{
    let unit = image.units()[at.dev as usize];
    u64::from(at.count) * piece_len(layout, unit) as u64
}

/// Refuses a source that is known to have other bytes than a dump of the place.
pub(crate) fn sized<S: Source>(
    input: &S,
    image: &Image,
    at: Stretch,
    layout: Layout,
) -> Result<(), Refusal>
    requires { IsStretch (units_open image.now) at }
    ensures { IfErr result (λ refusal. IsOtherSize refusal (S.left input.now) (dump_len (units_open image.now) at layout)) }
{
    let wanted = dump_len(image, at, layout);
    match input.len() {
        Some(has) if has != wanted => Err(Refusal::Size { has, wanted }),
        _ => Ok(()),
    }
}

/// The status of a dump that was written, or wasn't.
pub(crate) fn dumped(ended: Result<(), WalkFault>) -> Status
    ensures { result ≡ dumped_status ended }
{
    match ended {
        Ok(()) => Status::Whole,
        Err(WalkFault::Store) => Status::RigFault,
        Err(WalkFault::Sink) => Status::WriteFault,
    }
}

/// The line of a dump that was imported.
pub(crate) fn imported_line(count: u32) -> Line
    ensures { result.items ≡ imported_text count }
{
    let mut line = Line::new();
    add(&mut line, b"imported ");
    add_number(&mut line, u64::from(count));
    add(&mut line, b"\n");
    line
}
