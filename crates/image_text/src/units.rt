//! The units of an image, line by line.

ghost use Rattle.std.specs.Prelude.{OnOk, ◌≡◌};
ghost use Rattle.report_text.specs.Writing.{Wrote};
ghost use Rattle.image_text.specs.UnitText.{units_text};
ghost use Rattle.image_blocks.specs.Images.{units_open};

use crate::write_units;
use dix_base::{Failed, Sink};
use image_blocks::Image;

/// Writes a line for each unit, with the word by which `dix format` makes it. The sink passes on all that it
/// holds. `Failed` comes only where the sink's count of faults rose; then a prefix of the text was written.
pub fn show_units<O: Sink>(image: &Image, out: &mut O) -> Result<(), Failed>
    ensures wrote { Wrote O.taken O.faults (units_text (units_open image.now)) out.old out.new result }
    ensures handed { OnOk result (O.passed out.new ≡ O.taken out.new) }
{
    write_units(out, image.units())?;
    out.flush()
}
