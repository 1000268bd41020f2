//! The mode of a run.

ghost use Rattle.std.specs.Prelude.{◌≡◌};
ghost use Rattle.script_text.specs.Language.{mode_of};

use block_path::Mode;
use script_lines::ModeLine;

/// The mode that its line says, with the application tag that is expected.
pub(crate) fn mode_of(line: ModeLine, app: u16, mask: u16) -> Mode
    ensures { result ≡ mode_of line app mask }
{
    Mode {
        kind: line.kind,
        dix: line.dix,
        dif: line.dif,
        protect: line.protect,
        app,
        mask,
    }
}
