//! The line of a refusal.

ghost use Rattle.std.specs.Prelude.{◌≡◌, ◌≤◌, ◌++◌, codes, decimal, length};
ghost use Rattle.rig_api.specs.Head.{fault_name};
ghost use Rattle.script_lines.specs.Kinds.{kind_name, kind_number};
ghost use Rattle.volume_table.specs.Faults.{kind_name as volume_kind_name, kind_number as volume_kind_number};
ghost use Rattle.call_refusal.specs.Texts.{fault_line, refusal_text};

use crate::refusal::Refusal;
use report_text::{Line, add, add_number};
use rig_api::RigFault;
use script_text::ScriptFault;
use volume_table::VolumeKind;

impl Refusal {
    /// The line that says it.
    pub fn line(self) -> Line
        ensures { result.items ≡ refusal_text self }
    {
        match self {
            Refusal::Script(fault) => script_line(fault),
            Refusal::Image(fault) => image_line(fault),
            Refusal::BadCapacity { dev } => device_line(dev),
            Refusal::Volume { entry, kind } => volume_line(entry, kind),
            Refusal::RigFault => plain_line(b"rig fault\n"),
            Refusal::Memory => plain_line(b"no memory\n"),
            Refusal::ReadFault => plain_line(b"read fault\n"),
        }
    }
}

fn plain_line(what: &[u8]) -> Line
    requires { length what.now ≤ 64 }
    ensures { result.items ≡ what.now }
{
    let mut line = Line::new();
    add(&mut line, what);
    line
}

/// What is at fault, its number, and the number and the name of the fault.
fn placed_line(what: &[u8], place: u32, number: u8, name: &[u8]) -> Line
    requires what { length what.now ≤ 16 }
    requires name { length name.now ≤ 16 }
    ensures { result.items ≡ fault_line what.now place number name.now }
{
    let mut line = Line::new();
    add(&mut line, what);
    add(&mut line, b" ");
    add_number(&mut line, u64::from(place));
    add(&mut line, b" ");
    add_number(&mut line, u64::from(number));
    add(&mut line, b" ");
    add(&mut line, name);
    add(&mut line, b"\n");
    line
}

fn script_line(fault: ScriptFault) -> Line
    ensures { result.items ≡ fault_line (codes "script") fault.line (kind_number fault.kind) (kind_name fault.kind) }
{
    placed_line(
        b"script",
        fault.line,
        fault.kind.number(),
        fault.kind.name().as_bytes(),
    )
}

fn image_line(fault: RigFault) -> Line
    ensures { result.items ≡ codes "image " ++ (fault_name fault ++ codes "\n") }
{
    let mut line = Line::new();
    add(&mut line, b"image ");
    add(&mut line, fault.name().as_bytes());
    add(&mut line, b"\n");
    line
}

fn device_line(dev: u32) -> Line
    ensures { result.items ≡ codes "device " ++ (decimal dev ++ codes " BadCapacity\n") }
{
    let mut line = Line::new();
    add(&mut line, b"device ");
    add_number(&mut line, u64::from(dev));
    add(&mut line, b" BadCapacity\n");
    line
}

fn volume_line(entry: u32, kind: VolumeKind) -> Line
    ensures { result.items ≡ fault_line (codes "volume") entry (volume_kind_number kind) (volume_kind_name kind) }
{
    placed_line(b"volume", entry, kind.number(), kind.name().as_bytes())
}
