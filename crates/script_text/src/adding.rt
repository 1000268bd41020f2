//! Lists that grow while a script is read.

ghost use Rattle.std.specs.Prelude.{◌≡◌, ◌++◌, ◌∷◌, [], IfErr, OnErr, OnOk};
ghost use Rattle.script_lines.specs.declared.kind.ScriptKind.{ScriptKind};

use script_lines::ScriptKind;

/// Adds an element, or wants memory.
pub(crate) fn add<T: Drop>(list: &mut Vec<T>, element: T) -> Result<(), ScriptKind>
    ensures added { OnOk result (list.new.items ≡ list.old.items ++ (element ∷ [])) }
    ensures memory { IfErr result (λ k. k ≡ ScriptKind.Memory) }
    ensures kept { OnErr result (list.new.items ≡ list.old.items) }
{
    match list.push(element) {
        Ok(()) => Ok(()),
        Err(_) => Err(ScriptKind::Memory),
    }
}
