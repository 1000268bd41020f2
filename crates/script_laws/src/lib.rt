//! The laws of the language of scripts: a script that is read, or made from a number, keeps the
//! rules; and what is printed of a script that keeps them is read as the same script.
#![tactic(auto)]

ghost use Rattle.std.specs.Prelude.{◌≡◌, ◌+◌, ◌≤◌, ◌∷◌, ◌++◌, ℕ, List, MatchResult, Ok, codes, length};
ghost use Rattle.volume_table.specs.Tables.{IsTable, Table};
ghost use Rattle.script_words.specs.Cuts.{lines_of, words_of};
ghost use Rattle.script_lines.specs.declared.kind.ScriptKind.{ScriptKind};
ghost use Rattle.script_text.specs.Generator.{big};
ghost use Rattle.script_text.specs.Language.{script_in};
ghost use Rattle.script_text.specs.Printed.{script_printed};
ghost use Rattle.script_text.specs.declared.script.Script.{Script as AnyScript};
ghost use Rattle.script_laws.specs.Examples.{BoundExamples, ReadExamples, StateExamples};
ghost use Rattle.script_laws.specs.Keeping.{Keeps};
ghost use Rattle.script_laws.specs.OverLines.{LiesInTree};
ghost use Rattle.script_laws.specs.RoundTrip.{IsSame, IsWithinLimits, ReadsAs};

use script_text::{Script, ScriptFault, ScriptKind, print_script, read_script};
use std::alloc::Global;

/// A law: each script of a text keeps the counts, the ranges, the crossings and the rules of the
/// language, and has a line number for each fault and each op.
pub fn a_read_script_keeps_the_rules(text: &[u8], script: &Script)
    requires { script_in text.now ≡ Ok script.now }
    ensures keeps { Keeps script.now }
    ensures numbers { length script.now.lines ≡ length script.now.faults + length script.now.ops }
{
    let _text = text;
    let _script = script;
}

/// A law: so does each script that is made from a number.
pub fn a_big_script_keeps_the_rules(n: u32, seed: u32, script: &Script)
    requires few { n ≤ 1024 }
    requires made { script.now ≡ big n seed }
    ensures keeps { Keeps script.now }
    ensures numbers { length script.now.lines ≡ length script.now.faults + length script.now.ops }
{
    let _number = (n, seed);
    let _script = script;
}

/// A law: each virtual block of an `over` line of a script that was read lies, by a table made of the script's entries,
/// where the tree of the inner volumes says that were read before it.
pub fn blocks_over_inner_volumes_lie_in_the_tree()
    ensures { (text : List ℕ) (s : AnyScript) (t : Table) (before after : List (List ℕ)) (line : List ℕ) (words : List (List ℕ)) → script_in text ≡ Ok s → IsTable t → t.entries ≡ s.entries
        → lines_of text ≡ before ++ (line ∷ after) → words_of line ≡ codes "over" ∷ words → LiesInTree t before words }
{}

/// A law: the text that is printed of a script that keeps the rules reads as the same script, apart
/// from the numbers of its lines, where the text is within the limits on a text and on a line.
pub fn a_printed_script_is_read(script: &Script)
    requires keeps { Keeps script.now }
    requires limits { IsWithinLimits (script_printed script.now) }
    ensures { ReadsAs (script_printed script.now) script.now }
{
    let _script = script;
}

/// The script of the text that is printed of a script: the same, apart from the numbers of its
/// lines, where that text is within the limits. Then the one error is want of memory.
pub fn read_back(alloc: Global, script: &Script) -> Result<Script, ScriptFault>
    requires { Keeps script.now }
    ensures { IsWithinLimits (script_printed script.now) → MatchResult result (λ found. IsSame script.now found) (λ fault. fault.kind ≡ ScriptKind.Memory) }
{
    match print_script(alloc, script) {
        Ok(text) => read_script(alloc, text.as_slice()),
        Err(_) => Err(ScriptFault {
            line: 0,
            kind: ScriptKind::Memory,
        }),
    }
}

/// A law: what the definition of the language says of some small texts, and the definition of
/// binding of their scripts over two devices.
pub fn small_texts()
    ensures read { ReadExamples }
    ensures bound { BoundExamples }
{}

/// A law: what the definition of the generator says of its first states.
pub fn first_states()
    ensures { StateExamples }
{}
