//! What a text holds: a list, or a script that has vectors.

ghost use Rattle.std.specs.Prelude.{◌≡◌, ◌≤◌, IfErr, IfOk, MatchResult, false, true};
ghost use Rattle.script_words.specs.Cuts.{lines_of};
ghost use Rattle.vector_lines.specs.Texts.{is_list};
ghost use Rattle.vector_runs.specs.Taken.{CauseNotHeld, CauseNotTaken, HasTaken, Holds, KeepsRules};

use crate::scripts::unplayed;
use call_refusal::Refusal;
use dix_base::{Source, read_all};
use script_laws::a_read_script_keeps_the_rules;
use script_text::{Script, read_script};
use std::alloc::Global;
use vector_lines::{VectorLine, is_list, read_list};

/// What a text without a fault holds.
#[derive(Drop)]
pub(crate) enum Wanted {
    /// The lines of a list.
    Lines(Vec<VectorLine>),
    /// A script, each of whose lines has vectors.
    Script(Script),
}

/// What a text holds that is a list.
fn list_of(alloc: Global, text: &[u8]) -> Result<Wanted, Refusal>
    requires { is_list (lines_of text.now) ≡ true }
    ensures held { MatchResult result (λ w. Holds w text.now) (λ r. CauseNotHeld r text.now) }
    ensures rules { IfOk result (λ w. KeepsRules w) }
{
    Ok(Wanted::Lines(read_list(alloc, text)?))
}

/// What a text holds that is no list.
fn script_of(alloc: Global, text: &[u8]) -> Result<Wanted, Refusal>
    requires { is_list (lines_of text.now) ≡ false }
    ensures held { MatchResult result (λ w. Holds w text.now) (λ r. CauseNotHeld r text.now) }
    ensures rules { IfOk result (λ w. KeepsRules w) }
{
    let script = read_script(alloc, text)?;
    a_read_script_keeps_the_rules(text, &script);
    match unplayed(&script) {
        None => Ok(Wanted::Script(script)),
        Some(fault) => Err(Refusal::Script(fault)),
    }
}

/// What a text holds: a list where its first line that isn't skipped is `dix vectors 1`, else a script.
fn wanted_of(alloc: Global, text: &[u8]) -> Result<Wanted, Refusal>
    ensures held { MatchResult result (λ w. Holds w text.now) (λ r. CauseNotHeld r text.now) }
    ensures rules { IfOk result (λ w. KeepsRules w) }
{
    if is_list(text) {
        list_of(alloc, text)
    } else {
        script_of(alloc, text)
    }
}

/// Reads the source to its end, but no further than one byte more than a text may have, and what it holds.
pub(crate) fn take_wanted<S: Source>(alloc: Global, source: &mut S) -> Result<Wanted, Refusal>
    ensures taken { IfOk result (λ w. HasTaken w (S.left source.old) (S.left source.new) (S.faults source.old) (S.faults source.new)) }
    ensures rules { IfOk result (λ w. KeepsRules w) }
    ensures cause { IfErr result (λ r. CauseNotTaken r (S.left source.old) (S.left source.new) (S.faults source.old) (S.faults source.new)) }
    ensures count { S.faults source.old ≤ S.faults source.new }
{
    let text = read_all(alloc, source)?;
    wanted_of(alloc, &text)
}
