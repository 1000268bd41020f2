//! Words of one form, to the end of a line.

ghost use Rattle.std.specs.Prelude.{◌≡◌, ◌⊎◌, ◌≤◌, IfOk, MatchResult, Ok, Err, vec_len};
ghost use Rattle.script_lines.specs.declared.kind.ScriptKind.{ScriptKind};
ghost use Rattle.script_lines.specs.Forms.{leg_word};
ghost use Rattle.script_lines.specs.Reading.{all_of, some_of};

use crate::{ScriptKind, Words};
use std::alloc::Global;
use stripe_volume::Leg;

/// What a word of a list is.
pub(crate) trait Listed: Drop {
    ghost use Rattle.std.specs.Prelude.{ℕ, List, Option};

    /// What a word stands for, where it is of the form.
    ghost reads: { List ℕ → Option Self };

    fn read(word: &[u8]) -> Option<Self>
        ensures { result ≡ reads word.now };
}

/// All words that are left, each of which is of the form.
fn all<T: Listed>(alloc: Global, words: &mut Words) -> Result<Vec<T>, ScriptKind>
    ensures { MatchResult result (λ v. all_of T.reads words.old ≡ Ok v.items) (λ k. (k ≡ ScriptKind.Memory) ⊎ (all_of T.reads words.old ≡ Err k)) }
{
    let mut found = Vec::new(alloc);
    while let Some(word) = words.next() {
        let Some(item) = T::read(word) else {
            return Err(ScriptKind::BadNumber);
        };
        if found.push(item).is_err() {
            return Err(ScriptKind::Memory);
        }
    }
    Ok(found)
}

/// All words that are left, at least one.
pub(crate) fn some<T: Listed>(alloc: Global, words: &mut Words) -> Result<Vec<T>, ScriptKind>
    ensures some { IfOk result (λ v. 1 ≤ vec_len v) }
    ensures value { MatchResult result (λ v. some_of T.reads words.old ≡ Ok v.items) (λ k. (k ≡ ScriptKind.Memory) ⊎ (some_of T.reads words.old ≡ Err k)) }
{
    let found = all(alloc, words)?;
    if found.is_empty() {
        return Err(ScriptKind::MissingWord);
    }
    Ok(found)
}
