//! The words of a line, by their places.

ghost use Rattle.std.specs.Prelude.{◌≡◌, ◌+◌, ◌≤◌, ◌++◌, ◌∷◌, [], ℕ, IfOk, List, MatchResult, None, OnOk, Option, length};
ghost use Rattle.fault_marks.specs.Marks.{first_begin, last_end};
ghost use Rattle.fault_marks.specs.Words.{spans_from, spans_of};

use std::alloc::{AllocError, Global};

/// The place of a word's first byte in its line, and the place behind its last.
#[derive(Clone, Copy, Debug, PartialEq, Eq)]
pub(crate) struct Span {
    pub(crate) begin: usize,
    pub(crate) end: usize,
}

/// Ends the word that has begun, if one has.
fn end_word(words: &mut Vec<Span>, begun: Option<usize>, at: usize) -> Result<(), AllocError>
    ensures { OnOk result (words.new.items ≡ words.old.items ++ spans_from begun at []) }
{
    match begun {
        Some(begin) => Ok(words.push(Span { begin, end: at })?),
        None => Ok(()),
    }
}

/// Goes on by one byte: where the word begins that has begun then.
fn go_on(
    words: &mut Vec<Span>,
    begun: Option<usize>,
    at: usize,
    byte: u8,
) -> Result<Option<usize>, AllocError>
    ensures { (rest : List ℕ) → IfOk result (λ r. words.new.items ++ spans_from r (at + 1) rest ≡ words.old.items ++ spans_from begun at (byte ∷ rest)) }
{
    if byte == b' ' {
        end_word(words, begun, at)?;
        return Ok(None);
    }
    match begun {
        Some(begin) => Ok(Some(begin)),
        None => Ok(Some(at)),
    }
}

/// The words of a line.
pub(crate) fn spans_of(alloc: Global, line: &[u8]) -> Result<Vec<Span>, AllocError>
    ensures { IfOk result (λ v. v.items ≡ spans_of line.now) }
{
    let mut words = Vec::new(alloc);
    let mut begun = None;
    let mut at = 0usize;
    for byte in line {
        begun = go_on(&mut words, begun, at, *byte)?;
        at += 1;
    }
    end_word(&mut words, begun, at)?;
    Ok(words)
}

/// Where the first word begins.
pub(crate) fn first_begin(words: &[Span]) -> usize
    ensures { result ≡ first_begin words.now }
{
    match words.first() {
        Some(word) => word.begin,
        None => 0,
    }
}

/// Where the last word ends.
pub(crate) fn last_end(words: &[Span]) -> usize
    ensures { result ≡ last_end words.now }
{
    let mut end = 0usize;
    for word in words {
        end = word.end;
    }
    end
}
