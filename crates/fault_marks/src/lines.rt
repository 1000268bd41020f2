//! Lines of a text.

ghost use Rattle.std.specs.Prelude.{◌≡◌, ◌≤◌, IfNone, IfSome, None, Some, length};
ghost use Rattle.fault_marks.specs.Words.{behind_newline, first_of, line_at, text_behind};
ghost use Rattle.script_words.specs.Cuts.{cut, lines_of};

use script_words::{next_line, split_once};

/// The text behind its first newline; nothing where it has none.
pub(crate) fn behind_newline(text: &[u8]) -> &[u8]
    ensures value { result.now ≡ behind_newline (cut 10 text.now) }
    ensures shorter { length result.now ≤ length text.now }
{
    match split_once(text, b'\n') {
        Some((_, behind)) => behind,
        None => &[],
    }
}

/// The text behind so many lines.
pub(crate) fn text_behind(text: &[u8], lines: u32) -> &[u8]
    ensures value { result.now ≡ text_behind lines text.now }
    ensures shorter { length result.now ≤ length text.now }
{
    let mut rest = text;
    let mut left = lines;
    while left > 0 {
        rest = behind_newline(rest);
        left -= 1;
    }
    rest
}

/// The line of this number, from 1, where the text has it.
pub(crate) fn line_at(text: &[u8], number: u32) -> Option<&[u8]>
    ensures some { IfSome result (λ l. line_at number text.now ≡ Some l.now) }
    ensures none { IfNone result (line_at number text.now ≡ None) }
{
    if number == 0 {
        return None;
    }
    match next_line(text_behind(text, number - 1)) {
        Some((line, _)) => Some(line),
        None => None,
    }
}
