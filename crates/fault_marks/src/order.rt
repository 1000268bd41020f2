//! Lines out of their place.

ghost use Rattle.std.specs.Prelude.{◌≡◌, Bool};
ghost use Rattle.script_text.specs.Language.{is_comment};
ghost use Rattle.script_words.specs.Cuts.{lines_of, words_of};
ghost use Rattle.fault_marks.specs.Closer.{is_version, line_version, says, says_by, told_or};

use script_lines::{ScriptVersion, Words, verb_of};
use script_words::next_line;

/// Whether a line with this first word is skipped.
fn is_comment(first: &[u8]) -> bool
    ensures { result ≡ is_comment first.now }
{
    match first {
        [] => false,
        [byte, ..] => *byte == b'#',
    }
}

/// Whether the version is this one of a first line with these words behind its first.
fn is_version(words: &mut Words, version: &[u8]) -> bool
    ensures { result ≡ is_version version.now words.old }
{
    match words.next() {
        Some(said) => said == version,
        None => false,
    }
}

/// Whether a line says this version, or nothing where it is skipped.
fn version_told(line: &[u8], version: &[u8]) -> Option<bool>
    ensures { (rest : Bool) → told_or result rest ≡ says_by version.now (words_of line.now) rest }
{
    let mut words = Words::of(line);
    let first = words.next()?;
    if is_comment(first) {
        return None;
    }
    Some(is_version(&mut words, version))
}

/// Whether the first line that isn't skipped says this version.
pub(crate) fn says(text: &[u8], version: &[u8]) -> bool
    ensures { result ≡ says version.now (lines_of text.now) }
{
    let mut rest = text;
    while let Some((line, behind)) = next_line(rest) {
        if let Some(is_said) = version_told(line, version) {
            return is_said;
        }
        rest = behind;
    }
    false
}

/// The version that brought such a line; version 1 where it is none.
pub(crate) fn line_version(line: &[u8]) -> ScriptVersion
    ensures { result ≡ line_version (words_of line.now) }
{
    let mut words = Words::of(line);
    match words.next() {
        None => ScriptVersion::One,
        Some(first) => match verb_of(first) {
            None => ScriptVersion::One,
            Some(verb) => verb.version(),
        },
    }
}
