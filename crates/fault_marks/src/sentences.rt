//! What is wrong, in sentences.

ghost use Rattle.std.specs.Prelude.{◌≡◌};
ghost use Rattle.fault_marks.specs.Sentences.{sentence};

use script_text::ScriptKind;

/// What is wrong, in a sentence.
pub(crate) fn sentence(kind: ScriptKind) -> &'static [u8]
    ensures { result.now ≡ sentence kind }
{
    match kind {
        ScriptKind::NotAscii => b"only bytes from space to tilde: no tab, no carriage return",
        ScriptKind::LongLine => b"a line has at most 4096 bytes",
        ScriptKind::UnknownWord => b"another word belongs here",
        ScriptKind::BadNumber => b"this word is not of its form or range",
        ScriptKind::MissingWord => b"a word is missing here",
        ScriptKind::ExtraWord => b"the line ends before this word; a comment has a line of its own",
        ScriptKind::OutOfPlace => b"this line may not stand behind those before it",
        ScriptKind::TooMany => b"with this line a count passes its limit",
        ScriptKind::BadSegments =>
            b"a segment is empty, outside the pages or no whole tuples, or DATA or TUPLES has not the bytes of N blocks",
        ScriptKind::SegOverlap => b"two segments of the line share a byte",
        ScriptKind::BadRange => b"N is 0 or too large, or the blocks are not in the volume",
        ScriptKind::BadFault =>
            b"the fault can not act: what it names is not there, or it changes nothing",
        ScriptKind::NoIntegrity => b"this needs tuples that the mode line switches off",
        ScriptKind::NoHeader => b"a script begins with dix 1, dix 2 or dix 3",
        ScriptKind::Memory => b"no memory",
    }
}
