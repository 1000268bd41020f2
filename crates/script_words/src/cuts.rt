//! Texts cut into lines and lines into words.

ghost use Rattle.std.specs.Prelude.{◌≡◌, ◌<◌, ◌∷◌, [], length, IfNone, IfSome, None, Some};
ghost use Rattle.std.specs.List.{position};
ghost use Rattle.script_words.specs.Cuts.{cut, is_byte, is_plain, lines_of, words_of};

fn place_of(text: &[u8], mark: u8) -> Option<usize>
    ensures { result ≡ position (is_byte mark) text.now }
{
    text.iter().position(|b| *b == mark)
}

/// The text before the first such byte and the text behind it, where it has one.
pub fn split_once(text: &[u8], mark: u8) -> Option<(&[u8], &[u8])>
    ensures some { IfSome result (λ p. cut mark text.now ≡ Some (record { before = p.0.now; after = p.1.now })) }
    ensures none { IfNone result (cut mark text.now ≡ None) }
{
    match place_of(text, mark) {
        Some(i) => {
            let (before, rest) = text.split_at(i);
            let (_, after) = rest.split_at(1);
            Some((before, after))
        }
        None => None,
    }
}

/// The first line of a text, without its newline, and the text behind it; `None` exactly where
/// nothing is left. The newline of the last line may be missing.
pub fn next_line(text: &[u8]) -> Option<(&[u8], &[u8])>
    ensures some { IfSome result (λ p. lines_of text.now ≡ p.0.now ∷ lines_of p.1.now) }
    ensures shorter { IfSome result (λ p. length p.1.now < length text.now) }
    ensures none { IfNone result (lines_of text.now ≡ []) }
{
    if text.is_empty() {
        return None;
    }
    match split_once(text, b'\n') {
        Some(line) => Some(line),
        None => Some((text, &[])),
    }
}

/// The first word of a line and what stands behind it; `None` exactly where there is no word.
/// Words have one or more spaces between them.
pub fn next_word(line: &[u8]) -> Option<(&[u8], &[u8])>
    ensures some { IfSome result (λ p. words_of line.now ≡ p.0.now ∷ words_of p.1.now) }
    ensures shorter { IfSome result (λ p. length p.1.now < length line.now) }
    ensures none { IfNone result (words_of line.now ≡ []) }
{
    let mut rest = line;
    while let Some((word, behind)) = split_once(rest, b' ') {
        if !word.is_empty() {
            return Some((word, behind));
        }
        rest = behind;
    }
    if rest.is_empty() {
        None
    } else {
        Some((rest, &[]))
    }
}

/// Whether all bytes are from space to tilde.
pub fn is_plain(line: &[u8]) -> bool
    ensures { result ≡ is_plain line.now }
{
    line.iter().all(|b| 0x20 <= *b && *b <= 0x7e)
}
