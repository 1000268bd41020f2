//! The commands of the program.

ghost use Rattle.std.specs.Prelude.{◌≡◌, IfNone, IfSome, None, Some, string_bytes};
ghost use Rattle.std.specs.Str.{bytes_eq};
ghost use Rattle.call_verdict.specs.Words.{word_bytes};
ghost use Rattle.lab_run.specs.Grammar.{alone, behind_image, check_of, command_by, command_in, diff_of, explain_of, export_of, failures_of, flip_in, image_and_place, import_of, laid_in, layout_alone, show_of, shown, shown_place, sweep_of, vectors_of};

use crate::check_words::{CheckWords, check_words};
use crate::layout::layout_of;
use crate::place::{PlaceWord, place_of};
use call_verdict::{UnitList, is_name, laid_out, type_of};
use image_text::Layout;
use pi_tuple::PiType;
use script_words::byte;

/// A command of the program. Those that work on an image name it by the word behind their own, and
/// `diff` its second one by the word behind the first place.
#[derive(Drop)]
pub enum Command {
    /// `--help`: writes what the words are.
    Help,
    /// `--version`: writes the name and version.
    Version,
    /// `show IMAGE`: writes the image's units.
    ShowUnits,
    /// `show IMAGE PLACE [--bad]`: writes the tuple that each stored block has and the one that it should have, or does so
    /// of the blocks at fault alone.
    ShowBlocks { only_bad: bool, place: PlaceWord },
    /// `diff IMAGE PLACE IMAGE PLACE`: compares two places block by block.
    Diff { one: PlaceWord, other: PlaceWord },
    /// `export IMAGE PLACE LAYOUT`: writes the blocks there to standard output.
    Export { place: PlaceWord, layout: Layout },
    /// `import IMAGE PLACE LAYOUT`: puts standard input in their place.
    Import { place: PlaceWord, layout: Layout },
    /// `vectors IMAGE`: does a script, or a list of commands, and writes its vectors.
    Vectors,
    /// `explain`: judges a script.
    Judge,
    /// `explain IMAGE`: runs a script, and writes its report and what it means.
    Explain,
    /// `sweep BYTE T:BLOCKS ..`: runs a script in memory, once for each byte that may be altered.
    Sweep { byte: u8, units: UnitList },
    /// `check FLAG VALUE ..`: writes the bad blocks of the dump on standard input.
    Check { words: CheckWords },
    /// `failures T`: writes who finds which failure, for a type.
    Failures(PiType),
}

fn is_word(word: &String, text: &[u8]) -> bool
    ensures { result ≡ bytes_eq (string_bytes word.now) text.now }
{
    word.as_bytes() == text
}

/// The command, where no words stand behind it.
fn alone(command: Command, words: &[String]) -> Option<Command>
    ensures { result ≡ alone command (word_bytes words.now) }
{
    match words.split_first() {
        None => Some(command),
        Some(_) => None,
    }
}

/// The words behind IMAGE.
fn behind_image(words: &[String]) -> Option<&[String]>
    ensures some { IfSome result (λ rest. behind_image (word_bytes words.now) ≡ Some (word_bytes rest.now)) }
    ensures none { IfNone result (behind_image (word_bytes words.now) ≡ None) }
{
    let (image, rest) = words.split_first()?;
    if is_name(image) { Some(rest) } else { None }
}

/// IMAGE PLACE, and the words behind them.
fn image_and_place(words: &[String]) -> Option<(PlaceWord, &[String])>
    ensures some { IfSome result (λ p. image_and_place (word_bytes words.now) ≡ Some (record { place = p.0; rest = word_bytes p.1.now })) }
    ensures none { IfNone result (image_and_place (word_bytes words.now) ≡ None) }
{
    let words = behind_image(words)?;
    let (place, rest) = words.split_first()?;
    let place = place_of(place.as_bytes())?;
    Some((place, rest))
}

/// LAYOUT, and no word behind it.
fn layout_alone(words: &[String]) -> Option<Layout>
    ensures { result ≡ layout_alone (word_bytes words.now) }
{
    let (layout, rest) = words.split_first()?;
    match rest.split_first() {
        None => layout_of(layout.as_bytes()),
        Some(_) => None,
    }
}

/// IMAGE PLACE LAYOUT.
fn laid(words: &[String]) -> Option<(PlaceWord, Layout)>
    ensures { result ≡ laid_in (word_bytes words.now) }
{
    let (place, rest) = image_and_place(words)?;
    let layout = layout_alone(rest)?;
    Some((place, layout))
}

/// The words behind the place of `show`.
fn shown_place(place: PlaceWord, words: &[String]) -> Option<Command>
    ensures { result ≡ shown_place place (word_bytes words.now) }
{
    match words.split_first() {
        None => Some(Command::ShowBlocks {
            only_bad: false,
            place,
        }),
        Some((flag, rest)) => {
            if !is_word(flag, b"--bad") {
                return None;
            }
            alone(
                Command::ShowBlocks {
                    only_bad: true,
                    place,
                },
                rest,
            )
        }
    }
}

/// The words behind the image of `show`.
fn shown(words: &[String]) -> Option<Command>
    ensures { result ≡ shown (word_bytes words.now) }
{
    match words.split_first() {
        None => Some(Command::ShowUnits),
        Some((place, rest)) => shown_place(place_of(place.as_bytes())?, rest),
    }
}

/// `IMAGE [PLACE [--bad]]` behind `show`.
fn show_of(words: &[String]) -> Option<Command>
    ensures { result ≡ show_of (word_bytes words.now) }
{
    shown(behind_image(words)?)
}

/// `IMAGE PLACE IMAGE PLACE` behind `diff`.
fn diff_of(words: &[String]) -> Option<Command>
    ensures { result ≡ diff_of (word_bytes words.now) }
{
    let (one, words) = image_and_place(words)?;
    let (other, words) = image_and_place(words)?;
    alone(Command::Diff { one, other }, words)
}

/// `IMAGE PLACE LAYOUT` behind `export`.
fn export_of(words: &[String]) -> Option<Command>
    ensures { result ≡ export_of (word_bytes words.now) }
{
    let (place, layout) = laid(words)?;
    Some(Command::Export { place, layout })
}

/// `IMAGE PLACE LAYOUT` behind `import`.
fn import_of(words: &[String]) -> Option<Command>
    ensures { result ≡ import_of (word_bytes words.now) }
{
    let (place, layout) = laid(words)?;
    Some(Command::Import { place, layout })
}

/// `IMAGE` behind `vectors`.
fn vectors_of(words: &[String]) -> Option<Command>
    ensures { result ≡ vectors_of (word_bytes words.now) }
{
    alone(Command::Vectors, behind_image(words)?)
}

/// `[IMAGE]` behind `explain`.
fn explain_of(words: &[String]) -> Option<Command>
    ensures { result ≡ explain_of (word_bytes words.now) }
{
    match words.split_first() {
        None => Some(Command::Judge),
        Some(_) => alone(Command::Explain, behind_image(words)?),
    }
}

/// The byte by which a sweep alters another: two hexadecimal digits, not `00`.
fn flip(word: &[u8]) -> Option<u8>
    ensures { result ≡ flip_in word.now }
{
    let flip = byte(word)?;
    if flip == 0 { None } else { Some(flip) }
}

/// `BYTE T:BLOCKS ..` behind `sweep`.
fn sweep_of(words: &[String]) -> Option<Command>
    ensures { result ≡ sweep_of (word_bytes words.now) }
{
    let (word, words) = words.split_first()?;
    let byte = flip(word.as_bytes())?;
    let units = laid_out(words)?;
    Some(Command::Sweep { byte, units })
}

/// `FLAG VALUE ..` behind `check`.
fn check_of(words: &[String]) -> Option<Command>
    ensures { result ≡ check_of (word_bytes words.now) }
{
    let words = check_words(words)?;
    Some(Command::Check { words })
}

/// `T` behind `failures`.
fn failures_of(words: &[String]) -> Option<Command>
    ensures { result ≡ failures_of (word_bytes words.now) }
{
    let (word, rest) = words.split_first()?;
    let ty = type_of(word.as_bytes())?;
    alone(Command::Failures(ty), rest)
}

/// The command of the words, or `None` where they are not in the grammar.
pub(crate) fn command_of(words: &[String]) -> Option<Command>
    ensures { result ≡ command_in (word_bytes words.now) }
{
    let (verb, words) = words.split_first()?;
    command_by(verb, words)
}

/// The command of this name with these words behind it.
fn command_by(verb: &String, words: &[String]) -> Option<Command>
    ensures { result ≡ command_by (string_bytes verb.now) (word_bytes words.now) }
{
    if is_word(verb, b"--help") {
        return alone(Command::Help, words);
    }
    if is_word(verb, b"--version") {
        return alone(Command::Version, words);
    }
    if is_word(verb, b"show") {
        return show_of(words);
    }
    if is_word(verb, b"diff") {
        return diff_of(words);
    }
    if is_word(verb, b"export") {
        return export_of(words);
    }
    if is_word(verb, b"import") {
        return import_of(words);
    }
    if is_word(verb, b"vectors") {
        return vectors_of(words);
    }
    if is_word(verb, b"explain") {
        return explain_of(words);
    }
    if is_word(verb, b"sweep") {
        return sweep_of(words);
    }
    if is_word(verb, b"check") {
        return check_of(words);
    }
    if is_word(verb, b"failures") {
        return failures_of(words);
    }
    None
}
