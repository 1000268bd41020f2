//! The commands of the program.

ghost use Rattle.std.specs.Prelude.{◌≡◌, string_bytes};
ghost use Rattle.std.specs.Str.{bytes_eq};
ghost use Rattle.call_verdict.specs.Words.{units_in, word_bytes};
ghost use Rattle.dix_run.specs.Grammar.{big_of, big_with, command_in, format_of, format_with, is_one_name, modes_of, on_image};

use call_verdict::{UnitList, is_name, laid_out, type_of};
use pi_tuple::PiType;
use script_words::number;

/// A command of the program. Those that work on an image name it by their second word.
#[derive(Drop)]
pub enum Command {
    /// `run IMAGE`: runs a script and prints a report.
    Run,
    /// `trace IMAGE`: runs a script and prints a report and the commands that were sent.
    Trace,
    /// `format IMAGE T:BLOCKS ..`: writes a fresh image of these units.
    Format(UnitList),
    /// `migrate IMAGE`: replaces a header of version 1 by that of version 2.
    Migrate,
    /// `mirror IMAGE`: runs a script on two legs.
    Mirror,
    /// `scrub IMAGE`: checks every stored block.
    Scrub,
    /// `nvme IMAGE`: takes NVM commands.
    Nvme,
    /// `modes T`: prints which layer finds a fault first, for a type.
    Modes(PiType),
    /// `big N SEED`: runs a generated script.
    Big { n: u32, seed: u32 },
}

fn is_word(word: &String, text: &[u8]) -> bool
    ensures { result ≡ bytes_eq (string_bytes word.now) text.now }
{
    word.as_bytes() == text
}

fn is_one_name(words: &[String]) -> bool
    ensures { result ≡ is_one_name (word_bytes words.now) }
{
    if words.len() != 1 {
        return false;
    }
    is_name(&words[0])
}

/// The command, where the words behind its own name an image and nothing else.
fn on_image(command: Command, words: &[String]) -> Option<Command>
    ensures { result ≡ on_image command (word_bytes words.now) }
{
    if is_one_name(words) {
        Some(command)
    } else {
        None
    }
}

/// `T:BLOCKS ..` behind the image of `format`.
fn format_with(words: &[String]) -> Option<Command>
    ensures { result ≡ format_with (units_in (word_bytes words.now)) }
{
    Some(Command::Format(laid_out(words)?))
}

/// `IMAGE T:BLOCKS ..` behind `format`.
fn format_of(words: &[String]) -> Option<Command>
    ensures { result ≡ format_of (word_bytes words.now) }
{
    let (image, words) = words.split_first()?;
    if is_name(image) {
        format_with(words)
    } else {
        None
    }
}

/// `T` behind `modes`.
fn modes_of(words: &[String]) -> Option<Command>
    ensures { result ≡ modes_of (word_bytes words.now) }
{
    if words.len() != 1 {
        return None;
    }
    Some(Command::Modes(type_of(words[0].as_bytes())?))
}

fn big_with(n: Option<u64>, seed: Option<u64>) -> Option<Command>
    ensures { result ≡ big_with n seed }
{
    let n = n?;
    let seed = seed?;
    if n < 1 || n > 1024 || seed > 0xFFFF_FFFF {
        return None;
    }
    Some(Command::Big {
        n: n as u32,
        seed: seed as u32,
    })
}

/// `N SEED` behind `big`.
fn big_of(words: &[String]) -> Option<Command>
    ensures { result ≡ big_of (word_bytes words.now) }
{
    if words.len() != 2 {
        return None;
    }
    big_with(number(words[0].as_bytes()), number(words[1].as_bytes()))
}

/// The command of the words, or `None` where they are not in the grammar.
pub fn command_of(words: &[String]) -> Option<Command>
    ensures { result ≡ command_in (word_bytes words.now) }
{
    let (verb, words) = words.split_first()?;
    if is_word(verb, b"run") {
        return on_image(Command::Run, words);
    }
    if is_word(verb, b"trace") {
        return on_image(Command::Trace, words);
    }
    if is_word(verb, b"format") {
        return format_of(words);
    }
    if is_word(verb, b"migrate") {
        return on_image(Command::Migrate, words);
    }
    if is_word(verb, b"mirror") {
        return on_image(Command::Mirror, words);
    }
    if is_word(verb, b"scrub") {
        return on_image(Command::Scrub, words);
    }
    if is_word(verb, b"nvme") {
        return on_image(Command::Nvme, words);
    }
    if is_word(verb, b"modes") {
        return modes_of(words);
    }
    if is_word(verb, b"big") {
        return big_of(words);
    }
    None
}
