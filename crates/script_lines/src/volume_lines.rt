//! The lines of the volume: `inner`, `linear`, `stripe` and `over`.

ghost use Rattle.std.specs.Prelude.{◌≡◌, ◌≤◌, IfOk};
ghost use Rattle.script_lines.specs.Forms.{IsSound, IsSoundFront, inner_form, leg_word, len_in, linear_form, over_form, place_form, stripe_form, striped_form};
ghost use Rattle.script_lines.specs.Reading.{IsUnless, Reads, value};
ghost use Rattle.script_words.specs.Numbers.{number_within};

use crate::line::ScriptLine;
use crate::listed::{Listed, some};
use crate::{MOST_CHUNK, ScriptKind, VolumeList, Words};
use linear_volume::Linear;
use script_words::leg;
use std::alloc::Global;
use stripe_volume::{Leg, LegList};
use volume_table::MOST_LENGTH;

/// 1 to 1,048,576 blocks
fn len(words: &mut Words) -> Result<u64, ScriptKind>
    ensures value { Reads (value len_in words.old) result words.new }
    ensures low { IfOk result (λ n. 1 ≤ n) }
    ensures high { IfOk result (λ n. n ≤ MOST_LENGTH) }
{
    words.number(1, u64::from(MOST_LENGTH))
}

/// `dev D at A`, to the end of the line
#[tactic(auto, unfolding(crate::specs::Forms::place_form))]
fn place(words: &mut Words) -> Result<(u32, u64), ScriptKind>
    ensures { result ≡ place_form words.old }
{
    words.fixed(b"dev")?;
    let dev = words.word32()?;
    words.fixed(b"at")?;
    let at = words.word64()?;
    words.end()?;
    Ok((dev, at))
}

/// `inner I LEN dev D at A`
#[tactic(auto, unfolding(crate::specs::Forms::inner_form))]
pub(crate) fn inner_line(words: &mut Words) -> Result<ScriptLine, ScriptKind>
    ensures value { result ≡ inner_form words.old }
    ensures sound { IfOk result IsSound }
{
    let volume = words.small(0, 7)?;
    let len = len(words)?;
    let (dev, at) = place(words)?;
    Ok(ScriptLine::Inner {
        volume,
        len,
        dev,
        at,
    })
}

/// `linear START LEN dev D at A`
#[tactic(auto, unfolding(crate::specs::Forms::linear_form))]
pub(crate) fn linear_line(words: &mut Words) -> Result<ScriptLine, ScriptKind>
    ensures value { result ≡ linear_form words.old }
    ensures sound { IfOk result IsSound }
{
    let start = words.word64()?;
    let len = len(words)?;
    let (dev, at) = place(words)?;
    Ok(ScriptLine::Linear(Linear {
        start,
        len,
        dev,
        at,
    }))
}

/// What stripes have in front of their legs.
#[derive(Clone, Copy, Debug, PartialEq, Eq)]
pub struct Striped {
    start: u64,
    len: u64,
    chunk: u32,
}

/// `START LEN chunk C legs`
#[tactic(auto, unfolding(crate::specs::Forms::striped_form))]
fn front(words: &mut Words) -> Result<Striped, ScriptKind>
    ensures value { Reads (striped_form words.old) result words.new }
    ensures sound { IfOk result IsSoundFront }
{
    let start = words.word64()?;
    let len = len(words)?;
    words.fixed(b"chunk")?;
    let chunk = words.small(1, MOST_CHUNK)?;
    words.fixed(b"legs")?;
    Ok(Striped { start, len, chunk })
}

impl Listed for Leg {
    ghost use Rattle.script_lines.specs.Forms.{leg_word};

    ghost reads = { leg_word };

    fn read(word: &[u8]) -> Option<Leg> {
        let (dev, at) = leg(word)?;
        Some(Leg { dev, at })
    }
}

/// `stripe START LEN chunk C legs D:A ..`
#[tactic(auto, unfolding(crate::specs::Forms::stripe_form))]
pub(crate) fn stripe_line(alloc: Global, words: &mut Words) -> Result<ScriptLine, ScriptKind>
    ensures value { IsUnless (stripe_form words.old) result }
    ensures sound { IfOk result IsSound }
{
    let Striped { start, len, chunk } = front(words)?;
    let legs = some::<Leg>(alloc, words)?;
    Ok(ScriptLine::Stripe {
        start,
        len,
        chunk,
        legs: LegList::from_vec(legs),
    })
}

impl Listed for u32 {
    ghost use Rattle.script_words.specs.Numbers.{number_within};

    ghost reads = { number_within 0 7 };

    /// The number of an inner volume.
    fn read(word: &[u8]) -> Option<u32> {
        let volume = script_words::number_within(word, 0, 7)?;
        Some(volume as u32)
    }
}

/// `over START LEN chunk C legs I ..`
#[tactic(auto, unfolding(crate::specs::Forms::over_form))]
pub(crate) fn over_line(alloc: Global, words: &mut Words) -> Result<ScriptLine, ScriptKind>
    ensures value { IsUnless (over_form words.old) result }
    ensures sound { IfOk result IsSound }
{
    let Striped { start, len, chunk } = front(words)?;
    let volumes = some::<u32>(alloc, words)?;
    Ok(ScriptLine::Over {
        start,
        len,
        chunk,
        volumes: VolumeList::from_vec(volumes),
    })
}
