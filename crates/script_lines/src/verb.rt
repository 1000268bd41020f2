//! The first words of lines.

ghost use Rattle.std.specs.Prelude.{◌≡◌};
ghost use Rattle.script_lines.specs.Verbs.{comes_before, has_lines_of, is_new, page_verb_of, section_of, request_verb_of, verb_of, version_of_verb, volume_verb_of};

/// The version of the language that a script is written in. Each has the lines of those before it.
#[derive(Clone, Copy, Debug, PartialEq, Eq)]
pub enum ScriptVersion {
    /// `dix 1`
    One,
    /// `dix 2`
    Two,
    /// `dix 3`
    Three,
}

/// What a line begins with.
#[derive(Clone, Copy, Debug, PartialEq, Eq)]
pub enum Verb {
    Dix,
    Mode,
    Limits,
    Pages,
    Block,
    Expect,
    Inner,
    Linear,
    Stripe,
    Over,
    Fault,
    Shift,
    Lose,
    Tear,
    Fail,
    Schedule,
    Begin,
    Fill,
    Put,
    Show,
    Seal,
    Write,
    Read,
    WritePi,
    ReadPi,
    Overwrite,
    Wait,
}

/// What a line with this first word is, where any line begins so.
pub fn verb_of(word: &[u8]) -> Option<Verb>
    ensures { result ≡ verb_of word.now }
{
    if word == b"dix".as_slice() {
        return Some(Verb::Dix);
    }
    if word == b"mode".as_slice() {
        return Some(Verb::Mode);
    }
    if word == b"limits".as_slice() {
        return Some(Verb::Limits);
    }
    if word == b"pages".as_slice() {
        return Some(Verb::Pages);
    }
    if word == b"block".as_slice() {
        return Some(Verb::Block);
    }
    if word == b"expect".as_slice() {
        return Some(Verb::Expect);
    }
    volume_verb_of(word)
}

/// The same of the lines of the volume and of faults.
fn volume_verb_of(word: &[u8]) -> Option<Verb>
    ensures { result ≡ volume_verb_of word.now }
{
    if word == b"inner".as_slice() {
        return Some(Verb::Inner);
    }
    if word == b"linear".as_slice() {
        return Some(Verb::Linear);
    }
    if word == b"stripe".as_slice() {
        return Some(Verb::Stripe);
    }
    if word == b"over".as_slice() {
        return Some(Verb::Over);
    }
    if word == b"fault".as_slice() {
        return Some(Verb::Fault);
    }
    if word == b"shift".as_slice() {
        return Some(Verb::Shift);
    }
    if word == b"lose".as_slice() {
        return Some(Verb::Lose);
    }
    if word == b"tear".as_slice() {
        return Some(Verb::Tear);
    }
    if word == b"fail".as_slice() {
        return Some(Verb::Fail);
    }
    page_verb_of(word)
}

/// The same of the schedule, of `begin` and of ops on pages.
fn page_verb_of(word: &[u8]) -> Option<Verb>
    ensures { result ≡ page_verb_of word.now }
{
    if word == b"schedule".as_slice() {
        return Some(Verb::Schedule);
    }
    if word == b"begin".as_slice() {
        return Some(Verb::Begin);
    }
    if word == b"fill".as_slice() {
        return Some(Verb::Fill);
    }
    if word == b"put".as_slice() {
        return Some(Verb::Put);
    }
    if word == b"show".as_slice() {
        return Some(Verb::Show);
    }
    if word == b"seal".as_slice() {
        return Some(Verb::Seal);
    }
    request_verb_of(word)
}

/// The same of requests and of the other ops.
fn request_verb_of(word: &[u8]) -> Option<Verb>
    ensures { result ≡ request_verb_of word.now }
{
    if word == b"write".as_slice() {
        return Some(Verb::Write);
    }
    if word == b"read".as_slice() {
        return Some(Verb::Read);
    }
    if word == b"writepi".as_slice() {
        return Some(Verb::WritePi);
    }
    if word == b"readpi".as_slice() {
        return Some(Verb::ReadPi);
    }
    if word == b"overwrite".as_slice() {
        return Some(Verb::Overwrite);
    }
    if word == b"wait".as_slice() {
        return Some(Verb::Wait);
    }
    None
}

/// Where a line stands among the others: the sections of a script.
#[derive(Clone, Copy, Debug, PartialEq, Eq)]
pub enum Section {
    Dix,
    Mode,
    Limits,
    Pages,
    Block,
    Expect,
    Inner,
    Volume,
    Fault,
    Schedule,
    Begin,
    Op,
}

impl Verb {
    /// Where such a line stands.
    pub fn section(self) -> Section
        ensures { result ≡ section_of self }
    {
        match self {
            Verb::Dix => Section::Dix,
            Verb::Mode => Section::Mode,
            Verb::Limits => Section::Limits,
            Verb::Pages => Section::Pages,
            Verb::Block => Section::Block,
            Verb::Expect => Section::Expect,
            Verb::Inner => Section::Inner,
            Verb::Linear | Verb::Stripe | Verb::Over => Section::Volume,
            Verb::Fault | Verb::Shift | Verb::Lose | Verb::Tear | Verb::Fail => Section::Fault,
            Verb::Schedule => Section::Schedule,
            Verb::Begin => Section::Begin,
            _ => Section::Op,
        }
    }

    /// The first version that has such lines.
    pub fn version(self) -> ScriptVersion
        ensures { result ≡ version_of_verb self }
    {
        match self {
            Verb::Lose | Verb::Tear | Verb::Fail => ScriptVersion::Three,
            Verb::Block | Verb::Expect | Verb::Inner | Verb::Over => ScriptVersion::Two,
            _ => ScriptVersion::One,
        }
    }
}

impl ScriptVersion {
    /// Whether a script of this version may have the lines that the other brought.
    pub fn has_lines_of(self, other: ScriptVersion) -> bool
        ensures { result ≡ has_lines_of self other }
    {
        match self {
            ScriptVersion::One => other == ScriptVersion::One,
            ScriptVersion::Two => other != ScriptVersion::Three,
            ScriptVersion::Three => true,
        }
    }

    /// Whether it is later than version 1.
    pub fn is_new(self) -> bool
        ensures { result ≡ is_new self }
    {
        self != ScriptVersion::One
    }
}

impl Section {
    /// Whether a line of the next section may stand right behind one of this section, in a script of
    /// a version later than 1 or of version 1.
    pub fn comes_before(self, next: Section, is_new: bool) -> bool
        ensures { result ≡ comes_before self next is_new }
    {
        match self {
            Section::Dix => next == Section::Mode,
            Section::Mode => next == Section::Limits,
            Section::Limits => next == Section::Pages,
            Section::Pages if is_new => next == Section::Block,
            Section::Pages => next == Section::Volume,
            Section::Block => {
                next == Section::Expect || next == Section::Inner || next == Section::Volume
            }
            Section::Expect | Section::Inner => next == Section::Inner || next == Section::Volume,
            Section::Volume => {
                next == Section::Volume
                    || next == Section::Fault
                    || next == Section::Schedule
                    || next == Section::Begin
            }
            Section::Fault => {
                next == Section::Fault || next == Section::Schedule || next == Section::Begin
            }
            Section::Schedule => next == Section::Schedule || next == Section::Begin,
            Section::Begin | Section::Op => next == Section::Op,
        }
    }
}
