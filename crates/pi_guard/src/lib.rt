//! The logical block guard of protection information: the checksum over a block's data that a tuple
//! carries. It is a CRC (SBC-3, 4.22.4), or between host and adapter the Internet checksum (RFC 1071).
#![tactic(auto)]

mod broad;
mod byte_tables;
mod halves;
mod narrow;
mod quarters;
mod slicing;
mod vectors;
mod wide;
mod word_sums;

ghost use Rattle.std.specs.Prelude.{◌≡◌, ℕ, List, [], ◌++◌};
ghost use Rattle.pi_guard.specs.Guards.{crc, guard_of, ip};

/// Which checksum a guard is.
#[derive(Clone, Copy, PartialEq, Eq, Debug)]
pub enum GuardKind {
    /// The CRC-16 of T10 DIF.
    Crc,
    /// The Internet checksum.
    Ip,
}

impl GuardKind {
    /// The guard of this kind of the bytes, of any number.
    pub fn guard(self, bytes: &[u8]) -> u16
        ensures { result ≡ guard_of self bytes.now }
    {
        match self {
            GuardKind::Crc => crc16(bytes),
            GuardKind::Ip => ip_sum(bytes),
        }
    }
}

/// A guard of bytes that come in parts.
///
/// A run stands for a list of bytes: none when it is made, and after each part those and the part's.
#[derive(Clone, Copy, Debug)]
pub struct GuardRun {
    kind: GuardKind,
    // The remainder so far, of a CRC.
    register: u16,
    // The sum of words so far with its carries added back, and whether the last of them wants its lower
    // byte, of an Internet checksum.
    sum: u16,
    half_open: bool,
}

/// What a run keeps, as plain numbers that may be stored and taken up again.
#[derive(Clone, Copy, PartialEq, Eq, Debug)]
pub struct RunState {
    /// Which checksum it is.
    pub kind: GuardKind,
    /// The CRC so far, or the sum of words so far with its carries added back.
    pub value: u16,
    /// Whether the last word of a sum wants its lower byte.
    pub half_open: bool,
}

impl GuardRun {
    ghost use Rattle.pi_guard.specs.Stands.{IsKept, Stands, kind_of};

    /// A run that stands for no bytes.
    pub fn new(kind: GuardKind) -> GuardRun
        ensures kind { kind_of result ≡ kind }
        ensures none { Stands result [] }
    {
        GuardRun {
            kind,
            register: 0,
            sum: 0,
            half_open: false,
        }
    }

    /// The run that has this state.
    pub fn of_state(state: RunState) -> GuardRun
        ensures kind { kind_of result ≡ state.kind }
        ensures same { (b : List ℕ) → IsKept state b → Stands result b }
    {
        GuardRun {
            kind: state.kind,
            register: state.value,
            sum: state.value,
            half_open: state.half_open,
        }
    }

    /// The state of the run.
    pub fn state(&self) -> RunState
        ensures kind { result.kind ≡ kind_of self.now }
        ensures same { (b : List ℕ) → Stands self.now b → IsKept result b }
    {
        let value = match self.kind {
            GuardKind::Crc => self.register,
            GuardKind::Ip => self.sum,
        };
        RunState {
            kind: self.kind,
            value,
            half_open: self.half_open,
        }
    }

    /// Takes the next part, of any length, and keeps none of it.
    pub fn update(&mut self, part: &[u8])
        ensures kind { kind_of self.new ≡ kind_of self.old }
        ensures more { (b : List ℕ) → Stands self.old b → Stands self.new (b ++ part.now) }
    {
        match self.kind {
            GuardKind::Crc => self.register = vectors::register_after(self.register, part),
            GuardKind::Ip => {
                self.sum = word_sums::sum_after(self.sum, self.half_open, part);
                self.half_open = word_sums::is_half_open_after(self.half_open, part);
            }
        }
    }

    /// The guard of the bytes that the run stands for.
    pub fn finish(&self) -> u16
        ensures { (b : List ℕ) → Stands self.now b → result ≡ guard_of (kind_of self.now) b }
    {
        match self.kind {
            GuardKind::Crc => self.register,
            GuardKind::Ip => 65535 - self.sum,
        }
    }
}

/// The CRC guard of the bytes, of any number: polynomial 8BB7h, start 0, the most significant bit first,
/// no final xor (SBC-3, 4.22.4). It is the remainder of the bits, as a polynomial times x^16, on division
/// by 18BB7h over the field of two elements.
pub fn crc16(bytes: &[u8]) -> u16
    ensures { result ≡ crc bytes.now }
{
    vectors::register_after(0, bytes)
}

/// The CRC guard of bytes of which the first ones have this guard, by those behind them.
pub fn crc16_after(guard: u16, bytes: &[u8]) -> u16
    ensures { (before : List ℕ) → guard ≡ crc before → result ≡ crc (before ++ bytes.now) }
{
    vectors::register_after(guard, bytes)
}

/// The Internet checksum of the bytes, of any number (RFC 1071): the ones' complement of the ones'
/// complement sum of the words of two bytes, the higher byte first.
pub fn ip_sum(bytes: &[u8]) -> u16
    ensures { result ≡ ip bytes.now }
{
    65535 - word_sums::sum_after(0, false, bytes)
}
