//! Standard output as a sink.

ghost use Rattle.std.specs.Prelude.{◌≡◌, ◌+◌, ◌≤◌, ◌<◌, None, IfOk, IfSome, OnErr, OnOk, length};
ghost use Rattle.dix_base.specs.Forms.{one_more};
ghost use Rattle.dix_base.specs.Told.{Rose};

use crate::fault_plan::raise;
use crate::size_limit::{front_of, stream_room};
use crate::streams::OUTPUT;
use crate::{Failed, Sink};
use std::io::{ErrorKind, Stdout, Write};
use std::marker::Model;

/// How many bytes of short pieces go to the system at once, where there are as many.
const ROOM: usize = 16384;

/// A piece of so many bytes goes to the system at once, without a copy.
const LONG: usize = 65536;

/// Standard output. It doesn't tell what it took.
///
/// It holds what it takes of short pieces until it has 16 KiB or is flushed, so a report is a few calls of the
/// system.
#[derive(Drop)]
pub struct StdoutSink {
    output: Stdout,
    /// The bytes from `from` to `end` are held.
    room: [u8; ROOM],
    from: usize,
    end: usize,
    /// So many bytes may still go.
    left: u64,
    faults: u64,
}

impl Model for StdoutSink {
    ghost use Rattle.std.specs.Prelude.{ℕ};

    ghost Value = { ℕ };

    ghost view = { λ s. s.faults };
}

/// The bytes of a room from one place to another.
fn window(room: &[u8], from: usize, end: usize) -> &[u8] {
    let (held, _) = room.split_at(end.min(room.len()));
    let (_, held) = held.split_at(from.min(held.len()));
    held
}

/// Copies the first of these bytes into a room from this place on, as many as there is room for, and
/// says how many they are.
fn copied(room: &mut [u8], at: usize, bytes: &[u8]) -> usize
    requires { at < length room.old }
    ensures bound { result ≤ length bytes.now }
    ensures some { 0 < length bytes.now → 0 < result }
    ensures room { length room.new ≡ length room.old }
    ensures within { at + result ≤ length room.old }
{
    let n = bytes.len().min(room.len() - at);
    let (front, _) = bytes.split_at(n);
    room[at..at + n].copy_from_slice(front);
    n
}

/// Makes one write of a piece, and says how many bytes went, if some did. A write that a signal interrupts is made
/// again.
fn written_once<W: Write>(output: &mut W, piece: &[u8]) -> Option<usize>
    ensures bound { IfSome result (λ n. n ≤ length piece.now) }
    ensures some { IfSome result (λ n. 0 < n) }
{
    for _ in 0..u32::MAX {
        match output.write(piece) {
            Ok(n) if n > 0 => return Some(n.min(piece.len())),
            Err(error) if error.kind() == ErrorKind::Interrupted => {}
            _ => return None,
        }
    }
    None
}

/// Makes one write of a piece to a stream that may take so many bytes more, and says how many went, if some did.
pub(crate) fn written<W: Write>(output: &mut W, left: &mut u64, piece: &[u8]) -> Option<usize>
    ensures bound { IfSome result (λ n. n ≤ length piece.now) }
    ensures some { IfSome result (λ n. 0 < n) }
{
    let n = written_once(output, front_of(piece, *left))?;
    *left = left.saturating_sub(n as u64);
    Some(n)
}

impl StdoutSink {
    /// The standard output of this process. A contract sees its count of faults. Where it is a plain file, and the system
    /// limits the size of files, a write past the limit fails.
    pub fn new(rt: HostRuntime) -> StdoutSink
        ensures { result ≡ 0 }
    {
        StdoutSink {
            left: stream_room(&rt, &OUTPUT),
            output: rt.stdout(),
            room: [0; ROOM],
            from: 0,
            end: 0,
            faults: 0,
        }
    }

    /// Makes one write of what is held, if anything is, and keeps what wasn't taken. A write that
    /// takes no byte is a failure.
    fn write_once(&mut self) -> bool
        ensures { self.new ≡ self.old }
    {
        let held = window(&self.room, self.from, self.end);
        match written(&mut self.output, &mut self.left, held) {
            Some(n) => {
                self.from = self.from.saturating_add(n);
                true
            }
            None => held.is_empty(),
        }
    }

    /// Makes writes until nothing is held, or one fails.
    fn write_all_held(&mut self) -> bool
        ensures { self.new ≡ self.old }
    {
        for _ in 0..ROOM {
            if self.from >= self.end {
                break;
            }
            if !self.write_once() {
                return false;
            }
        }
        true
    }

    /// Makes one write of a piece that isn't empty, while nothing is held.
    fn passed_on(&mut self, piece: &[u8]) -> Result<usize, Failed>
        ensures bound { IfOk result (λ n. n ≤ length piece.now) }
        ensures some { IfOk result (λ n. 0 < n) }
        ensures passed { OnOk result (self.new ≡ self.old) }
        ensures failed { OnErr result (self.new ≡ one_more self.old) }
        ensures cause { OnErr result (Rose self.old self.new) }
        ensures count { self.old ≤ self.new }
    {
        if let Some(n) = written(&mut self.output, &mut self.left, piece) {
            return Ok(n);
        }
        raise(&mut self.faults);
        Err(Failed)
    }

    /// Writes all that is held. A failure leaves what wasn't written.
    fn empty(&mut self) -> Result<(), Failed>
        ensures passed { OnOk result (self.new ≡ self.old) }
        ensures failed { OnErr result (self.new ≡ one_more self.old) }
        ensures cause { OnErr result (Rose self.old self.new) }
        ensures count { self.old ≤ self.new }
    {
        if self.write_all_held() {
            self.from = 0;
            self.end = 0;
            return Ok(());
        }
        raise(&mut self.faults);
        Err(Failed)
    }
}

impl Sink for StdoutSink {
    ghost taken = { λ s. None };

    ghost passed = { λ s. None };

    ghost faults = { λ s. s };

    /// Holds as many bytes of a short piece as there is room for, which is made by writing what is held. A long piece
    /// is passed on behind what is held.
    fn put(&mut self, bytes: &[u8]) -> Result<usize, Failed>
        ensures bound { IfOk result (λ n. n ≤ length bytes.now) }
        ensures some { IfOk result (λ n. 0 < length bytes.now → 0 < n) }
        ensures cause { OnErr result (Rose self.old self.new) }
        ensures count { self.old ≤ self.new }

        ensures passed { OnOk result (self.new ≡ self.old) }
        ensures failed { OnErr result (self.new ≡ one_more self.old) }
    {
        if bytes.len() >= LONG {
            self.empty()?;
            return self.passed_on(bytes);
        }
        if self.end >= ROOM {
            self.empty()?;
        }
        let end = self.end.min(ROOM - 1);
        let n = copied(&mut self.room, end, bytes);
        self.end = end + n;
        Ok(n)
    }

    /// Writes all that is held.
    fn flush(&mut self) -> Result<(), Failed>
        ensures cause { OnErr result (Rose self.old self.new) }
        ensures count { self.old ≤ self.new }

        ensures passed { OnOk result (self.new ≡ self.old) }
        ensures failed { OnErr result (self.new ≡ one_more self.old) }
    {
        self.empty()
    }

    ghost behind = { λ s. tt };
}
