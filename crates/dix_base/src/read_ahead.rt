//! Bytes of a file that are read ahead.

ghost use Rattle.std.specs.Prelude.{◌≡◌, ◌-◌, IfSome, IsTrue, drop, length, take};

use std::alloc::Global;
use std::fs::File;
use std::io;
use std::os::unix::fs::FileExt;

/// How many bytes are asked of the file at once: at first, and at most.
const FIRST_PIECE: usize = 16384;

const PIECE: usize = 262144;

/// A piece of a file, read when a read begins where the one before it ended. Reads inside it need
/// no call of the system. A piece that goes on behind the one before it has twice its bytes, so that
/// short runs of reads fetch little that nobody wants. Without memory for a piece each read asks the file.
#[derive(Drop)]
pub(crate) struct ReadAhead {
    /// The room, taken once. Its first `count` bytes are held.
    room: Vec<u8>,
    count: usize,
    /// The place in the file of the first byte that is held.
    from: u64,
    /// Where the last read ended.
    next: u64,
    /// How many bytes were asked for when the piece was read.
    asked: usize,
}

/// The bytes from place `at` of the file on, as many as are wanted, where `held` has them: its first
/// byte is that of place `from`.
fn part_of(held: &[u8], from: u64, at: u64, wanted: usize) -> Option<&[u8]>
    ensures part { IfSome result (λ part. part.now ≡ take wanted (drop (at - from) held.now)) }
    ensures whole { IfSome result (λ part. length part.now ≡ wanted) }
{
    let begin = at.checked_sub(from)?;
    if begin > held.len() as u64 {
        return None;
    }
    let (_, rest) = held.split_at(begin as usize);
    rest.get(..wanted)
}

impl ReadAhead {
    pub(crate) fn new(alloc: Global) -> ReadAhead {
        ReadAhead {
            room: Vec::new(alloc),
            count: 0,
            from: 0,
            next: 0,
            asked: 0,
        }
    }

    /// Lets go of what is held. A read of the file's first bytes may begin a piece.
    pub(crate) fn clear(&mut self) {
        self.count = 0;
        self.next = 0;
    }

    fn held(&self) -> &[u8]
        ensures { result.now ≡ take self.now.count self.now.room.items }
    {
        let count = self.count.min(self.room.len());
        let (held, _) = self.room.split_at(count);
        held
    }

    /// How many bytes the piece from this place on is to have, of which so many are wanted.
    fn next_piece(&self, at: u64, wanted: usize) -> usize {
        let goes_on = self.count > 0
            && self.from <= at
            && at <= self.from.saturating_add(self.count as u64);
        let piece = if goes_on {
            self.asked.saturating_mul(2)
        } else {
            FIRST_PIECE
        };
        piece.max(wanted).min(PIECE)
    }

    /// Reads a piece from this place on, as far as the file gives it at once. Where it gives none,
    /// nothing is held, and the read that asks the file itself tells what is wrong.
    fn fill(&mut self, file: &File, at: u64, wanted: usize)
        ensures { self.new.from ≡ at }
    {
        let piece = self.next_piece(at, wanted);
        self.from = at;
        self.count = 0;
        self.asked = piece;
        if self.room.is_empty() && self.room.resize(PIECE, 0).is_err() {
            return;
        }
        let piece = piece.min(self.room.len());
        if let Ok(count) = file.read_at(&mut self.room[..piece], at) {
            self.count = count;
        }
    }

    /// Copies the bytes from this place on, if they are held.
    fn copy(&self, at: u64, into: &mut [u8]) -> bool
        ensures copied { IsTrue result → into.new ≡ take (length into.old) (drop (at - self.now.from) (take self.now.count self.now.room.items)) }
        ensures length { length into.new ≡ length into.old }
    {
        match part_of(self.held(), self.from, at, into.len()) {
            Some(part) => {
                into.copy_from_slice(part);
                true
            }
            None => false,
        }
    }

    /// Reads bytes of the file, until all came.
    pub(crate) fn read(&mut self, file: &File, at: u64, into: &mut [u8]) -> io::Result<()> {
        let follows = at == self.next;
        self.next = at.saturating_add(into.len() as u64);
        if self.copy(at, into) {
            return Ok(());
        }
        if follows && into.len() < PIECE {
            self.fill(file, at, into.len());
            if self.copy(at, into) {
                return Ok(());
            }
        }
        file.read_exact_at(into, at)
    }

    /// Puts bytes that were written at this place over those that are held, as far as they meet.
    fn note(&mut self, at: u64, piece: &[u8])
        ensures place { self.new.from ≡ self.old.from }
        ensures room { length self.new.room.items ≡ length self.old.room.items }
    {
        let count = self.count.min(self.room.len());
        let begin = at.max(self.from);
        let end = at
            .saturating_add(piece.len() as u64)
            .min(self.from.saturating_add(count as u64));
        if begin >= end {
            return;
        }
        let (held, new) = ((begin - self.from) as usize, (begin - at) as usize);
        let n = (end - begin) as usize;
        self.room[held..held + n].copy_from_slice(&piece[new..new + n]);
    }

    /// Writes bytes to the file, until all went. What a write that fails left is asked of the file
    /// again.
    pub(crate) fn write(&mut self, file: &File, at: u64, piece: &[u8]) -> io::Result<()> {
        let written = file.write_all_at(piece, at);
        match written {
            Ok(()) => self.note(at, piece),
            Err(_) => self.clear(),
        }
        written
    }
}
