//! Where the frame of each block of a script's requests stands on record.

ghost use Rattle.std.specs.Prelude.{◌≡◌, ◌≤◌, ◌+◌, ◌<◌, IfOk, List, [], length};
ghost use Rattle.run_command.specs.Working.{IsSound};
ghost use Rattle.rig_api.specs.Log.{LogEntry};
ghost use Rattle.run_words.specs.Lies.{blocks_done, blocks_moved};
ghost use Rattle.run_words.specs.Ledgers.{IsKept, IsLaidOut, IsNew, Knows, Notes, book_in, noted, place_for};

use crate::asked::{AllAsked, Asked, all_asked, request_in};
use cdb_codec::{Cdb, Rw};
use fault_schedule::{Label, Tamper};
use rig_api::{Record, Request, Rig, request_of, sent_size};
use script_text::Script;
use std::alloc::{AllocError, Global};

/// Where the frame of a block begins.
#[derive(Clone, Copy)]
pub struct Spot {
    /// The number of the record, from 0.
    pub number: u32,
    /// The byte among the record's moved ones.
    pub at: usize,
}

/// What a script asks for and which faults it has, and where the frames of its blocks stand on record.
#[derive(Drop)]
pub struct Ledger {
    /// The ops in their order.
    pub(crate) asked: Vec<Asked>,
    /// A place for each block of each request.
    pub(crate) spots: Vec<Option<Spot>>,
    pub(crate) tamper: Tamper,
    /// The bytes of data in a block.
    pub(crate) size: u32,
    /// The number of the first record that it was kept for.
    pub(crate) first: u32,
}

/// Where a block stands among those of all requests, if it is one of them.
fn place_for(asked: &[Asked], label: Label) -> Option<usize>
    ensures { result ≡ place_for asked.now label }
{
    if label.op == 0 {
        return None;
    }
    let one = request_in(asked, label.op as usize - 1);
    if label.k < one.count {
        Some(one.start as usize + label.k as usize)
    } else {
        None
    }
}

impl Ledger {
    /// The ledger of a script, which keeps the rules of its language, with all the memory that it ever needs. It knows no
    /// frame yet. The one error is want of memory.
    pub fn of(alloc: Global, script: &Script) -> Result<Ledger, AllocError>
        requires { IsSound script.now }
        ensures { IfOk result (λ l. IsNew script.now l) }
    {
        let AllAsked { asked, blocks } = all_asked(alloc, script.ops.as_slice())?;
        Ok(Ledger {
            asked,
            spots: vec![in alloc; None; blocks as usize]?,
            tamper: Tamper::new(script.faults.copy(alloc)?),
            size: script.block,
            first: 0,
        })
    }

    /// Notes where the frame of a block begins, unless one is known.
    fn note(&mut self, label: Label, spot: Spot)
        requires laid { IsLaidOut self.old }
        ensures laid { IsLaidOut self.new }
        ensures book { book_in self.new ≡ book_in self.old }
        ensures spots { self.new.spots.items ≡ noted self.old.asked.items self.old.spots.items label spot }
    {
        let Some(place) = place_for(self.asked.as_slice(), label) else {
            return;
        };
        if self.spots[place].is_none() {
            self.spots[place] = Some(spot);
        }
    }

    /// Notes where the frames of a command's blocks begin.
    fn note_blocks(&mut self, number: u32, what: &Record, c: Rw, labels: &[Label])
        requires laid { IsLaidOut self.old }
        ensures { Notes self.old self.new number what.now labels.now (blocks_done self.old.size c) }
    {
        let frame = sent_size(c.protect, self.size);
        let mut left = what.outcome.done.min(c.n);
        let mut at = 0usize;
        for label in labels {
            if left == 0 {
                return;
            }
            self.note(*label, Spot { number, at });
            at += frame;
            left -= 1;
        }
    }

    /// Notes where the frames begin that a record moved.
    fn note_record(&mut self, number: u32, what: &Record, labels: &[Label])
        requires laid { IsLaidOut self.old }
        ensures { Notes self.old self.new number what.now labels.now (blocks_moved self.old.size) }
    {
        let Ok(command) = Cdb::decode(what.cdb.as_slice()) else {
            return;
        };
        match request_of(command) {
            Request::Read(c) => self.note_blocks(number, what, c, labels),
            Request::Write(c) => self.note_blocks(number, what, c, labels),
            Request::Verify(_) => {}
            Request::ReadCapacity(_) => {}
        }
    }

    /// Notes where the frames begin that the rig's records from this one on moved. None is known before.
    pub fn keep<R: Rig>(&mut self, rig: &R, from: u32)
        requires laid { IsLaidOut self.old }
        requires none { (log : List LogEntry) → Knows self.old.size self.old.asked.items log self.old.spots.items [] }
        requires records { from ≤ length (R.state rig.now).log }
        ensures kept { IsKept self.new (R.state rig.now).log }
        ensures first { self.new.first ≡ from }
        ensures book { book_in self.new ≡ book_in self.old }
    {
        for i in from..rig.records() {
            self.note_record(i, rig.logged(i), rig.labels(i));
        }
        self.first = from;
    }
}
