//! Which calls of a form in memory fail.

ghost use Rattle.std.specs.Prelude.{◌≡◌, ◌≤◌, ◌↔◌, ◌⊎◌, IsTrue, IsErr, OnErr, OnOk};
ghost use Rattle.dix_base.specs.Forms.{IsNextListed, IsPart, after_call, after_fault, no_turns, one_more};
ghost use Rattle.dix_base.specs.Told.{Rose};

use crate::Failed;
use std::marker::Model;

/// One more, unless at the last value.
pub(crate) fn raise(count: &mut u64)
    ensures one { count.new ≡ one_more count.old }
    ensures rose { Rose count.old count.new }
    ensures more { count.old ≤ count.new }
{
    *count = count.saturating_add(1);
}

/// The numbers of the calls that fail, and the counts of calls and of faults.
#[derive(Drop)]
pub(crate) struct FaultPlan {
    listed: Vec<u64>,
    calls: u64,
    faults: u64,
}

impl Model for FaultPlan {
    ghost use Rattle.dix_base.specs.Forms.{Turns};

    ghost Value = { Turns };

    ghost view = { λ p. record { listed = p.listed.items; calls = p.calls; faults = p.faults } };
}

impl FaultPlan {
    pub(crate) fn new(listed: Vec<u64>) -> FaultPlan
        ensures { result ≡ no_turns listed.items }
    {
        FaultPlan {
            listed,
            calls: 0,
            faults: 0,
        }
    }

    fn fails_next(&self) -> bool
        ensures { IsTrue result ↔ IsNextListed self.now }
    {
        self.listed.contains(&self.calls.saturating_add(1))
    }

    /// How many bytes of a piece of so many the next call writes.
    pub(crate) fn part_of(&self, all: usize) -> usize
        ensures part { IsPart self.now all result }
        ensures bound { result ≤ all }
    {
        if self.fails_next() { all / 2 } else { all }
    }

    /// Counts a call, which fails where it is listed or has another cause to fail.
    pub(crate) fn turn(&mut self, has_cause: bool) -> Result<(), Failed>
        ensures listed { IsErr result ↔ (IsNextListed self.old ⊎ IsTrue has_cause) }
        ensures passed { OnOk result (self.new ≡ after_call self.old) }
        ensures failed { OnErr result (self.new ≡ after_fault self.old) }
        ensures rose { OnErr result (Rose self.old.faults self.new.faults) }
        ensures count { self.old.faults ≤ self.new.faults }
    {
        raise(&mut self.calls);
        if has_cause || self.listed.contains(&self.calls) {
            raise(&mut self.faults);
            return Err(Failed);
        }
        Ok(())
    }
}
