//! The gate.

ghost use Rattle.std.specs.Prelude.{◌≡◌, ◌<◌, ◌≤◌, ◌-◌, ◌^◌, ◌+◌, ℕ, IfOk, true, length, set, slice_index, vec_len};
ghost use Rattle.range_gate.specs.Gates.{IsGateFor, conflict_at, falling, has_ended, is_waiting, may_admit, none_conflicts, phase_at};
ghost use Rattle.range_gate.specs.Layout.{AreLayoutsOf};
ghost use Rattle.range_gate.specs.Windows.{Falls, clashes};
ghost use Rattle.range_gate.specs.declared.phase.Phase.{Phase as AnyPhase};

use crate::print::Print;
use crate::{Footprint, Phase};
use std::alloc::{AllocError, Global};
use std::marker::Model;

/// An op waits where so many earlier ones have not ended.
const WINDOW: usize = 32;

/// Lets ops start, one after another. Contracts see which ops conflict and how far each op is.
#[derive(Drop)]
pub struct Gate {
    prints: Vec<Print>,
    phases: Vec<Phase>,
    // the places of the ops that have not ended, the last first: those that are looked at stand at the end
    live: Vec<u32>,
}

impl Model for Gate {
    ghost use Rattle.std.specs.Prelude.{◌≡◌, ◌<◌, ◌^◌, length};
    ghost use Rattle.range_gate.specs.Gates.{Gated, unended};
    ghost use Rattle.range_gate.specs.Windows.{clashes};

    ghost Value = { Gated };

    ghost view = { λ g. record { conflicts = clashes g.prints.items; phases = g.phases.items } };

    ghost invariant = { λ g. (length g.prints.items ≡ length g.phases.items) × (length g.phases.items < 2 ^ 32) × (g.live.items ≡ unended g.phases.items (length g.phases.items)) };
}

impl Gate {
    /// A gate for the ops with these footprints, of which there are fewer than 4,294,967,295. Op `i`, from 1, has
    /// the i-th footprint, and every op waits.
    pub fn new(alloc: Global, prints: Vec<Footprint>) -> Result<Gate, AllocError>
        requires { vec_len prints < 4294967295 }
        ensures { IfOk result (IsGateFor prints.items) }
    {
        let count = prints.len();
        let kept = layouts_of(alloc, &prints)?;
        let phases = vec![in alloc; Phase::Waiting; count]?;
        let live = all_places(alloc, count as u32)?;
        Ok(Gate {
            prints: kept,
            phases,
            live,
        })
    }

    /// Whether the op waits, fewer than 32 earlier ops have not ended, and it conflicts with none of these.
    pub fn may_admit(&self, op: u32) -> bool
        requires some { 1 ≤ op }
        requires within { op ≤ length self.now.phases }
        ensures { result ≡ may_admit self.now (op - 1) }
    {
        if !self.waiting(op) {
            return false;
        }
        let i = op - 1;
        let first = self.live.len() - count_below(&self.live, i);
        let earlier = &self.live[first..];
        earlier.len() < WINDOW && conflicts_with_none(&self.prints, i, earlier)
    }

    /// Lets the op start, which may be admitted.
    pub fn admit(&mut self, op: u32)
        requires some { 1 ≤ op }
        requires within { op ≤ length self.old.phases }
        requires may { may_admit self.old (op - 1) ≡ true }
        ensures phases { self.new.phases ≡ set self.old.phases (op - 1) AnyPhase.Admitted }
        ensures conflicts { self.new.conflicts ≡ self.old.conflicts }
    {
        set_phase(&mut self.phases, op - 1, Phase::Admitted);
    }

    /// Lets the op go, which was admitted and has not ended.
    pub fn end(&mut self, op: u32)
        requires some { 1 ≤ op }
        requires within { op ≤ length self.old.phases }
        requires admitted { phase_at self.old.phases (op - 1) ≡ AnyPhase.Admitted }
        ensures phases { self.new.phases ≡ set self.old.phases (op - 1) AnyPhase.Ended }
        ensures conflicts { self.new.conflicts ≡ self.old.conflicts }
    {
        let i = op - 1;
        let at = place_of(&self.live, i);
        let _gone = self.live.remove(at);
        set_phase(&mut self.phases, i, Phase::Ended);
    }

    /// Whether the op waits.
    pub fn waiting(&self, op: u32) -> bool
        requires some { 1 ≤ op }
        requires within { op ≤ length self.now.phases }
        ensures { result ≡ is_waiting (phase_at self.now.phases (op - 1)) }
    {
        self.phases[op as usize - 1] == Phase::Waiting
    }

    /// Whether the op has ended.
    pub fn ended(&self, op: u32) -> bool
        requires some { 1 ≤ op }
        requires within { op ≤ length self.now.phases }
        ensures { result ≡ has_ended (phase_at self.now.phases (op - 1)) }
    {
        self.phases[op as usize - 1] == Phase::Ended
    }
}

fn layouts_of(alloc: Global, footprints: &[Footprint]) -> Result<Vec<Print>, AllocError>
    ensures { IfOk result (λ v. AreLayoutsOf footprints.now v.items) }
{
    let mut prints = Vec::with_capacity(alloc, footprints.len())?;
    for f in footprints {
        prints.push(Print::of(alloc, f)?)?;
    }
    Ok(prints)
}

/// The places below a number, the last first.
fn all_places(alloc: Global, count: u32) -> Result<Vec<u32>, AllocError>
    ensures { IfOk result (λ v. v.items ≡ falling count) }
{
    let mut places = Vec::with_capacity(alloc, count as usize)?;
    let mut i = count;
    while i > 0 {
        i -= 1;
        places.push(i)?;
    }
    Ok(places)
}

fn set_phase(phases: &mut Vec<Phase>, i: u32, phase: Phase)
    requires { i < length phases.old.items }
    ensures { phases.new.items ≡ set phases.old.items i phase }
{
    phases[i as usize] = phase;
}

/// How many places are below this one, and 32 where there are more.
fn count_below(live: &[u32], i: u32) -> usize
    requires { Falls live.now }
    ensures within { result ≤ length live.now }
    ensures most { result ≤ 32 }
    ensures below { (a : ℕ) → length live.now - result ≤ a → a < length live.now → slice_index live.now a < i }
    ensures all { result < 32 → (a : ℕ) → a < length live.now - result → i ≤ slice_index live.now a }
{
    let mut n = 0usize;
    while n < live.len() && n < WINDOW && live[live.len() - 1 - n] < i {
        n += 1;
    }
    n
}

/// Where this place stands, which is in the list.
fn place_of(live: &[u32], i: u32) -> usize
    requires { (a : ℕ) × (a < length live.now) × (slice_index live.now a ≡ i) }
    ensures within { result < length live.now }
    ensures place { slice_index live.now result ≡ i }
{
    let mut at = live.len() - 1;
    while live[at] != i {
        at -= 1;
    }
    at
}

/// Whether the op conflicts with none of these.
fn conflicts_with_none(prints: &[Print], i: u32, places: &[u32]) -> bool
    requires op { i < length prints.now }
    requires within { (a : ℕ) → a < length places.now → slice_index places.now a < length prints.now }
    ensures { result ≡ none_conflicts (conflict_at (clashes prints.now)) i places.now }
{
    for j in places {
        if prints[*j as usize].conflicts(&prints[i as usize]) {
            return false;
        }
    }
    true
}
