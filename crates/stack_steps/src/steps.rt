//! The steps.

ghost use Rattle.std.specs.Prelude.{◌≡◌, ◌<◌, ◌≤◌, ◌+◌, ◌%◌, ◌↔◌, ℕ, IsTrue, [], length};
ghost use Rattle.std.specs.Vec.{vec_capacity};
ghost use Rattle.stack_laws.specs.Plan.{Plan};
ghost use Rattle.stack_laws.specs.Runs.{blocks_of_requests};
ghost use Rattle.stack_laws.specs.Steps.{enabled, chosen};
ghost use Rattle.stack_laws.specs.View.{View};
ghost use Rattle.stack_steps.specs.declared.choice.Choice.TheVariants.{End, Complete, Admit, Cut, Join, Send};
ghost use Rattle.stack_steps.specs.Does.{Holds, Works, CanStep, Chooses, IsReady, IsReadyFor, IsSending, Ready, Does, OfOp, Cuts, Lands, Takes, Flies};
ghost use Rattle.stack_steps.specs.Fine.{Fine};

use crate::choice::{count_choices, nth_choice};
use crate::piece::next_piece;
use crate::rests::put_rests;
use crate::state::settle;
use crate::{Choice, Machine, Requests};
use bio_core::{Bio, Fate};

fn has_none(live: &[u32]) -> bool
    ensures { IsTrue result ↔ length live.now ≡ 0 }
{
    live.is_empty()
}

impl Machine {
    /// How many steps are enabled.
    pub fn enabled<P: Requests>(&self, plan: &P) -> u32
        requires { Works (P.plan plan.now) self.now }
        ensures { (v : View) → Holds (P.plan plan.now) self.now v → result ≡ length (enabled (P.plan plan.now) v) }
    {
        count_choices(
            plan,
            &self.gate,
            &self.ops,
            self.live.as_slice(),
            &self.queues,
            &self.flight,
        ) as u32
    }

    /// Whether no step is enabled: all ops have ended.
    pub fn finished(&self) -> bool
        ensures { (plan : Plan) (v : View) → Holds plan self.now v → IsTrue result ↔ enabled plan v ≡ [] }
    {
        has_none(self.live.as_slice())
    }

    /// How many steps were done.
    pub fn steps(&self) -> u64
        ensures { result ≡ self.now.steps }
    {
        self.steps
    }

    /// The step of a word: number `word` modulo the number of enabled steps. Some step is enabled.
    pub fn choose<P: Requests>(&self, plan: &P, word: u32) -> Choice
        requires { CanStep (P.plan plan.now) self.now }
        ensures { Chooses (P.plan plan.now) self.now word result }
    {
        let number = self.number_of(plan, word);
        nth_choice(
            plan,
            &self.gate,
            &self.ops,
            self.live.as_slice(),
            &self.queues,
            &self.flight,
            number as u64,
        )
    }

    /// The number of the step of a word among those that are enabled. The first one needs no count.
    fn number_of<P: Requests>(&self, plan: &P, word: u32) -> u32
        requires { CanStep (P.plan plan.now) self.now }
        ensures { (v : View) → Holds (P.plan plan.now) self.now v → 0 < length (enabled (P.plan plan.now) v) → result ≡ word % length (enabled (P.plan plan.now) v) }
    {
        if word == 0 {
            return 0;
        }
        word % self.enabled(plan)
    }

    /// An op ends, all of whose blocks are settled. Answers its place.
    pub fn end(&mut self, q: usize) -> u32
        requires { IsReady self.old (End q) }
        ensures op { (plan : Plan) → Fine plan → OfOp plan self.old (End q) result }
        ensures step { (plan : Plan) (cut : ℕ) → Fine plan → Does plan self.old (End q) cut self.new }
    {
        let op = self.live.at(q);
        self.gate.end(op + 1);
        self.live.remove(q);
        self.steps += 1;
        op
    }

    /// An op is admitted; with no blocks it ends at once. Answers its place.
    pub fn admit<P: Requests>(&mut self, plan: &P, q: usize) -> u32
        requires { Ready (P.plan plan.now) self.old (Admit q) }
        ensures op { OfOp (P.plan plan.now) self.old (Admit q) result }
        ensures step { (cut : ℕ) → Does (P.plan plan.now) self.old (Admit q) cut self.new }
    {
        let op = self.live.at(q);
        self.gate.admit(op + 1);
        if plan.io(op).count == 0 {
            self.gate.end(op + 1);
            self.live.remove(q);
        }
        self.steps += 1;
        op
    }

    /// The next piece of an op goes into its device's queue: the greatest one for size 0, else one of that size, taken
    /// round within it. Answers the piece.
    pub fn cut<P: Requests>(&mut self, plan: &P, q: usize, size: u32) -> Bio
        requires { Ready (P.plan plan.now) self.old (Cut q) }
        ensures piece { Cuts (P.plan plan.now) self.old q size result }
        ensures step { Does (P.plan plan.now) self.old (Cut q) size self.new }
    {
        let op = self.live.at(q);
        let k = self.ops[op as usize].cut;
        let bio = next_piece(plan, op, k, size);
        self.rest.clear();
        self.rest.push_reserved(bio);
        self.queues[bio.dev as usize].put(&self.rest);
        self.ops[op as usize].cut += bio.count;
        self.steps += 1;
        bio
    }

    /// Two groups of a device become one.
    pub fn join(&mut self, d: u32, i: u32, j: u32)
        requires { IsReady self.old (Join d i j) }
        ensures { (plan : Plan) (cut : ℕ) → Fine plan → Does plan self.old (Join d i j) cut self.new }
    {
        self.queues[d as usize].join(i, j);
        self.steps += 1;
    }

    /// The first half of a sending: a group is taken out of its queue, into a list with room for all blocks.
    pub fn take(&mut self, d: u32, i: u32, group: &mut Vec<Bio>)
        requires { IsReadyFor (vec_capacity group.old) self.old (Send d i) }
        ensures takes { (plan : Plan) → Takes plan self.old d i group.new.items self.new }
        ensures capacity { vec_capacity group.new ≡ vec_capacity group.old }
    {
        group.clear();
        self.queues[d as usize].take(i, group);
    }

    /// The other half: the group is in flight, with the fates of its blocks, of which one at least is settled.
    pub fn fly(&mut self, d: u32, group: &[Bio], fates: &[Fate])
        requires { IsSending self.old d group.now fates.now }
        ensures { (plan : Plan) → Fine plan → Flies plan self.old d group.now fates.now self.new }
    {
        self.flight.push(d, group, fates);
        self.steps += 1;
    }

    /// A command is completed: what is settled of it is settled, and each run of untouched blocks goes back into the
    /// queue. Its bios and fates are put into two lists with room for all blocks.
    pub fn complete<P: Requests>(
        &mut self,
        plan: &P,
        i: u32,
        bios: &mut Vec<Bio>,
        fates: &mut Vec<Fate>,
    )
        requires ready { Ready (P.plan plan.now) self.old (Complete i) }
        requires bios { blocks_of_requests (P.plan plan.now).requests ≤ vec_capacity bios.old }
        requires fates { blocks_of_requests (P.plan plan.now).requests ≤ vec_capacity fates.old }
        ensures lands { Lands (P.plan plan.now) self.old i bios.new.items fates.new.items }
        ensures step { (cut : ℕ) → Does (P.plan plan.now) self.old (Complete i) cut self.new }
        ensures bios { vec_capacity bios.new ≡ vec_capacity bios.old }
        ensures fates { vec_capacity fates.new ≡ vec_capacity fates.old }
    {
        bios.clear();
        fates.clear();
        let d = self.flight.take(i, bios, fates);
        settle(&mut self.ops, bios, fates);
        put_rests(
            plan,
            bios,
            fates,
            &mut self.rest,
            &mut self.queues[d as usize],
        );
        self.steps += 1;
    }
}
