//! The commands in flight, in the order in which they were sent.

ghost use Rattle.std.specs.Prelude.{◌≡◌, ◌<◌, ◌≤◌, ◌+◌, IfOk, false, List, [], ◌∷◌, ◌++◌, length, take, drop, slice_index_or};
ghost use Rattle.std.specs.List.{remove};
ghost use Rattle.std.specs.Vec.{vec_capacity};
ghost use Rattle.stack_laws.specs.View.{no_command};
ghost use Rattle.merge_queue.specs.Groups.{without};
ghost use Rattle.stack_steps.specs.Flights.{bios_in_flight, fates_in_flight, cut_out, earlier};

use bio_core::{Bio, Fate};
use std::alloc::{AllocError, Global};
use std::marker::Model;

/// One command: its device, how many bios and blocks it has, and where they begin among those of all commands.
#[derive(Clone, Copy, Debug, PartialEq, Eq)]
pub struct Flight {
    pub dev: u32,
    pub bios: usize,
    pub blocks: usize,
    pub first_bio: usize,
    pub first_fate: usize,
}

/// Moves n items of a list, from a place on, to another list.
fn take_out<T: Copy>(list: &mut Vec<T>, at: usize, n: usize, into: &mut Vec<T>)
    requires within { at + n ≤ length list.old.items }
    requires room { length into.old.items + n ≤ vec_capacity into.old }
    ensures items { list.new.items ≡ cut_out at n list.old.items }
    ensures capacity { vec_capacity list.new ≡ vec_capacity list.old }
    ensures into { into.new.items ≡ into.old.items ++ take n (drop at list.old.items) }
    ensures into_capacity { vec_capacity into.new ≡ vec_capacity into.old }
{
    for k in 0..n {
        into.push_reserved(list[at + k]);
    }
    let end = list.len();
    turn(list, at, n);
    list.truncate(end - n);
}

/// Lets the n items from a place on change places with those behind them.
fn turn<T: Copy>(list: &mut Vec<T>, at: usize, n: usize)
    requires { at + n ≤ length list.old.items }
    ensures items { list.new.items ≡ take at list.old.items ++ (drop (at + n) list.old.items ++ take n (drop at list.old.items)) }
    ensures length { length list.new.items ≡ length list.old.items }
    ensures capacity { vec_capacity list.new ≡ vec_capacity list.old }
{
    list.slice_mut(at..).rotate_left(n);
}

/// The commands from a place on begin that many bios and fates earlier: those before them are gone.
fn begin_earlier(commands: &mut Vec<Flight>, from: usize, bios: usize, fates: usize)
    requires within { from ≤ length commands.old.items }
    ensures items { commands.new.items ≡ earlier from (length commands.old.items) bios fates commands.old.items }
    ensures capacity { vec_capacity commands.new ≡ vec_capacity commands.old }
{
    for k in from..commands.len() {
        let command = commands[k];
        commands[k] = Flight {
            first_bio: command.first_bio.saturating_sub(bios),
            first_fate: command.first_fate.saturating_sub(fates),
            ..command
        };
    }
}

/// Adds items to a list that has room for them.
fn append<T: Copy>(list: &mut Vec<T>, more: &[T])
    requires room { length list.old.items + length more.now ≤ vec_capacity list.old }
    ensures items { list.new.items ≡ list.old.items ++ more.now }
    ensures capacity { vec_capacity list.new ≡ vec_capacity list.old }
{
    for item in more {
        list.push_reserved(*item);
    }
}

/// The commands in flight.
#[derive(Drop)]
pub struct InFlight {
    commands: Vec<Flight>,
    bios: Vec<Bio>,
    fates: Vec<Fate>,
    room: u32,
}

impl Model for InFlight {
    ghost use Rattle.stack_steps.specs.Flights.{AreFlights, Flights, HaveRoom, shown};

    ghost Value = { Flights };

    ghost view = { λ f. record { commands = shown f.commands.items f.bios.items f.fates.items; room = f.room } };

    ghost invariant = { λ f. AreFlights f.room f.commands.items f.bios.items f.fates.items × HaveRoom f.room f.commands f.bios f.fates };
}

impl InFlight {
    /// No command, and room for as many commands, bios and blocks. All its memory is taken here.
    pub fn new(alloc: Global, room: u32) -> Result<InFlight, AllocError>
        ensures { IfOk result (λ f. (f.commands ≡ []) × (f.room ≡ room)) }
    {
        let commands = Vec::with_capacity(alloc, room as usize)?;
        let bios = Vec::with_capacity(alloc, room as usize)?;
        let fates = Vec::with_capacity(alloc, room as usize)?;
        Ok(InFlight {
            commands,
            bios,
            fates,
            room,
        })
    }

    /// How many commands are in flight.
    pub fn len(&self) -> u32
        ensures { result ≡ length self.now.commands }
    {
        self.commands.len() as u32
    }

    /// Moves command i out: its bios and its fates, and says its device.
    pub fn take(&mut self, i: u32, bios: &mut Vec<Bio>, fates: &mut Vec<Fate>) -> u32
        requires within { i < length self.old.commands }
        requires bios { length bios.old.items + length (slice_index_or self.old.commands i no_command).bios ≤ vec_capacity bios.old }
        requires fates { length fates.old.items + length (slice_index_or self.old.commands i no_command).fates ≤ vec_capacity fates.old }
        ensures dev { result ≡ (slice_index_or self.old.commands i no_command).dev }
        ensures commands { self.new.commands ≡ without i self.old.commands }
        ensures room { self.new.room ≡ self.old.room }
        ensures bios { bios.new.items ≡ bios.old.items ++ (slice_index_or self.old.commands i no_command).bios }
        ensures bios_capacity { vec_capacity bios.new ≡ vec_capacity bios.old }
        ensures fates { fates.new.items ≡ fates.old.items ++ (slice_index_or self.old.commands i no_command).fates }
        ensures fates_capacity { vec_capacity fates.new ≡ vec_capacity fates.old }
    {
        let command = self.commands[i as usize];
        take_out(&mut self.bios, command.first_bio, command.bios, bios);
        take_out(&mut self.fates, command.first_fate, command.blocks, fates);
        let _gone = self.commands.remove(i as usize);
        begin_earlier(&mut self.commands, i as usize, command.bios, command.blocks);
        command.dev
    }

    /// Adds a command as the last.
    pub fn push(&mut self, dev: u32, bios: &[Bio], fates: &[Fate])
        requires commands { length self.old.commands < self.old.room }
        requires bios { bios_in_flight self.old.commands + length bios.now ≤ self.old.room }
        requires fates { fates_in_flight self.old.commands + length fates.now ≤ self.old.room }
        ensures commands { self.new.commands ≡ self.old.commands ++ record { dev = dev; bios = bios.now; fates = fates.now; completed = false } ∷ [] }
        ensures room { self.new.room ≡ self.old.room }
    {
        let first_bio = self.bios.len();
        let first_fate = self.fates.len();
        append(&mut self.bios, bios);
        append(&mut self.fates, fates);
        self.commands.push_reserved(Flight {
            dev,
            bios: bios.len(),
            blocks: fates.len(),
            first_bio,
            first_fate,
        });
    }
}
