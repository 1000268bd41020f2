//! Standard input as a source.

ghost use Rattle.std.specs.Prelude.{◌≡◌, ◌≤◌, None, IfOk, IfSome, OnErr, OnOk, drop, length};
ghost use Rattle.dix_base.specs.Forms.{one_more};
ghost use Rattle.dix_base.specs.Told.{Rose};

use crate::fault_plan::raise;
use crate::streams::{INPUT, position_in};
use crate::{Failed, Source};
use std::io::{ErrorKind, Read, Stdin};
use std::marker::Model;

/// The most bytes of one read.
const PIECE: usize = 32768;

/// Standard input. It doesn't tell what is left.
#[derive(Drop)]
pub struct StdinSource {
    rt: HostRuntime,
    input: Stdin,
    faults: u64,
}

impl Model for StdinSource {
    ghost use Rattle.std.specs.Prelude.{ℕ};

    ghost Value = { ℕ };

    ghost view = { λ s. s.faults };
}

/// Makes one read, and says how many bytes came, if it didn't fail. A read that a signal interrupts is made again.
fn read_once(input: &mut Stdin, into: &mut [u8]) -> Option<usize>
    ensures bound { IfSome result (λ n. n ≤ length into.new) }
    ensures length { length into.new ≡ length into.old }
{
    for _ in 0..u32::MAX {
        match input.read(into) {
            Ok(n) => return Some(n),
            Err(error) if error.kind() == ErrorKind::Interrupted => {}
            Err(_) => return None,
        }
    }
    None
}

/// How many bytes are left of standard input, if it is a plain file and the system tells.
fn left_of(rt: &HostRuntime) -> Option<u64> {
    let file = INPUT.plain_file(rt)?;
    let state = INPUT.state(rt)?;
    file.len().checked_sub(position_in(state.as_str())?)
}

impl StdinSource {
    /// The standard input of this process. A contract sees its count of faults.
    pub fn new(rt: HostRuntime) -> StdinSource
        ensures { result ≡ 0 }
    {
        let input = rt.stdin();
        StdinSource {
            rt,
            input,
            faults: 0,
        }
    }
}

impl Source for StdinSource {
    ghost left = { λ s. None };

    ghost faults = { λ s. s };

    /// Makes one read, of at most 32 KiB. It reads into a buffer of its own, since a read says
    /// nothing of what it leaves past the bytes that came.
    fn take(&mut self, buf: &mut [u8]) -> Result<usize, Failed>
        ensures bound { IfOk result (λ n. n ≤ length buf.old) }
        ensures rest { IfOk result (λ n. drop n buf.new ≡ drop n buf.old) }
        ensures cause { OnErr result (Rose self.old self.new) }
        ensures count { self.old ≤ self.new }

        ensures passed { OnOk result (self.new ≡ self.old) }
        ensures failed { OnErr result (self.new ≡ one_more self.old) }
    {
        let mut came = [0u8; PIECE];
        let most = buf.len().min(came.len());
        if let Some(n) = read_once(&mut self.input, &mut came[..most]) {
            buf[..n].copy_from_slice(&came[..n]);
            return Ok(n);
        }
        raise(&mut self.faults);
        Err(Failed)
    }

    /// What is left of a plain file, by its length and how far it has been read.
    fn len(&self) -> Option<u64> {
        left_of(&self.rt)
    }
}
