//! The run.

ghost use Rattle.std.specs.Prelude.{◌≡◌, ◌≤◌, [], ◌∷◌, IfOk, Some};
ghost use Rattle.pi_guard.specs.Guards.{crc};
ghost use Rattle.report_text.specs.Report.{report};
ghost use Rattle.script_text.specs.Generator.{big};
ghost use Rattle.rig_api.specs.Image.{formatted};
ghost use Rattle.big_run.specs.Plain.{big_unit};
ghost use Rattle.big_run.specs.Ran.{RanBig};

use crate::counting::{OpCounts, bad_blocks, counts_of};
use dix_base::{CalmStore, Failed, MemSink};
use image_rig::ImageRig;
use pi_guard::crc16;
use pi_tuple::PiType;
use report_text::print_report;
use rig_api::{Rig, UnitSpec};
use run_command::{Finished, run_script};
use script_laws::a_big_script_keeps_the_rules;
use script_text::{Script, big_script};
use std::alloc::{AllocError, Global};

/// What the run of a generated script came to.
#[derive(Clone, Copy, Debug, PartialEq, Eq)]
pub struct BigRun {
    /// What its ops are.
    pub counts: OpCounts,
    /// How many blocks failed.
    pub bad: u64,
    /// Whether something failed.
    pub has_bad: bool,
    /// How many commands were exchanged with the devices, after they were asked what they are.
    pub exchanges: u32,
    /// The CRC guard of the report.
    pub sum: u16,
}

/// Each of the two units.
const UNIT: UnitSpec = UnitSpec {
    ty: PiType::One,
    blocks: 4096,
    size: 512,
    first: 0,
};

/// A rig over the formatted image of the two units, in memory.
fn formatted(alloc: Global) -> Result<ImageRig<CalmStore>, AllocError>
    ensures image { IfOk result (λ r. (⟦<ImageRig<CalmStore> as Rig>⟧.state r).image ≡ Some (formatted (big_unit ∷ big_unit ∷ []))) }
    ensures log { IfOk result (λ r. (⟦<ImageRig<CalmStore> as Rig>⟧.state r).log ≡ []) }
{
    let mut rig = ImageRig::new(alloc, CalmStore::new(Vec::new(alloc)));
    match rig.format(alloc, "big", &[UNIT, UNIT]) {
        Ok(()) => Ok(rig),
        Err(_) => Err(AllocError),
    }
}

/// The CRC guard of the report of a run of `n` ops.
fn sum_of(alloc: Global, n: u32, run: &Finished) -> Result<u16, AllocError>
    requires { n ≤ 1024 }
    ensures { IfOk result (λ sum. sum ≡ crc (report run.now.stack.replies.items)) }
{
    let mut out = MemSink::new(alloc, 13 + 41 * n, Vec::new(alloc))?;
    match print_report(&mut out, run.stack.replies()) {
        Ok(()) => Ok(crc16(out.bytes())),
        Err(Failed) => Err(AllocError),
    }
}

/// Runs the script that was made of `n` and a seed over the formatted image of the two units.
fn run_over(
    alloc: Global,
    n: u32,
    seed: u32,
    script: Script,
    rig: &mut ImageRig<CalmStore>,
) -> Result<BigRun, AllocError>
    requires few { n ≤ 1024 }
    requires script { script ≡ big n seed }
    requires image { (⟦<ImageRig<CalmStore> as Rig>⟧.state rig.old).image ≡ Some (formatted (big_unit ∷ big_unit ∷ [])) }
    requires log { (⟦<ImageRig<CalmStore> as Rig>⟧.state rig.old).log ≡ [] }
    ensures { IfOk result (λ b. RanBig n seed b) }
{
    a_big_script_keeps_the_rules(n, seed, &script);
    let counts = counts_of(script.ops.as_slice());
    let Ok(run) = run_script(alloc, "big", script, rig) else {
        return Err(AllocError);
    };
    let sum = sum_of(alloc, n, &run)?;
    Ok(BigRun {
        counts,
        bad: bad_blocks(run.stack.replies()),
        has_bad: run.has_bad(),
        exchanges: rig.records() - rig.devices(),
        sum,
    })
}

/// Runs the script of `n` ops, at most 1,024, that the numbers from this seed on make, over two units
/// of type 1 with 4,096 blocks each, which are formatted first. All of it is in memory.
pub fn run_big(alloc: Global, n: u32, seed: u32) -> Result<BigRun, AllocError>
    requires { n ≤ 1024 }
    ensures { IfOk result (λ b. RanBig n seed b) }
{
    let script = big_script(alloc, n, seed)?;
    let mut rig = formatted(alloc)?;
    run_over(alloc, n, seed, script, &mut rig)
}
