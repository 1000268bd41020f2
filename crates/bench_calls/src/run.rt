//! Stacks run to their ends.

ghost use Rattle.std.specs.Prelude.{◌≡◌, ◌+◌, All, IfOk, IfSome, None, false, length};
ghost use Rattle.rig_api.specs.Telling.{Standing};
ghost use Rattle.script_laws.specs.Keeping.{Keeps};
ghost use Rattle.script_text.specs.Bindings.{binding_fault};
ghost use Rattle.script_stack.specs.Beginning.{BlocksAreEnough};
ghost use Rattle.stack_core.specs.Going.{StandsOver};
ghost use Rattle.stack_core.specs.Stacks.{IsStack, Reaches};
ghost use Rattle.volume_table.specs.Tables.{EndFits, MadeFor};

use crate::rig::PlainRig;
use pi_tuple::PiType;
use rig_api::Rig;
use script_laws::a_read_script_keeps_the_rules;
use script_stack::{Run, start_script};
use script_text::{Script, bind_script, read_script};
use stack_core::Stack;
use std::alloc::{AllocError, Global};
use volume_table::{DeviceInfo, VolumeTable};

/// At most so many steps are taken of the greatest run.
const MOST_STEPS: u32 = 100_000;

/// So many words are random.
const RANDOM_WORDS: u32 = 16_384;

/// Which words the steps get.
#[derive(Clone, Copy, PartialEq, Eq)]
pub(crate) enum Words {
    /// No steps at all.
    Unrun,
    /// The first step, and the greatest cut.
    Zeros,
    /// The first step, and cuts of one block.
    FirstOfOne,
    /// The last step, and cuts of one block.
    LastOfOne,
    /// The first step until so many blocks are cut one by one, then the last.
    LastOnceCut,
    /// Any step at first, and cuts of one block.
    RandomOfOne,
}

impl Words {
    pub(crate) fn of(number: u32) -> Words {
        match number {
            0 => Words::Zeros,
            1 => Words::FirstOfOne,
            2 => Words::LastOfOne,
            3 => Words::LastOnceCut,
            4 => Words::RandomOfOne,
            _ => Words::Unrun,
        }
    }
}

/// How many steps admit all ops and cut all blocks one by one.
fn admitted_and_cut(stack: &Stack) -> usize
    requires { IsStack stack.now }
{
    stack
        .replies()
        .len()
        .saturating_add(stack.blocks() as usize)
}

/// The word and the cut of a step; `drawn` is a random number.
fn word_of(words: Words, stack: &Stack, step: u32, drawn: u32) -> (u32, u32)
    requires { IsStack stack.now }
{
    let is_last = words == Words::LastOfOne
        || words == Words::LastOnceCut && step as usize >= admitted_and_cut(stack);
    if is_last {
        return (stack.enabled().saturating_sub(1), 1);
    }
    match words {
        Words::Zeros | Words::Unrun => (0, 0),
        Words::RandomOfOne if step < RANDOM_WORDS => (drawn, 1),
        Words::RandomOfOne => (0, 0),
        _ => (0, 1),
    }
}

fn drawn_after(drawn: u32) -> u32 {
    drawn.wrapping_mul(1_664_525).wrapping_add(1_013_904_223)
}

/// Takes steps until all ops have ended.
fn run_words<R: Rig>(stack: &mut Stack, words: Words, rig: &mut R)
    requires { StandsOver stack.old (R.state rig.old) }
    ensures { IsStack stack.new }
{
    let mut drawn = 1;
    for step in 0..MOST_STEPS {
        if stack.finished() {
            return;
        }
        drawn = drawn_after(drawn);
        let (word, cut) = word_of(words, stack, step, drawn >> 8);
        stack.step(word, cut, rig);
    }
}

/// Devices of all types, of which the second is used.
fn devices() -> [DeviceInfo; 8]
    ensures count { length result ≡ 8 }
    ensures ends { All EndFits result }
{
    let one = DeviceInfo {
        ty: PiType::One,
        blocks: 65_536,
        size: 512,
        first: 0,
    };
    [one; 8]
}

/// The script of a text.
fn script_of(alloc: Global, text: &[u8]) -> Option<Script>
    ensures keeps { IfSome result Keeps }
    ensures lines { IfSome result (λ s. length s.lines ≡ length s.faults + length s.ops) }
{
    let Ok(script) = read_script(alloc, text) else {
        return None;
    };
    a_read_script_keeps_the_rules(text, &script);
    Some(script)
}

/// The stack of a script.
fn started(
    alloc: Global,
    script: Script,
    table: VolumeTable,
    devices: &[DeviceInfo],
) -> Result<Stack, AllocError>
    requires keeps { Keeps script }
    requires lines { length script.lines ≡ length script.faults + length script.ops }
    requires count { length devices.now ≡ 8 }
    requires made { MadeFor table devices.now script.block }
    requires bound { binding_fault script table devices.now ≡ None }
    ensures stack { IfOk result IsStack }
    ensures reaches { IfOk result (λ s. (st : Standing) → st.devices ≡ 8 → Reaches s false st) }
    ensures spare { IfOk result BlocksAreEnough }
{
    let Run { stack, .. } = start_script(alloc, script, table, devices)?;
    Ok(stack)
}

/// How many commands were sent once all ops have ended, or none where they don't. Nothing is run where the words say so.
fn commands<R: Rig>(stack: &mut Stack, words: Words, rig: &mut R) -> Option<u32>
    requires { StandsOver stack.old (R.state rig.old) }
{
    if words == Words::Unrun {
        return Some(0);
    }
    run_words(stack, words, rig);
    if stack.finished() {
        Some(rig.records())
    } else {
        None
    }
}

/// Lets a stack run over the plain rig. Answers how many commands were sent, or none where it didn't end.
fn sent(alloc: Global, mut stack: Stack, words: Words) -> Result<Option<u32>, AllocError>
    requires stack { IsStack stack }
    requires reaches { (st : Standing) → st.devices ≡ 8 → Reaches stack false st }
    requires spare { BlocksAreEnough stack }
{
    let mut rig = PlainRig::new(alloc);
    let blocks = stack.blocks();
    rig.reserve(alloc, blocks, blocks)?;
    Ok(commands(&mut stack, words, &mut rig))
}

/// How many commands were sent once all ops have ended, or none where the text isn't run.
pub(crate) fn ended(alloc: Global, text: &[u8], words: Words) -> Result<Option<u32>, AllocError> {
    let Some(script) = script_of(alloc, text) else {
        return Ok(None);
    };
    let devices = devices();
    let Ok(table) = VolumeTable::new(alloc, &script.entries, &devices, script.block) else {
        return Ok(None);
    };
    if bind_script(&script, &table, &devices).is_err() {
        return Ok(None);
    }
    let stack = started(alloc, script, table, &devices)?;
    sent(alloc, stack, words)
}
