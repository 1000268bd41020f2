//! Checking a dump, without an image.

ghost use Rattle.call_verdict.specs.Verdicts.{IsPassedOn};
ghost use Rattle.std.specs.Prelude.{◌≡◌, ◌<◌, ◌≤◌, ◌^◌, Some, IfOk, IfSome, true};
ghost use Rattle.dix_base.specs.Stores.{StoreState};
ghost use Rattle.dump_check.specs.Forms.{is_fit, stride_of};
ghost use Rattle.lab_run.specs.declared.command.Command.{Command};
ghost use Rattle.rig_api.specs.State.{RigState};
ghost use Rattle.call_verdict.specs.Words.{word_bytes};
ghost use Rattle.lab_run.specs.Calls.{on_input};
ghost use Rattle.lab_run.specs.Checking.{IsReady, checked_status, dump_of, end_in, flags_of, is_app_fit, is_tag_fit, narrow_of, storage_of, wide_of};
ghost use Rattle.lab_run.specs.Commands.{Came};

use crate::check_words::CheckWords;
use crate::refusal::Refusal;
use crate::showing::ROOM;
use call_verdict::{Status, status_for};
use dix_base::{Sink, Source};
use dump_check::{CheckFault, Checked, Dump, Form, check_dump};
use pi_blocks::{Layout, Want};
use std::alloc::Global;
use wide_blocks::{NvmeLayout, NvmeWant};

/// What is checked: the guard, the application tag where one is given, and the reference tag in type 1, and in type 2
/// where one is given.
fn flags_of(words: CheckWords) -> u32
    ensures { result ≡ flags_of words }
{
    let app = if words.app.is_some() { 4 } else { 0 };
    let tag = words.pi_type == 1 || words.pi_type == 2 && words.tag.is_some();
    2 + app + if tag { 8 } else { 0 }
}

/// Whether no reference tag is given of type 3, which has none.
fn is_tag_fit(words: CheckWords) -> bool
    ensures { result ≡ is_tag_fit words }
{
    words.pi_type != 3 || words.tag.is_none()
}

/// Whether no mask is given without an application tag.
fn is_app_fit(words: CheckWords) -> bool
    ensures { result ≡ is_app_fit words }
{
    words.app.is_some() || words.mask.is_none()
}

/// Blocks with tuples of 8 bytes.
fn narrow_of(words: CheckWords) -> Option<Form>
    ensures { result ≡ narrow_of words }
{
    let tag = words.tag.unwrap_or(words.first & 0xFFFF_FFFF);
    if words.storage.is_some() || tag > 0xFFFF_FFFF {
        return None;
    }
    let layout = Layout {
        data_size: words.size,
        meta_size: words.meta,
        tuple_at: words.at,
        pi_type: words.pi_type,
        guard: 0,
    };
    let want = Want {
        first_ref: tag as u32,
        app: words.app.unwrap_or(0),
        mask: words.mask.unwrap_or(0xFFFF),
        checks: flags_of(words),
    };
    Some(Form::Narrow { layout, want })
}

/// The end of the metadata at which 16 bytes from this place on stand: 0 for the front, 1 for the end.
fn end_in(words: CheckWords) -> Option<u32>
    ensures { result ≡ end_in words }
{
    if words.at == 0 {
        Some(0)
    } else if u64::from(words.at) + 16 == u64::from(words.meta) {
        Some(1)
    } else {
        None
    }
}

/// The bits of a storage tag: where none are given as few as the guard allows.
fn storage_of(words: CheckWords) -> u32
    ensures { result ≡ storage_of words }
{
    let least = if words.guard == 32 { 16 } else { 0 };
    words.storage.unwrap_or(least)
}

/// Blocks with protection information of 16 bytes.
fn wide_of(words: CheckWords) -> Option<Form>
    ensures { result ≡ wide_of words }
{
    let layout = NvmeLayout {
        data_size: words.size,
        meta_size: words.meta,
        at_end: end_in(words)?,
        guard: words.guard,
        pi_type: words.pi_type,
        storage: storage_of(words),
    };
    let want = NvmeWant {
        first_ref: words.tag.unwrap_or(words.first),
        storage: 0,
        storage_mask: 0,
        app: words.app.unwrap_or(0),
        mask: words.mask.unwrap_or(0xFFFF),
        checks: flags_of(words),
    };
    Some(Form::Wide { layout, want })
}

/// The dump that the words say, where they fit one another.
fn dump_of(words: CheckWords) -> Option<Dump>
    ensures value { result ≡ dump_of words }
    ensures ready { IfSome result IsReady }
{
    if !is_tag_fit(words) || !is_app_fit(words) {
        return None;
    }
    let form = if words.guard == 16 {
        narrow_of(words)?
    } else {
        wide_of(words)?
    };
    let is_small = form.stride() <= ROOM && words.first < 0x8000_0000_0000_0000;
    if !is_small || !form.is_fit() {
        return None;
    }
    Some(Dump {
        first: words.first,
        form,
    })
}

/// The status of a dump that was checked, or wasn't.
fn checked_status(ended: Result<Checked, CheckFault>) -> Status
    ensures { result ≡ checked_status ended }
{
    match ended {
        Ok(checked) => {
            if checked.rest > 0 {
                Status::Input
            } else {
                status_for(checked.tally.bad > 0)
            }
        }
        Err(CheckFault::Source) => Status::ReadFault,
        Err(CheckFault::Sink) => Status::WriteFault,
        Err(CheckFault::Endless) => Status::Input,
    }
}

/// `check FLAG VALUE ..`: writes the bad blocks of the dump that the source gives.
pub(crate) fn check<S: Source, O: Sink>(
    alloc: Global,
    words: &[String],
    said: CheckWords,
    input: &mut S,
    out: &mut O,
) -> Result<Status, Refusal>
    ensures came { (h : StoreState) (rig : RigState) (second : StoreState) → Came (Some (Command.Check said)) result
        (on_input (word_bytes words.now) h h (S.left input.old) (S.left input.new) (S.faults input.old) (S.faults input.new) rig second)
        (O.taken out.old) (O.taken out.new) (O.faults out.old) (O.faults out.new) }
    ensures handed { IfOk result (λ status. IsPassedOn status (O.passed out.new) (O.taken out.new)) }
{
    let _words = words;
    let Some(dump) = dump_of(said) else {
        return Err(Refusal::Words);
    };
    let mut room = vec![in alloc; 0u8; ROOM]?;
    Ok(checked_status(check_dump(input, dump, &mut room, out)))
}
