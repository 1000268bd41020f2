//! The line of a bad block.

ghost use Rattle.std.specs.Prelude.{◌≡◌, ◌+◌, ◌*◌, ◌^◌, ◌<◌, ◌≤◌, ◌++◌, IfOk, length, take, drop, true};
ghost use Rattle.dump_check.specs.Finding.{found_of, info_of};
ghost use Rattle.dump_check.specs.Forms.{guard_len, is_fit, stride_of, wide_from};
ghost use Rattle.wide_blocks.specs.Blocks.{ref_of};
ghost use Rattle.dump_check.specs.Lines.{bad_line, block_text, guard_text, have_text, is_bad, name_of, tag_text};
ghost use Rattle.report_text.specs.Writing.{Wrote};

use crate::finding::{Judgement, find, info_of, kind_of, low, narrow_from, wide_from};
use crate::form::{Dump, Form};
use dix_base::{Failed, Sink};
use report_text::{Line, add, add_hex, add_number, write_all};
use wide_blocks::{NvmeLayout, NvmeWant};
use wide_guard::{crc32c, crc64};

/// Whether a block is at fault.
fn is_bad(found: Judgement) -> bool
    ensures { result ≡ is_bad found }
{
    match found {
        Judgement::Nothing | Judgement::Escape => false,
        Judgement::Guard | Judgement::AppTag | Judgement::RefTag { .. } => true,
    }
}

fn name_of(found: Judgement) -> &'static [u8]
    ensures name { result.now ≡ name_of found }
    ensures short { length result.now ≤ 6 }
{
    match found {
        Judgement::Nothing => b"ok",
        Judgement::Escape => b"escape",
        Judgement::Guard => b"guard",
        Judgement::AppTag => b"apptag",
        Judgement::RefTag { .. } => b"ref",
    }
}

/// Puts the protection information of a block behind the line: guard, application tag and the rest.
fn add_have(line: &mut Line, form: Form, block: &[u8])
    requires fit { is_fit form ≡ true }
    requires whole { length block.now ≡ stride_of form }
    requires room { length line.old.items ≤ 64 }
    ensures items { line.new.items ≡ line.old.items ++ have_text form block.now }
    ensures bound { length line.new.items ≤ length line.old.items + 34 }
{
    let info = info_of(form, block);
    let (guard, tags) = info.split_at(form.guard_len());
    let (app, rest) = tags.split_at(2);
    add_hex(line, guard);
    add(line, b" ");
    add_hex(line, app);
    add(line, b" ");
    add_hex(line, rest);
}

/// Puts the guard of a block's bytes behind the line.
fn add_guard(line: &mut Line, form: Form, block: &[u8])
    requires fit { is_fit form ≡ true }
    requires whole { length block.now ≡ stride_of form }
    requires room { length line.old.items ≤ 128 }
    ensures items { line.new.items ≡ line.old.items ++ guard_text form block.now }
    ensures bound { length line.new.items ≤ length line.old.items + 16 }
{
    let bytes = &block[..form.covered()];
    match form {
        Form::Narrow { layout, .. } => {
            add_hex(line, &kind_of(layout.guard).guard(bytes).to_be_bytes())
        }
        Form::Wide { layout, .. } => {
            if layout.guard == 32 {
                add_hex(line, &crc32c(bytes).to_be_bytes())
            } else {
                add_hex(line, &crc64(bytes).to_be_bytes())
            }
        }
    }
}

/// The reference tag that is wanted of block i.
fn wide_tag(layout: NvmeLayout, want: NvmeWant, i: u64) -> u64
    requires { is_fit (Form.Wide layout want) ≡ true }
    ensures { result ≡ ref_of layout (wide_from want i) 0 }
{
    let bits = Form::Wide { layout, want }.bits();
    low(u128::from(wide_from(want, i).first_ref), bits)
}

/// Puts the reference tag that is wanted of block i behind the line, where one is.
fn add_tag(line: &mut Line, form: Form, i: u64)
    requires fit { is_fit form ≡ true }
    requires room { length line.old.items ≤ 256 }
    ensures items { line.new.items ≡ line.old.items ++ tag_text form i }
    ensures bound { length line.new.items ≤ length line.old.items + 16 }
{
    if !form.has_tag() {
        add(line, b"-");
        return;
    }
    match form {
        Form::Narrow { want, .. } => {
            add_hex(line, &narrow_from(want, i).first_ref.to_be_bytes())
        }
        Form::Wide { layout, want } => { add_hex(line, &wide_tag(layout, want, i).to_be_bytes()) }
    }
}

/// The line of block i of a dump, of which this is found.
fn line_of(dump: Dump, i: u64, block: &[u8], found: Judgement) -> Line
    requires fit { is_fit dump.form ≡ true }
    requires whole { length block.now ≡ stride_of dump.form }
    requires room { dump.first + i < 2 ^ 64 }
    ensures { result.items ≡ bad_line dump i block.now found }
{
    let mut line = Line::new();
    add(&mut line, b"0 ");
    add_number(&mut line, dump.first + i);
    add(&mut line, b" have ");
    add_have(&mut line, dump.form, block);
    add(&mut line, b" want ");
    add_guard(&mut line, dump.form, block);
    add(&mut line, b" ");
    add_tag(&mut line, dump.form, i);
    add(&mut line, b" ");
    add(&mut line, name_of(found));
    add(&mut line, b"\n");
    line
}

/// Writes the line of block i, where it is at fault, and says what is found of it.
pub(crate) fn write_block<O: Sink>(
    out: &mut O,
    dump: Dump,
    i: u64,
    block: &[u8],
) -> Result<Judgement, Failed>
    requires fit { is_fit dump.form ≡ true }
    requires whole { length block.now ≡ stride_of dump.form }
    requires room { dump.first + i < 2 ^ 64 }
    ensures found { IfOk result (λ found. found ≡ found_of dump.form i block.now) }
    ensures wrote { Wrote O.taken O.faults (block_text dump i block.now) out.old out.new result }
{
    let found = find(dump.form, i, block);
    if is_bad(found) {
        write_all(out, line_of(dump, i, block, found).as_slice())?;
    }
    Ok(found)
}
