//! What is found of a block of a dump.

ghost use Rattle.std.specs.Prelude.{◌≡◌, ◌+◌, ◌-◌, ◌^◌, ◌%◌, ◌≤◌, length, take, drop, true};
ghost use Rattle.dump_check.specs.Forms.{covered_of, info_len, is_fit, narrow_from, stride_of, wide_from};
ghost use Rattle.dump_check.specs.Finding.{are_ones, by_check, distance, found_of, info_of, is_escape, narrow_found, tags_of, wide_found};
ghost use Rattle.pi_blocks.specs.Blocks.{in_line, looked};
ghost use Rattle.pi_blocks.specs.Layouts.{kind_of};
ghost use Rattle.wide_blocks.specs.Blocks.{in_line as in_wide_line, looked as wide_looked};

use crate::form::Form;
use pi_blocks::{Found, Layout, Want, check};
use pi_guard::GuardKind;
use wide_blocks::{NvmeFound, NvmeLayout, NvmeWant, verify_wide};

/// What is found of a block.
#[derive(Clone, Copy, Debug, PartialEq, Eq)]
pub enum Judgement {
    /// Nothing.
    Nothing,
    /// Its protection information says that it isn't to be checked.
    Escape,
    /// The guard isn't that of its bytes.
    Guard,
    /// The application tag isn't the one wanted, in the bits of the mask.
    AppTag,
    /// The reference tag isn't the one wanted, but so much higher, modulo its width.
    RefTag { shift: u64 },
}

/// The protection information of a block.
pub(crate) fn info_of(form: Form, block: &[u8]) -> &[u8]
    requires fit { is_fit form ≡ true }
    requires whole { length block.now ≡ stride_of form }
    ensures value { result.now ≡ info_of form block.now }
    ensures length { length result.now ≡ info_len form }
{
    let at = form.covered();
    &block[at..at + form.info_len()]
}

fn are_ones(bytes: &[u8]) -> bool
    ensures { result ≡ are_ones bytes.now }
{
    bytes.iter().all(|b| *b == 0xFF)
}

/// The tags that say whether a block is to be checked: the application tag, in type 3 with all that stands behind it.
fn tags_of(form: Form, block: &[u8]) -> &[u8]
    requires fit { is_fit form ≡ true }
    requires whole { length block.now ≡ stride_of form }
    ensures { result.now ≡ tags_of form block.now }
{
    let info = info_of(form, block);
    let (_, tags) = info.split_at(form.guard_len());
    if form.is_three() { tags } else { &tags[..2] }
}

/// Whether a block's protection information says that it isn't to be checked.
fn is_escape(form: Form, block: &[u8]) -> bool
    requires fit { is_fit form ≡ true }
    requires whole { length block.now ≡ stride_of form }
    ensures { result ≡ is_escape form block.now }
{
    are_ones(tags_of(form, block))
}

/// The low bits of a number.
pub(crate) fn low(n: u128, bits: u32) -> u64
    requires { bits ≤ 64 }
    ensures { result ≡ n % 2 ^ bits }
{
    (n & ((1 << bits) - 1)) as u64
}

/// How much higher a tag is than the one wanted, modulo its width.
fn distance(bits: u32, expected: u64, actual: u64) -> u64
    requires { bits ≤ 64 }
    ensures { result ≡ distance bits expected actual }
{
    low(u128::from(actual) + (1 << 64) - u128::from(expected), bits)
}

fn by_check(check: u32, shift: u64) -> Judgement
    ensures { result ≡ by_check check shift }
{
    match check {
        2 => Judgement::Guard,
        4 => Judgement::AppTag,
        _ => Judgement::RefTag { shift },
    }
}

/// The kind of guard of a number.
pub(crate) fn kind_of(guard: u32) -> GuardKind
    ensures { result ≡ kind_of guard }
{
    match guard {
        0 => GuardKind::Crc,
        _ => GuardKind::Ip,
    }
}

/// What is wanted from block i on.
pub(crate) fn narrow_from(want: Want, i: u64) -> Want
    ensures { result ≡ narrow_from want i }
{
    Want {
        first_ref: want.first_ref.wrapping_add((i & 0xFFFF_FFFF) as u32),
        ..want
    }
}

/// What is wanted from block i on.
pub(crate) fn wide_from(want: NvmeWant, i: u64) -> NvmeWant
    ensures { result ≡ wide_from want i }
{
    NvmeWant {
        first_ref: want.first_ref.wrapping_add(i),
        ..want
    }
}

/// The eight bytes at this place.
fn eight_at(bytes: &[u8], at: usize) -> &[u8; 8]
    requires { at + 8 ≤ length bytes.now }
    ensures { result.now ≡ take 8 (drop at bytes.now) }
{
    match bytes[at..].first_chunk::<8>() {
        Some(eight) => eight,
        None => unreachable!(),
    }
}

/// What a block is found to differ in.
fn look(layout: Layout, want: Want, block: &[u8]) -> Option<Found>
    requires fit { is_fit (Form.Narrow layout want) ≡ true }
    requires whole { length block.now ≡ stride_of (Form.Narrow layout want) }
    ensures { result ≡ looked layout want (in_line layout block.now) 0 }
{
    let covered = Form::Narrow { layout, want }.covered();
    let guard = kind_of(layout.guard).guard(&block[..covered]);
    let tuple = eight_at(block, covered);
    match check(layout.pi_type, tuple, guard, &want, 0) {
        Ok(found) => found,
        Err(_) => unreachable!(),
    }
}

/// What a block with protection information of 16 bytes is found to differ in.
fn look_wide(layout: NvmeLayout, want: NvmeWant, block: &[u8]) -> Option<NvmeFound>
    requires fit { is_fit (Form.Wide layout want) ≡ true }
    requires whole { length block.now ≡ stride_of (Form.Wide layout want) }
    ensures { result ≡ wide_looked layout want (in_wide_line layout block.now) 0 }
{
    match verify_wide(block, &layout, &want, 0) {
        Ok(found) => found,
        Err(_) => unreachable!(),
    }
}

fn find_narrow(layout: Layout, want: Want, i: u64, block: &[u8]) -> Judgement
    requires fit { is_fit (Form.Narrow layout want) ≡ true }
    requires whole { length block.now ≡ stride_of (Form.Narrow layout want) }
    ensures { result ≡ narrow_found layout want i block.now }
{
    match look(layout, narrow_from(want, i), block) {
        None => Judgement::Nothing,
        Some(found) => by_check(
            found.check,
            distance(32, u64::from(found.expected), u64::from(found.actual)),
        ),
    }
}

fn find_wide(layout: NvmeLayout, want: NvmeWant, i: u64, block: &[u8]) -> Judgement
    requires fit { is_fit (Form.Wide layout want) ≡ true }
    requires whole { length block.now ≡ stride_of (Form.Wide layout want) }
    ensures { result ≡ wide_found layout want i block.now }
{
    let bits = Form::Wide { layout, want }.bits();
    match look_wide(layout, wide_from(want, i), block) {
        None => Judgement::Nothing,
        Some(found) => by_check(found.check, distance(bits, found.expected, found.actual)),
    }
}

/// What is found of block i of a dump.
pub fn find(form: Form, i: u64, block: &[u8]) -> Judgement
    requires fit { is_fit form ≡ true }
    requires whole { length block.now ≡ stride_of form }
    ensures { result ≡ found_of form i block.now }
{
    if is_escape(form, block) {
        return Judgement::Escape;
    }
    match form {
        Form::Narrow { layout, want } => find_narrow(layout, want, i, block),
        Form::Wide { layout, want } => find_wide(layout, want, i, block),
    }
}
