//! The text that tells in which blocks two places differ.

ghost use Rattle.std.specs.Prelude.{◌≡◌, ◌+◌, ◌*◌, ◌^◌, ◌<◌, ◌≤◌, ◌++◌, true, IfOk, length};
ghost use Rattle.pi_tuple.specs.Tuples.{tuple_in};
ghost use Rattle.report_text.specs.Writing.{Wrote};
ghost use Rattle.rig_api.specs.Frames.{frames_of, stored_size};
ghost use Rattle.image_text.specs.DiffText.{compared_line, content_text, count_differ, counted_tag, counted_text, diff_first, diff_line, diff_lines, differences, differs, field_text, fields_text, have_tuples, line_of, side_text, tuples_differ, values_text, what_text};

use crate::line::add_hex;
use crate::show::{counted, stored_len};
use crate::sight::{is_zero, tuple_in};
use crate::unlike::{Unlike, unlike_of};
use dix_base::{Failed, Sink};
use pi_tuple::{PiType, Tuple, has_ref_tag, ref_tag};
use report_text::{Line, add, add_number, write_all};
use rig_api::UnitSpec;

/// Two units whose blocks are compared, with their numbers.
#[derive(Clone, Copy)]
pub struct Pair {
    /// The number of the first.
    pub dev: u32,
    /// The first.
    pub unit: UnitSpec,
    /// The number of the other.
    pub other_dev: u32,
    /// The other.
    pub other_unit: UnitSpec,
}

/// What differs of two stored blocks.
#[derive(Clone, Copy)]
pub struct WhatDiffers {
    /// The data.
    pub content: bool,
    /// The guards.
    pub guard: bool,
    /// The application tags.
    pub app: bool,
    /// The reference tags, by their distances from the addresses.
    pub tag: bool,
}

/// What a reference tag counts as: its distance from the low 32 bits of its own address, or in type 3 itself.
fn counted_tag(ty: PiType, lba: u64, tag: u32) -> u32
    ensures { result ≡ counted_tag ty lba tag }
{
    if !has_ref_tag(ty) {
        return tag;
    }
    let low = ref_tag(lba);
    if low <= tag {
        tag - low
    } else {
        u32::MAX - (low - tag) + 1
    }
}

/// Whether both units have tuples.
fn have_tuples(pair: Pair) -> bool
    ensures { result ≡ have_tuples pair }
{
    !is_zero(pair.unit.ty) && !is_zero(pair.other_unit.ty)
}

/// What differs of the tuples of two blocks, with what was found of their data.
fn tuples_differ(
    pair: Pair,
    content: bool,
    lba: u64,
    other: u64,
    one: Tuple,
    two: Tuple,
) -> WhatDiffers
    ensures { result ≡ tuples_differ pair content lba other one two }
{
    let tag = counted_tag(pair.unit.ty, lba, one.rtag);
    let other_tag = counted_tag(pair.other_unit.ty, other, two.rtag);
    WhatDiffers {
        content,
        guard: one.guard != two.guard,
        app: one.app != two.app,
        tag: tag != other_tag,
    }
}

/// What differs of two stored blocks, at these addresses: their data and, where both units have tuples,
/// guards, application tags and reference tags.
fn differences(pair: Pair, lba: u64, other: u64, one: &[u8], two: &[u8]) -> WhatDiffers
    requires one { length one.now ≡ stored_size pair.unit.ty pair.unit.size }
    requires two { length two.now ≡ stored_size pair.other_unit.ty pair.other_unit.size }
    ensures { result ≡ differences pair lba other one.now two.now }
{
    let (data, behind) = one.split_at(pair.unit.size as usize);
    let (other_data, other_behind) = two.split_at(pair.other_unit.size as usize);
    let differ = data != other_data;
    if !have_tuples(pair) {
        return WhatDiffers {
            content: differ,
            guard: false,
            app: false,
            tag: false,
        };
    }
    tuples_differ(
        pair,
        differ,
        lba,
        other,
        tuple_in(behind),
        tuple_in(other_behind),
    )
}

/// Whether anything differs.
fn differs(found: WhatDiffers) -> bool
    ensures { result ≡ differs found }
{
    found.content || found.guard || found.app || found.tag
}

/// What both have, behind the line.
fn add_values(line: &mut Line, one: &[u8], two: &[u8])
    requires one { length one.now ≤ 4 }
    requires two { length two.now ≤ 4 }
    requires room { length line.old.items ≤ 460 }
    ensures items { line.new.items ≡ line.old.items ++ values_text one.now two.now }
    ensures bound { length line.new.items ≤ length line.old.items + 18 }
{
    add(line, b" ");
    add_hex(line, one);
    add(line, b" ");
    add_hex(line, two);
}

/// A word and a number.
fn add_counted(line: &mut Line, word: &[u8], number: u32)
    requires few { length word.now ≤ 6 }
    requires room { length line.old.items ≤ 440 }
    ensures items { line.new.items ≡ line.old.items ++ counted_text word.now number }
    ensures bound { length line.new.items ≤ length line.old.items + 46 }
{
    add(line, word);
    add_number(line, u64::from(number));
}

/// In how many bytes the data differ, and what both have in the first of them.
fn add_content(line: &mut Line, found: Unlike)
    requires { length line.old.items ≤ 256 }
    ensures items { line.new.items ≡ line.old.items ++ content_text found }
    ensures bound { length line.new.items ≤ length line.old.items + 110 }
{
    add_counted(line, b" data ", found.count);
    add_counted(line, b" at ", found.at);
    add_values(line, &[found.one], &[found.two]);
}

/// A field of the tuples, where it differs.
fn add_field(line: &mut Line, differ: bool, word: &[u8], one: &[u8], two: &[u8])
    requires few { length word.now ≤ 6 }
    requires one { length one.now ≤ 4 }
    requires two { length two.now ≤ 4 }
    requires room { length line.old.items ≤ 440 }
    ensures items { line.new.items ≡ line.old.items ++ field_text differ word.now one.now two.now }
    ensures bound { length line.new.items ≤ length line.old.items + 24 }
{
    if differ {
        add(line, word);
        add_values(line, one, two);
    }
}

/// Each field of the tuples that differs.
fn add_fields(line: &mut Line, found: WhatDiffers, one: Tuple, two: Tuple)
    requires { length line.old.items ≤ 380 }
    ensures items { line.new.items ≡ line.old.items ++ fields_text found one two }
    ensures bound { length line.new.items ≤ length line.old.items + 72 }
{
    let (guard, other_guard) = (one.guard.to_be_bytes(), two.guard.to_be_bytes());
    add_field(line, found.guard, b" guard", &guard, &other_guard);
    let (app, other_app) = (one.app.to_be_bytes(), two.app.to_be_bytes());
    add_field(line, found.app, b" app", &app, &other_app);
    let (rtag, other_rtag) = (one.rtag.to_be_bytes(), two.rtag.to_be_bytes());
    add_field(line, found.tag, b" ref", &rtag, &other_rtag);
}

/// What differs of two blocks.
fn add_what(line: &mut Line, pair: Pair, found: WhatDiffers, one: &[u8], two: &[u8])
    requires room { length line.old.items ≤ 256 }
    requires one { length one.now ≡ stored_size pair.unit.ty pair.unit.size }
    requires two { length two.now ≡ stored_size pair.other_unit.ty pair.other_unit.size }
    ensures items { line.new.items ≡ line.old.items ++ what_text pair found one.now two.now }
    ensures bound { length line.new.items ≤ length line.old.items + 182 }
{
    let (data, behind) = one.split_at(pair.unit.size as usize);
    let (other_data, other_behind) = two.split_at(pair.other_unit.size as usize);
    if found.content {
        add_content(line, unlike_of(data, other_data));
    }
    if have_tuples(pair) {
        add_fields(line, found, tuple_in(behind), tuple_in(other_behind));
    }
}

/// The unit's number and the address of a block.
fn add_side(line: &mut Line, dev: u32, lba: u64)
    requires { length line.old.items ≤ 256 }
    ensures items { line.new.items ≡ line.old.items ++ side_text dev lba }
    ensures bound { length line.new.items ≤ length line.old.items + 81 }
{
    add_number(line, u64::from(dev));
    add(line, b" ");
    add_number(line, lba);
}

/// The line of two blocks that differ.
fn difference_line(
    pair: Pair,
    lba: u64,
    other: u64,
    found: WhatDiffers,
    one: &[u8],
    two: &[u8],
) -> Line
    requires differ { differs found ≡ true }
    requires one { length one.now ≡ stored_size pair.unit.ty pair.unit.size }
    requires two { length two.now ≡ stored_size pair.other_unit.ty pair.other_unit.size }
    ensures { result.items ≡ line_of pair lba other found one.now two.now }
{
    let mut line = Line::new();
    add_side(&mut line, pair.dev, lba);
    add(&mut line, b" ");
    add_side(&mut line, pair.other_dev, other);
    add_what(&mut line, pair, found, one, two);
    add(&mut line, b"\n");
    line
}

/// Writes the first line.
pub fn write_diff_first<O: Sink>(out: &mut O) -> Result<(), Failed>
    ensures { Wrote O.taken O.faults diff_first out.old out.new result }
{
    write_all(out, b"dix diff 1\n")
}

/// Writes the line of two stored blocks where they differ, and says whether they do.
fn write_difference<O: Sink>(
    out: &mut O,
    pair: Pair,
    lba: u64,
    other: u64,
    one: &[u8],
    two: &[u8],
) -> Result<bool, Failed>
    requires one { length one.now ≡ stored_size pair.unit.ty pair.unit.size }
    requires two { length two.now ≡ stored_size pair.other_unit.ty pair.other_unit.size }
    ensures differ { IfOk result (λ is_other. is_other ≡ differs (differences pair lba other one.now two.now)) }
    ensures wrote { Wrote O.taken O.faults (diff_line pair lba other one.now two.now) out.old out.new result }
{
    let found = differences(pair, lba, other, one, two);
    if !differs(found) {
        return Ok(false);
    }
    let line = difference_line(pair, lba, other, found, one, two);
    write_all(out, line.as_slice())?;
    Ok(true)
}

/// Writes a line for each of so many pairs of stored blocks that differ, the first of which have these
/// addresses, and says how many they are. A sink that fails has taken a prefix of the lines.
pub fn write_differences<O: Sink>(
    out: &mut O,
    pair: Pair,
    first: u64,
    other_first: u64,
    count: u32,
    frames: &[u8],
    others: &[u8],
) -> Result<u32, Failed>
    requires stored { length frames.now ≡ count * stored_size pair.unit.ty pair.unit.size }
    requires others { length others.now ≡ count * stored_size pair.other_unit.ty pair.other_unit.size }
    requires end { first + count < 2 ^ 64 }
    requires other_end { other_first + count < 2 ^ 64 }
    ensures differ { IfOk result (λ n. n ≡ count_differ pair first other_first
        (frames_of (stored_size pair.unit.ty pair.unit.size) count frames.now)
        (frames_of (stored_size pair.other_unit.ty pair.other_unit.size) count others.now)) }
    ensures wrote { Wrote O.taken O.faults
        (diff_lines pair first other_first
        (frames_of (stored_size pair.unit.ty pair.unit.size) count frames.now)
        (frames_of (stored_size pair.other_unit.ty pair.other_unit.size) count others.now))
        out.old out.new result }
{
    let len = stored_len(pair.unit);
    let other_len = stored_len(pair.other_unit);
    let mut rest = frames;
    let mut other_rest = others;
    let mut lba = first;
    let mut other = other_first;
    let mut left = count;
    let mut differ = 0u32;
    while left > 0 {
        let (one, more) = rest.split_at(len);
        let (two, other_more) = other_rest.split_at(other_len);
        let is_other = write_difference(out, pair, lba, other, one, two)?;
        differ = counted(differ, is_other);
        rest = more;
        other_rest = other_more;
        lba += 1;
        other += 1;
        left -= 1;
    }
    Ok(differ)
}

fn compared_line(count: u32, differ: u32) -> Line
    ensures { result.items ≡ compared_line count differ }
{
    let mut line = Line::new();
    add(&mut line, b"compared ");
    add_number(&mut line, u64::from(count));
    add(&mut line, b" differ ");
    add_number(&mut line, u64::from(differ));
    add(&mut line, b"\n");
    line
}

/// Writes the last line: how many blocks were compared, and how many of them differ.
pub fn write_compared<O: Sink>(out: &mut O, count: u32, differ: u32) -> Result<(), Failed>
    ensures { Wrote O.taken O.faults (compared_line count differ) out.old out.new result }
{
    let line = compared_line(count, differ);
    write_all(out, line.as_slice())
}
