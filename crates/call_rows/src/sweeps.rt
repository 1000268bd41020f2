//! Calls whose sink fails at each of its calls in turn, or has a byte more room each time.

use crate::calls::{Came, came_over};
use crate::lines::text;
use crate::outside::rig_over;
use crate::wanted::add_call;
use std::alloc::{AllocError, Global};
use test_rig::image_in;
use test_table::{add_line, behind};

/// What a row's call comes to with one more line.
fn came_with(
    alloc: Global,
    lines: &[String],
    line: String,
    image: &[u8],
) -> Result<Came, AllocError> {
    let mut all = Vec::new(alloc);
    all.push(line)?;
    for line in lines {
        all.push(String::from_str(alloc, line.as_str())?)?;
    }
    let mut rig = rig_over(alloc, &all, image_in(alloc, &all, image)?)?;
    came_over(alloc, &all, "a", &mut rig)
}

/// Whether the sink failed and a beginning of the text was written: of `at` bytes where room is counted.
fn is_cut(came: &Came, whole: &[u8], at: usize, is_room: bool) -> bool {
    let count = came.text.len();
    came.status == 8
        && count < whole.len()
        && whole.starts_with(&came.text)
        && (!is_room || count == at)
}

/// Makes a row's calls until the sink takes the whole text. Adds what came otherwise than the row says in the last.
pub(crate) fn add_sweep(
    alloc: Global,
    others: &mut Vec<u8>,
    lines: &[String],
    image: &[u8],
) -> Result<(), AllocError> {
    let mark = behind(lines, "each");
    let whole = text(alloc, lines, ">", ">/")?;
    let is_room = mark == "room";
    let first = if is_room { 0usize } else { 1 };
    for at in first..=whole.len() {
        let line = format!(in alloc; "{mark} {at}")?;
        let came = came_with(alloc, lines, line, image)?;
        if !is_cut(&came, &whole, at, is_room) {
            if at == first {
                add_line(others, "never cut short")?;
            }
            return add_call(alloc, others, lines, &came, &[]);
        }
    }
    add_line(others, "never whole")
}
