//! Calls from bytes to bytes.

use crate::calls::Came;
use crate::sources::source_in;
use crate::wanted::{add_call, add_image};
use headline::{Way, run_on_bytes};
use std::alloc::{AllocError, Global};
use test_table::{behind, cut};

/// What the first of a row's words does with a script.
fn way_of(lines: &[String]) -> Way {
    let (verb, _) = cut(behind(lines, "$"));
    if verb == "mirror" {
        Way::Mirror
    } else {
        Way::Run
    }
}

/// Makes a row's call on the bytes of an image, and answers the image afterwards. Adds what came otherwise than the row
/// says.
pub(crate) fn add_on_bytes(
    alloc: Global,
    others: &mut Vec<u8>,
    lines: &[String],
    before: &[u8],
) -> Result<Vec<u8>, AllocError> {
    let image = Vec::from_slice(alloc, before)?;
    let ran = run_on_bytes(alloc, way_of(lines), image, source_in(alloc, lines)?)?;
    let came = Came {
        status: ran.status.number(),
        text: ran.report,
        records: Vec::new(alloc),
    };
    add_call(alloc, others, lines, &came, &[])?;
    add_image(alloc, others, lines, before, &ran.image)?;
    Ok(ran.image)
}
