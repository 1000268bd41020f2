//! A whole call over bytes in memory.

ghost use Rattle.std.specs.Prelude.{◌≡◌, ◌<◌, All, IfOk, Some};
ghost use Rattle.headline.specs.Headline.{Headline};
ghost use Rattle.headline.specs.Words.{IsTold, wants_memory};

use crate::report_sink::ReportSink;
use crate::way::{Way, words_for};
use dix_base::{CalmSource, CalmStore};
use dix_run::{Status, run};
use image_rig::ImageRig;
use rig_api::Rig;
use std::alloc::{AllocError, Global};

/// What a call came to.
#[derive(Drop)]
pub struct Ran {
    /// The status, which isn't want of memory.
    pub status: Status,
    /// The report.
    pub report: Vec<u8>,
    /// The image afterwards.
    pub image: Vec<u8>,
}

/// Whether memory was wanting: for the call, or for its report, since a sink in memory fails for want of it alone.
fn wants_memory(status: Status) -> bool
    ensures { result ≡ wants_memory status }
{
    match status {
        Status::Memory | Status::WriteFault => true,
        _ => false,
    }
}

/// The items of a slice of bytes are bytes.
fn are_bytes(items: &[u8])
    ensures { All (λ x. x < 256) items.now }
{}

/// A rig over these bytes.
fn rig_over(alloc: Global, image: Vec<u8>) -> ImageRig<CalmStore>
    ensures image { (⟦<ImageRig<CalmStore> as Rig>⟧.state result).image ≡ Some image.items }
    ensures bytes { All (λ x. x < 256) image.items }
{
    are_bytes(&image);
    ImageRig::new(alloc, CalmStore::new(image))
}

/// What came of a call, by its status, its sink and its rig.
fn ran_by(
    alloc: Global,
    status: Status,
    sink: ReportSink,
    rig: &ImageRig<CalmStore>,
) -> Result<Ran, AllocError>
    ensures status { IfOk result (λ ran. ran.status ≡ status) }
    ensures report { IfOk result (λ ran. ran.report.items ≡ sink.bytes) }
    ensures image { IfOk result (λ ran. (⟦<ImageRig<CalmStore> as Rig>⟧.state rig.now).image ≡ Some ran.image.items) }
    ensures told { IsTold (⟦<ImageRig<CalmStore> as Rig>⟧.state rig.now).standing (⟦<ImageRig<CalmStore> as Rig>⟧.state rig.now).image
        (⟦<ImageRig<CalmStore> as Rig>⟧.state rig.now).units (⟦<ImageRig<CalmStore> as Rig>⟧.state rig.now).faults }
{
    Ok(Ran {
        status,
        report: sink.into_bytes(),
        image: Vec::from_slice(alloc, rig.store().bytes())?,
    })
}

/// Runs the script of this text on the image of these bytes, or on a mirror over it. The one error is want of memory.
pub fn run_on_bytes(
    alloc: Global,
    way: Way,
    image: Vec<u8>,
    script: Vec<u8>,
) -> Result<Ran, AllocError>
    ensures { IfOk result (λ ran. Headline way image.items script.items ran.status ran.report.items ran.image.items) }
{
    let words = words_for(alloc, way)?;
    let mut source = CalmSource::new(script);
    let mut rig = rig_over(alloc, image);
    let mut sink = ReportSink::new(alloc);
    let status = run(alloc, &words, &mut source, &mut rig, &mut sink);
    if wants_memory(status) {
        return Err(AllocError);
    }
    ran_by(alloc, status, sink, &rig)
}
