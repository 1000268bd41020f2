//! The place in an image that words name.

ghost use Rattle.std.specs.Prelude.{◌≡◌, IfOk};
ghost use Rattle.call_refusal.specs.Refusals.{of_rig};
ghost use Rattle.image_blocks.specs.Images.{units_open};
ghost use Rattle.image_blocks.specs.Places.{IsStretch};
ghost use Rattle.lab_run.specs.Calls.{stretch_in};
ghost use Rattle.lab_run.specs.Images.{Finds};

use crate::place::PlaceWord;
use call_refusal::Refusal as Stop;
use dix_base::Store;
use image_blocks::{Image, PlaceFault, Stretch, open_image, part_of, whole_of};
use rig_api::RigFault;
use std::alloc::Global;

/// An image that is open, and the blocks of a place in it.
#[derive(Drop)]
pub(crate) struct Found {
    pub(crate) image: Image,
    pub(crate) at: Stretch,
}

/// Why a place isn't found.
#[derive(Clone, Copy, Debug, PartialEq, Eq)]
pub(crate) enum Unfound {
    /// The image isn't opened.
    Stopped(Stop),
    /// The image hasn't the place.
    Place(PlaceFault),
}

impl From<RigFault> for Unfound {
    ghost use Rattle.lab_run.specs.declared.finding.Unfound.{Unfound};

    ghost from_gives = { λ fault unfound. unfound ≡ Unfound.Stopped (of_rig fault) };

    fn from(fault: RigFault) -> Unfound {
        Unfound::Stopped(Stop::from(fault))
    }
}

impl From<PlaceFault> for Unfound {
    ghost use Rattle.lab_run.specs.declared.finding.Unfound.{Unfound};

    ghost from_gives = { λ fault unfound. unfound ≡ Unfound.Place fault };

    fn from(fault: PlaceFault) -> Unfound {
        Unfound::Place(fault)
    }
}

/// The blocks of a place.
fn stretch_of(image: &Image, place: PlaceWord) -> Result<Stretch, PlaceFault>
    ensures value { result ≡ stretch_in (units_open image.now) place }
    ensures there { IfOk result (IsStretch (units_open image.now)) }
{
    match place {
        PlaceWord::Device { dev } => whole_of(image, dev),
        PlaceWord::Blocks { dev, first, count } => part_of(image, dev, first, count),
    }
}

/// Opens the image of this name, and finds the place in it.
pub(crate) fn find<A: Store>(
    alloc: Global,
    store: &mut A,
    name: &str,
    place: PlaceWord,
) -> Result<Found, Unfound>
    ensures { Finds result place name.now (A.state store.old) (A.state store.new) }
{
    let image = open_image(alloc, store, name)?;
    let at = stretch_of(&image, place)?;
    Ok(Found { image, at })
}
