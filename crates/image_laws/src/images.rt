//! An image and its blocks.

ghost use Rattle.std.specs.Prelude.{◌≡◌, ℕ, List, None};
ghost use Rattle.image_laws.specs.Over.{blocks_in, image_with};
ghost use Rattle.rig_api.specs.Head.{head_fault, head_of};

/// A law: an image whose head is right is its header of 512 bytes, and behind it the stored blocks of its units.
pub fn an_image_is_its_header_and_its_blocks()
    ensures { (image : List ℕ) → head_fault (head_of image) ≡ None → image ≡ image_with image (blocks_in image) }
{}
