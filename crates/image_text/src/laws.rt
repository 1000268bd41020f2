//! Laws of the lines.

ghost use Rattle.image_text.specs.Laws.{NothingDiffers, ShowsWhatAScrubLists};

/// A law: the lines of all blocks of all units that tell a fault are what a scrub lists, entry by entry.
pub fn show_lists_what_a_scrub_lists()
    ensures { ShowsWhatAScrubLists }
{}

/// A law: no block is counted as one that differs exactly where the data are equal and, of two units with tuples, guards,
/// application tags and the distances of the reference tags are.
pub fn nothing_differs()
    ensures { NothingDiffers }
{}
