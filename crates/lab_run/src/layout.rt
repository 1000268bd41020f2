//! Layouts of a dump.

ghost use Rattle.std.specs.Prelude.{◌≡◌};
ghost use Rattle.lab_run.specs.Layouts.{layout_in};

use image_text::Layout;

/// The layout that a word names.
pub fn layout_of(word: &[u8]) -> Option<Layout>
    ensures { result ≡ layout_in word.now }
{
    if word == b"interleaved".as_slice() {
        return Some(Layout::Interleaved);
    }
    if word == b"plain".as_slice() {
        return Some(Layout::Plain);
    }
    if word == b"tuples".as_slice() {
        return Some(Layout::Tuples);
    }
    None
}
