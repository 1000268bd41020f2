//! A law of dumps.

ghost use Rattle.image_text.specs.DumpsLaws.{DumpComesBack};

/// A law: the dump of what is stored of a dump's pieces, in place of as many blocks, is that dump.
pub fn a_dump_comes_back()
    ensures { DumpComesBack }
{}
