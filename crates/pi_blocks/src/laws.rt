//! Laws of what the calls answer and write. Nothing runs here.

ghost use Rattle.std.specs.Prelude.{◌≡◌, Ok, ◌<◌, ◌^◌, ℕ, List, length, false, true};
ghost use Rattle.cdb_codec.specs.Forms.{Fits, form};
ghost use Rattle.cdb_codec.specs.declared.command.Cdb.{Cdb as AnyCdb};
ghost use Rattle.pi_blocks.specs.Blocks.{Block};
ghost use Rattle.pi_blocks.specs.Commands.{Reads, Says, cdb_fields, encoded};
ghost use Rattle.pi_blocks.specs.declared.commands.CdbFields.{CdbFields as AnyCommand};
ghost use Rattle.pi_blocks.specs.Laws.{AreBytes, AreFineWhenMade, AreFineWhenMadeApart, AreFree, HasOneAnswer};
ghost use Rattle.pi_blocks.specs.Laws.{IsUndone, MakesTuplesAlone, MakesTuplesApart, MapsTagsAlone, StayFine};
ghost use Rattle.pi_blocks.specs.Layouts.{AreBlocks, is_good};
ghost use Rattle.pi_blocks.specs.Same.{SameDescribed, SameFixed, TellSame};
ghost use Rattle.pi_blocks.specs.Seen.{Tells as TellsSense, code_in, is_described, is_fixed};
ghost use Rattle.pi_blocks.specs.Senses.{described};
ghost use Rattle.sense_codes.specs.Written.{Fits as FitsSense, written};
ghost use Rattle.sense_codes.specs.declared.Sense.{Sense as AnySense};
ghost use Rattle.pi_blocks.specs.declared.block.Want.{Want as AnyWant};
ghost use Rattle.pi_blocks.specs.declared.layout.Layout.{Layout as AnyLayout};

/// The check of blocks has one answer: the first difference, or that there is none.
pub fn a_check_has_one_answer()
    ensures { (l : AnyLayout) (w : AnyWant) (blocks : ℕ → Block) (start n : ℕ) → HasOneAnswer l w blocks start n }
{}

/// Mapping reference tags maps each tag by itself, and every stretch of bytes without one stays.
pub fn mapping_changes_tags_alone()
    ensures { (l : AnyLayout) (from to : ℕ) (bytes : List ℕ)
        → AreBlocks l (length bytes) → MapsTagsAlone l from to bytes }
{}

/// Mapping there and back gives each byte back, where no block had the tag that mapping gives it.
pub fn mapping_back_undoes_mapping()
    ensures { (l : AnyLayout) (from to : ℕ) (bytes : List ℕ)
        → AreBlocks l (length bytes) → AreBytes bytes → AreFree l to bytes → IsUndone l from to bytes }
{}

/// Blocks in which a check finds nothing are fine by their new tags when they are mapped.
pub fn mapped_blocks_stay_fine()
    ensures { (l : AnyLayout) (w : AnyWant) (to : ℕ) (bytes : List ℕ)
        → AreBlocks l (length bytes) → StayFine l w to bytes }
{}

/// Making tuples writes the eight bytes of each, made of the guarded bytes as they were, and every stretch of bytes
/// without one stays.
pub fn making_writes_tuples_alone()
    ensures in_line { (l : AnyLayout) (app first : ℕ) (bytes : List ℕ)
        → is_good l ≡ true → MakesTuplesAlone l app first bytes }
    ensures apart { (l : AnyLayout) (app first : ℕ) (body meta : List ℕ)
        → is_good l ≡ true → MakesTuplesApart l app first body meta }
{}

/// A check by the tags that the tuples were made with finds nothing, whatever it asks for. With the application tag
/// FFFFh that says nothing in types 1 and 2, as the tuples are escapes then.
pub fn made_blocks_are_fine()
    ensures in_line { (l : AnyLayout) (w : AnyWant) (bytes : List ℕ)
        → is_good l ≡ true → w.app < 2 ^ 16 → AreFineWhenMade l w bytes }
    ensures apart { (l : AnyLayout) (w : AnyWant) (body meta : List ℕ)
        → is_good l ≡ true → w.app < 2 ^ 16 → AreFineWhenMadeApart l w body meta }
{}

/// What is told by the bytes that a sense is written as is that sense, of this command: so where the exact decoder answers,
/// the finder says the same.
pub fn a_written_sense_is_found()
    ensures { (s : AnySense) → FitsSense s → TellsSense (written s) s false }
{}

/// The same of the bytes that it is described by.
pub fn a_described_sense_is_found()
    ensures { (s : AnySense) → FitsSense s → TellsSense (described s) s false }
{}

/// What sense data tell stays when bytes change that aren't read: any but those that the formats' fields stand in, and
/// of descriptors any but types, additional lengths, and what valid information descriptors hold.
pub fn unread_bytes_tell_nothing()
    ensures fixed { (a b : List ℕ) → is_fixed (code_in a) ≡ true → SameFixed a b → TellSame a b }
    ensures described { (a b : List ℕ) → is_described (code_in a) ≡ true → SameDescribed a b → TellSame a b }
{}

/// The codec's bytes of a command are those of its numbers with flags, group and control 0: with these, encoder and
/// decoder are the codec's.
pub fn plain_commands_are_the_codecs()
    ensures { (c : AnyCdb) → Fits c → Says (cdb_fields c 0 0 0) c (form c) }
{}

/// What a decoder reads in bytes, the encoder takes, and writes these bytes.
pub fn commands_that_are_read_are_written()
    ensures { (f : AnyCommand) (bytes : List ℕ) → Reads f bytes → encoded f ≡ Ok bytes }
{}
