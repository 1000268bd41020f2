//! What comes of an altered byte of a frame.

ghost use Rattle.lab_laws.specs.Flips.{GuardFlipsAreFound, OnlyAppTagsAreUnseen, PlainIsQuiet, TagFlipsAreFound};

/// A law: in type 1, with tuples passed all the way and protect field 001b, where no write supplies an escape and the
/// run as it is lists no block, a sweep says of each flip of data, guard or reference tag who finds it: of a write the
/// adapter at the host and the target on the wire, of a read the target at the medium, the adapter on the wire and the
/// tuple's owner at the host, each in the very block, by the guard or by the tag. A block that was altered on its way
/// to the medium the target finds at a read, or a scrub does, or a later write took its place. At the host of a read
/// a tag may become that of the virtual block: then all is the same. So what is unseen is a flip of an application
/// tag.
///
/// A script without `expect` and `writepi` lines whose writes have no application tag FFFFh has such a run.
pub fn no_flip_but_of_an_application_tag_is_unseen()
    ensures quiet { PlainIsQuiet }
    ensures guards { GuardFlipsAreFound }
    ensures tags { TagFlipsAreFound }
    ensures unseen { OnlyAppTagsAreUnseen }
{}
