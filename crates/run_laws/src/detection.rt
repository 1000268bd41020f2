//! Faults that tuples show.

ghost use Rattle.std.specs.Prelude.{ℕ, ◌<◌, List, ◌∷◌, ◌++◌};
ghost use Rattle.page_pool.specs.declared.segs.Seg.{Seg as AnySeg};
ghost use Rattle.integrity_payload.specs.declared.payload.Owner.{Owner as AnyOwner};
ghost use Rattle.walk_laws.specs.Passed.{Op as AnyOp, State, DeviceInfo as AnyDevice};
ghost use Rattle.walk_laws.specs.Settings.{Setting};
ghost use Rattle.walk_laws.specs.ReadsAs.{ReadsRightly, ReadsStored, read_op};
ghost use Rattle.run_laws.specs.ShownRun.{IsAccountedRun, IsShownRun};

/// In type 1, with tuples passed all the way and protect field 001b, where each block to which a read comes is clean,
/// with no escape and with faults that can be shown: a block of a read is listed exactly where there is a first layer
/// that checks after a fault, with that layer and with the check that is found in the frame that arrives there. Else it
/// is delivered with the data and the application tag of the last accepted write.
pub fn a_read_is_the_last_write_or_names_the_first_layer()
    ensures { (m : Setting) (devices : List AnyDevice) (before after : List AnyOp) (owner : AnyOwner) (v n k : ℕ) (body tuples : List AnySeg) (opening : State)
        → IsShownRun m devices (before ++ (read_op owner v n body tuples ∷ after)) opening → k < n → ReadsRightly m before owner v n body tuples after opening k }
{}

/// So it is too where the disk fails, loses or misdirects blocks, which no tuple shows before they are read: a block that
/// a line fails is listed with the medium, whatever else befalls it. One that isn't listed is that of the last accepted
/// write which was neither lost nor misdirected: never another block's, never half of two.
pub fn a_read_is_the_last_stored_write_or_names_who_ends_it()
    ensures { (m : Setting) (devices : List AnyDevice) (before after : List AnyOp) (owner : AnyOwner) (v n k : ℕ) (body tuples : List AnySeg) (opening : State)
        → IsAccountedRun m devices (before ++ (read_op owner v n body tuples ∷ after)) opening → k < n → ReadsStored m before owner v n body tuples after opening k }
{}
