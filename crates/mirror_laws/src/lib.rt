//! A script on a mirror, as definitions: its walk, its repair, and when one good leg is enough.
#![tactic(auto)]

mod marks;
pub mod on_legs;

ghost use Rattle.std.specs.Prelude.{ℕ, ◌≡◌, ◌||◌, true, List, ◌∷◌, ◌++◌};
ghost use Rattle.page_pool.specs.declared.segs.Seg.{Seg as AnySeg};
ghost use Rattle.stack_ops.specs.declared.op.Op.{Op as AnyOp};
ghost use Rattle.stack_ops.specs.declared.op.Op.TheVariants.{Fetch};
ghost use Rattle.volume_table.specs.declared.device.DeviceInfo.{DeviceInfo as AnyDevice};
ghost use Rattle.block_path.specs.Acts.{State};
ghost use Rattle.walk_laws.specs.Detectable.{accounted, detectable};
ghost use Rattle.walk_laws.specs.Settings.{Setting};
ghost use Rattle.mirror_laws.specs.Mirror.{marks_of, mirror_walk};
ghost use Rattle.mirror_laws.specs.OneGood.{AllServe, AreBytes, IsMirrorRun, IsRepaired, ReadsLast, loses_none, script_asks};

pub use marks::Marks;

/// Each block is fresh on one of its legs, whatever the faults, the image and the device behind the adapter.
pub fn no_block_of_a_mirror_has_two_stale_marks()
    ensures { (m : Setting) (half : ℕ) (ops : List AnyOp) (opening : State) (u : ℕ)
        → ((marks_of (mirror_walk m half ops opening).marks u).leg0 || (marks_of (mirror_walk m half ops opening).marks u).leg1) ≡ true }
{}

/// What is asked below of the faults holds where each of them can be shown, so that the medium stores each block of a
/// write whole and sends each that is read: then each is accounted for, none is lost, and either leg is served.
pub fn faults_that_can_be_shown_are_known()
    ensures accounted { (m : Setting) (half : ℕ) (ops : List AnyOp) (opening : State)
        → detectable m (script_asks m half ops opening) opening ≡ true → accounted m (script_asks m half ops opening) opening ≡ true }
    ensures kept { (m : Setting) (half : ℕ) (ops : List AnyOp) (opening : State)
        → detectable m (script_asks m half ops opening) opening ≡ true → loses_none m (script_asks m half ops opening) ≡ true }
    ensures served { (m : Setting) (half : ℕ) (ops : List AnyOp) (opening : State) (virt : ℕ)
        → detectable m (script_asks m half ops opening) opening ≡ true → AllServe m virt (script_asks m half ops opening) }
{}

/// In type 1 with tuples passed all the way and no shift, over clean legs with the same data and application tags, with
/// no escape, with alterations that can be shown and with no lost block: where each block has a leg on which no fault
/// line alters it and no overwrite does, and whose medium stores and sends it, a read lists no block, and each block has
/// the data that were last accepted. On the other leg the medium may fail it, or store a part of it that can be found.
pub fn a_mirror_reads_the_last_write()
    ensures { (m : Setting) (devices : List AnyDevice) (half : ℕ) (before after : List AnyOp) (v n : ℕ) (body : List AnySeg) (opening : State)
        → IsMirrorRun m devices half (before ++ (Fetch v n body ∷ after)) opening → ReadsLast m half (before ++ (Fetch v n body ∷ after)) before v n body opening }
{}

/// And a repair after such a script loses no block: both legs of each block are fresh, and hold the data and the
/// application tag that were last accepted, under a proper tuple.
pub fn a_repair_makes_both_legs_equal()
    ensures { (m : Setting) (devices : List AnyDevice) (half : ℕ) (ops : List AnyOp) (opening : State)
        → IsMirrorRun m devices half ops opening → AreBytes m half opening.blocks → IsRepaired m half ops opening }
{}
