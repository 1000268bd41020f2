ghost use Rattle.std.specs.Prelude.{ℕ, ◌≡◌, ◌+◌, ◌*◌, ◌/◌, List, length, map, None};
ghost use Rattle.rig_api.specs.Target.{Stored};
ghost use Rattle.rig_api.specs.declared.units.UnitSpec.{UnitSpec};
ghost use Rattle.rig_api.specs.Log.{LogEntry};
ghost use Rattle.rig_discovery.specs.Discovery.{info_of};
ghost use Rattle.stack_ops.specs.declared.reply.Reply.{Reply as AnyReply};
ghost use Rattle.volume_table.specs.declared.device.DeviceInfo.{DeviceInfo as AnyDevice};
ghost use Rattle.volume_table.specs.Places.{volume_len};
ghost use Rattle.volume_table.specs.Tables.{MadeFor, Table};
ghost use Rattle.script_text.specs.declared.script.Script.{Script as AnyScript};
ghost use Rattle.script_stack.specs.Passed.{AreStored, Keeps, shapes_of};
ghost use Rattle.script_stack.specs.Followed.{HasWalked, none_fails, setting_of};
ghost use Rattle.mirror_laws.specs.Repair.{steady};
ghost use Rattle.mirror_script.specs.MirrorFaults.{mirror_fault};
ghost use Rattle.mirror_volume.specs.declared.piece.Piece.{Piece as AnyPiece};
ghost use Rattle.mirror_volume.specs.Inner.{read_pi_script, read_script, write_script};
ghost use Rattle.mirror_volume.specs.Legs.{IsReady, ReadOnLeg, ReadPiOnLeg, WroteOnLeg};
ghost use Rattle.mirror_volume.specs.MirrorScript.{IsMirrorScript, IsPiece, IsPieceWithTuples, without_faults};

use run_laws::a_target_keeps_sizes;

/// A script that has no fault on a mirror has what its legs ask, and so it has without its faults, as a repair runs it.
pub fn a_mirror_has_what_its_legs_ask()
    ensures script { (s : AnyScript) (t : Table) (devices : List AnyDevice) → Keeps s → length s.lines ≡ length s.faults + length s.ops → mirror_fault s t devices ≡ None
        → IsMirrorScript s t (volume_len t.entries / 2) }
    ensures repair { (s : AnyScript) (t : Table) (half : ℕ) → IsMirrorScript s t half → IsMirrorScript (without_faults s) t half }
    ensures setting { (s : AnyScript) (t : Table) (units : List UnitSpec) → setting_of (without_faults s) t units none_fails ≡ steady (setting_of s t units none_fails) }
{}

/// A stack takes the scripts in which some blocks of a request are written, and read, on a leg.
pub fn a_stack_takes_a_request_on_a_leg()
    ensures writes { (s : AnyScript) (t : Table) (devices : List AnyDevice) (half : ℕ) (p : AnyPiece) (app : ℕ) (bytes : List ℕ) → IsMirrorScript s t half → IsPiece s.block half p
        → length bytes ≡ p.n * s.block → IsReady (write_script s half p app bytes) t devices }
    ensures reads { (s : AnyScript) (t : Table) (devices : List AnyDevice) (half : ℕ) (p : AnyPiece) → IsMirrorScript s t half → IsPiece s.block half p → IsReady (read_script s half p) t devices }
{}

/// Done at the target, such a write lists and stores of each block what the mirror's script says of it on this leg.
pub fn a_write_on_a_leg_goes_its_ways()
    ensures { (s : AnyScript) (t : Table) (half : ℕ) (p : AnyPiece) (app : ℕ) (bytes : List ℕ) (us left : List Stored) (pool : List (List ℕ)) (log : List LogEntry) (replies : List AnyReply)
        → IsMirrorScript s t half → IsPiece s.block half p → length bytes ≡ p.n * s.block → HasWalked (write_script s half p app bytes) t us left pool log replies
        → WroteOnLeg s t half p app bytes us left replies }
{}

/// And such a read lists and lands of each block what the mirror's script says of it on this leg.
pub fn a_read_on_a_leg_goes_its_ways()
    ensures { (s : AnyScript) (t : Table) (half : ℕ) (p : AnyPiece) (us left : List Stored) (pool : List (List ℕ)) (log : List LogEntry) (replies : List AnyReply)
        → IsMirrorScript s t half → IsPiece s.block half p → MadeFor t (map info_of (shapes_of us)) s.block → AreStored us → HasWalked (read_script s half p) t us left pool log replies
        → ReadOnLeg s t half p us left pool replies }
{
    // By laws.
    a_target_keeps_sizes();
}

/// A stack takes the script in which some blocks of a request are read on a leg with their tuples.
pub fn a_stack_takes_a_read_with_tuples_on_a_leg()
    ensures { (s : AnyScript) (t : Table) (devices : List AnyDevice) (half : ℕ) (p : AnyPiece) → IsMirrorScript s t half → IsPieceWithTuples s.block half p
        → IsReady (read_pi_script s half p) t devices }
{}

/// And such a read lists and lands of each block what the mirror's script says of it on this leg, and lands its tuple.
pub fn a_read_with_tuples_on_a_leg_goes_its_ways()
    ensures { (s : AnyScript) (t : Table) (half : ℕ) (p : AnyPiece) (us left : List Stored) (pool : List (List ℕ)) (log : List LogEntry) (replies : List AnyReply)
        → IsMirrorScript s t half → IsPieceWithTuples s.block half p → MadeFor t (map info_of (shapes_of us)) s.block → AreStored us → HasWalked (read_pi_script s half p) t us left pool log replies
        → ReadPiOnLeg s t half p us left pool replies }
{
    // By laws.
    a_target_keeps_sizes();
}
