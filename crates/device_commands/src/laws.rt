//! Laws of what the calls answer and write. Nothing runs here.

ghost use Rattle.std.specs.Prelude.{ℕ, List, ◌++◌, ◌≡◌, ◌≤◌, length};
ghost use Rattle.cdb_codec.specs.Forms.{Fits, form};
ghost use Rattle.cdb_codec.specs.declared.command.Cdb.{Cdb as AnyCdb};
ghost use Rattle.device_commands.specs.Alike.{SayAlike, of_codec};
ghost use Rattle.device_commands.specs.Forms.{Says, Written};
ghost use Rattle.device_commands.specs.Lengths.{len_of};
ghost use Rattle.device_commands.specs.declared.command.DeviceCommand.{DeviceCommand as AnyCommand};

/// Bytes that begin with those that a command is written as say this command, whatever stands behind: so what is
/// written is read.
pub fn written_commands_are_said()
    ensures { (c : AnyCommand) (b rest : List ℕ) → Written c b → Says c (b ++ rest) }
{}

/// The codec's bytes of a command are those of its numbers here: so where the exact decoder answers, this one says the
/// same.
pub fn codec_commands_are_said()
    ensures { (c : AnyCdb) → Fits c → Written (of_codec c) (form c) }
{}

/// No byte is read behind those of the command: as many as its length say what they say with any others behind them.
pub fn bytes_behind_are_not_read()
    ensures { (b rest : List ℕ) → 1 ≤ length b → length b ≡ len_of b → SayAlike (b ++ rest) b }
{}
