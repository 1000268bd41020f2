//! Guards of bytes that come in parts. The caller keeps the run.

ghost use Rattle.std.specs.Prelude.{◌≡◌, ℕ, List, [], ◌++◌};
ghost use Rattle.pi_guard.specs.Guards.{guard_of};
ghost use Rattle.pi_blocks.specs.Layouts.{kind_of};
ghost use Rattle.pi_blocks.specs.Runs.{HasRead};

use pi_blocks::Run;

/// Begins a run of this guard, 0 for the CRC and another number for the Internet checksum: it has read nothing.
#[unsafe(no_mangle)]
pub extern "C" fn dixpi_run_begin(run: &mut Run, guard: u32)
    ensures guard { run.new.guard ≡ guard }
    ensures none { HasRead run.new [] }
{
    *run = Run::begin(guard);
}

/// Takes the next part, and keeps none of it.
#[unsafe(no_mangle)]
pub extern "C" fn dixpi_run_update(run: &mut Run, bytes: &[u8])
    ensures guard { run.new.guard ≡ run.old.guard }
    ensures more { (b : List ℕ) → HasRead run.old b → HasRead run.new (b ++ bytes.now) }
{
    run.update(bytes);
}

/// The guard of the bytes so far.
#[unsafe(no_mangle)]
pub extern "C" fn dixpi_run_finish(run: &Run) -> u16
    ensures { (b : List ℕ) → HasRead run.now b → result ≡ guard_of (kind_of run.now.guard) b }
{
    run.finish()
}
