//! What the adapter passes the target takes.

ghost use Rattle.lab_laws.specs.Passing.{BlockPasses, CommandPasses, RunPasses, VectorsPass, WalkPasses};

/// A law: where no fault is scheduled the target takes each frame that the adapter passes. So in a run of a script that
/// has vectors, over an image that is told and without a store call that failed, no write ends early.
pub fn what_the_adapter_passes_the_target_takes()
    ensures block { BlockPasses }
    ensures command { CommandPasses }
    ensures walk { WalkPasses }
    ensures run { RunPasses }
    ensures vectors { VectorsPass }
{}
