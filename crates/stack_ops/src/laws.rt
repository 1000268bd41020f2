//! What a footprint is to acts on cells.

ghost use Rattle.std.specs.Prelude.{◌≡◌};
ghost use Rattle.range_gate.specs.Cells.{byte_cells};
ghost use Rattle.stack_ops.specs.declared.op.Op.{Op as AnyOp};
ghost use Rattle.stack_ops.specs.Footprints.{bytes_of, cells_touched};

/// The bytes of an op's footprint are the cells of pages that it reads and writes.
pub fn footprints_are_cells()
    ensures { (op : AnyOp) → byte_cells (bytes_of op) ≡ cells_touched op }
{}
