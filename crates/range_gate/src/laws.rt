//! What footprints are to acts on cells.

ghost use Rattle.std.specs.Prelude.{◌≡◌, false};
ghost use Rattle.range_gate.specs.declared.footprint.Footprint.{Footprint as AnyFootprint};
ghost use Rattle.range_gate.specs.Conflicts.{Conflict};
ghost use Rattle.range_gate.specs.Cells.{AllInPages, block_cells, byte_cells, cells_clash};

/// Two ops without conflict share no block and no byte of a page, as cells, that one of them writes, and neither
/// of them is alone.
pub fn ops_without_conflict_share_no_cell()
    ensures alone { (f g : AnyFootprint) → ¬ Conflict f g → (f.alone ≡ false) × (g.alone ≡ false) }
    ensures blocks { (f g : AnyFootprint) → ¬ Conflict f g → cells_clash (block_cells f.blocks) (block_cells g.blocks) ≡ false }
    ensures bytes { (f g : AnyFootprint) → AllInPages f.bytes → AllInPages g.bytes → ¬ Conflict f g → cells_clash (byte_cells f.bytes) (byte_cells g.bytes) ≡ false }
{}
