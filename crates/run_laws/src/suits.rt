//! Which blocks suit a device.

ghost use Rattle.std.specs.Prelude.{ℕ, List, ◌≡◌, length, true, Result, IfOk};
ghost use Rattle.fault_schedule.specs.declared.Label.{Label as AnyLabel};
ghost use Rattle.walk_laws.specs.Passed.{told_by, wire_size, Why as AnyWhy};
ghost use Rattle.walk_laws.specs.Settings.{Block, Setting, route};
ghost use Rattle.run_laws.specs.BoundRun.{Suits};
ghost use Rattle.run_laws.specs.Suited.{IsAtTarget, keeps_size};

/// A target stores blocks of the size that they had, and sends frames of the wire's size of such.
pub fn a_target_keeps_sizes()
    ensures { (m : Setting) (opening : List (List ℕ)) (b : Block) → IsAtTarget m opening b → Suits m (keeps_size opening) b }
{}

/// Over a device that answers what stands on record, whatever is stored, blocks suit whose frames have the wire's size.
pub fn a_record_suits()
    ensures { (m : Setting) (came : AnyLabel → Result (List ℕ) AnyWhy) (b : Block) → m.site.device ≡ told_by came
        → IfOk (came (route m b).label) (λ frame. length frame ≡ wire_size (route m b)) → Suits m (λ c block. true) b }
{}
