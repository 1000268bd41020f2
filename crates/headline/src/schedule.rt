//! What hangs on no schedule.

ghost use Rattle.std.specs.Prelude.{List, ℕ, ◌≡◌};
ghost use Rattle.script_text.specs.declared.script.Script.{Script as AnyScript};
ghost use Rattle.headline.specs.Headline.{left_by, map_over, mended_over, replied, replied_on_mirror, setting_over};
ghost use Rattle.headline.specs.Words.{planned_as};

/// A law: neither the schedule of a script nor its limits on commands have a part in what its ops reply and leave, on the
/// image or on a mirror over it.
pub fn no_schedule_has_a_part()
    ensures walked { (script other : AnyScript) (image : List ℕ) → replied (planned_as script other) image ≡ replied script image }
    ensures left { (script other : AnyScript) (image : List ℕ) → left_by (planned_as script other) image ≡ left_by script image }
    ensures setting { (script other : AnyScript) (image : List ℕ) → setting_over (planned_as script other) image ≡ setting_over script image }
    ensures map { (script other : AnyScript) (image : List ℕ) → map_over (planned_as script other) image ≡ map_over script image }
    ensures mirrored { (script other : AnyScript) (image : List ℕ) → replied_on_mirror (planned_as script other) image ≡ replied_on_mirror script image }
    ensures mended { (script other : AnyScript) (image : List ℕ) → mended_over (planned_as script other) image ≡ mended_over script image }
{}
