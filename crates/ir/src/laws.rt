ghost use Rattle.std.specs.Prelude.{ℕ, List};
ghost use Rattle.base16.specs.declared.reading.Reading.{Reading};
ghost use Rattle.ir.specs.declared.form.Ir.{Ir};
ghost use Rattle.ir.specs.Jumps.{IsOrdered};
ghost use Rattle.ir.specs.Laws.{EndsWithinTheBound, EndsWithoutBound, MakesStepsOnce};

/// Where all jumps go ahead or to a turn, a run that breaks no rule makes no more steps from mark to mark than the
/// form has: it ends within the bound as it does without one.
pub fn ordered_forms_end_within_the_bound()
    ensures { (ir : Ir) → IsOrdered ir.functions → (readings : List Reading) → (n : ℕ) → EndsWithinTheBound ir readings n }
{}

/// A run that ends within the bound and breaks no rule ends so without one.
pub fn bounded_runs_are_runs()
    ensures { (ir : Ir) → (readings : List Reading) → (n : ℕ) → EndsWithoutBound ir readings n }
{}

/// Where all jumps go ahead or to a turn, a run makes each step at most once between two marks.
pub fn ordered_forms_make_each_step_once()
    ensures { (ir : Ir) → IsOrdered ir.functions → (readings : List Reading) → MakesStepsOnce ir readings }
{}
