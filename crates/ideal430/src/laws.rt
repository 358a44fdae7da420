ghost use Rattle.std.specs.Prelude.{◌≡◌, ◌+◌, ◌⊎◌, ℕ, List};
ghost use Rattle.base16.specs.declared.reading.Reading.{Reading};
ghost use Rattle.ideal430.specs.Ideal.{Ideal, next, run, with_more};
ghost use Rattle.ideal430.specs.Uses.{IsClean};
ghost use Rattle.ideal430.specs.Agreement.{GoesAlong, SameButWatched};
ghost use Rattle.ideal430.specs.declared.state.IdealEnd.TheVariants.{NeedsReading};

/// A run of i + j instructions is a run of j after one of i.
pub fn runs_compose()
    ensures { (i j : ℕ) → (t : Ideal) → run (i + j) t ≡ run j (run i t) }
{}

/// Settled bytes, the pointers of older segments and the meter have no effect on the rest.
pub fn watched_parts_have_no_effect()
    ensures { (n : ℕ) → (t u : Ideal) → SameButWatched t u → SameButWatched (run n t) (run n u) }
{}

/// Two machines that agree on the settled bytes of the first go on alike, as long as it uses settled bytes alone.
pub fn settled_bytes_decide()
    ensures { (n : ℕ) → (t u : Ideal) → IsClean n t → GoesAlong t u → GoesAlong (run n t) (run n u) }
{}

/// More readings change nothing until the first that is missing.
pub fn later_readings_wait()
    ensures { (n : ℕ) → (t : Ideal) → (more : List Reading) → ((run n t).status ≡ NeedsReading → ⊥)
        → run n (with_more t more) ≡ with_more (run n t) more }
{}

/// An instruction with its service makes at most one mark.
pub fn a_step_marks_once()
    ensures { (t : Ideal) → ((next t).marks ≡ t.marks) ⊎ ((next t).marks ≡ t.marks + 1) }
{}
