ghost use Rattle.std.specs.Prelude.{ℕ, List};
ghost use Rattle.base16.specs.declared.reading.Reading.{Reading};
ghost use Rattle.core_tree.specs.declared.program.Core.{Core};
ghost use Rattle.c_values.specs.declared.value.Value.{Value};
ghost use Rattle.c_run.specs.Runs.{Run};
ghost use Rattle.c_meaning.specs.Laws.{StaysStopped, HasItsMarks, TakesWhatThereIs, DepthIsEnough};

/// A run that has stopped is stopped in the same way at every greater number of marks.
pub fn stopped_runs_stay_stopped()
    ensures { (core : Core) → (readings : List Reading) → (s : ℕ) → StaysStopped core readings s }
{}

/// A run that is live just after its s-th mark has made s marks.
pub fn live_runs_have_their_marks()
    ensures { (core : Core) → (readings : List Reading) → (s : ℕ) → HasItsMarks core readings s }
{}

/// A run takes no more readings than there are, and further ones change nothing unless one was lacking.
pub fn runs_take_what_there_is()
    ensures { (core : Core) → (readings : List Reading) → (s : ℕ) → TakesWhatThereIs core readings s }
{}

/// The depth of calls that the definition of a run allows is always enough: more changes nothing.
pub fn more_depth_changes_nothing()
    ensures { (core : Core) → (readings : List Reading) → (function : ℕ) → (args : List Value) → (r : Run)
        → DepthIsEnough core readings function args r }
{}
