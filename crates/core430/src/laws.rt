ghost use Rattle.std.specs.Prelude.{ℕ, Bool};
ghost use Rattle.isa430.specs.declared.instr.Instr.{Instr};
ghost use Rattle.core430.specs.Step.{State};
ghost use Rattle.core430.specs.Uses.{DependsOnUses, StepDependsOnUses, ChangesItsBytes, KeepsWords, OnlyRefuses, FollowsUnderGate};

/// What an instruction does, and so a step, depends on no byte of memory but those that it uses.
pub fn steps_depend_on_uses()
    ensures instruction { (pc : ℕ) → (i : Instr) → (r : ℕ → ℕ) → DependsOnUses pc i r }
    ensures step { (denied : ℕ → Bool) → (s : State) → StepDependsOnUses denied s }
{}

/// A step changes no byte of memory but those of its set, and leaves words of 16 bits where it found such words.
pub fn steps_change_their_bytes()
    ensures bytes { (denied : ℕ → Bool) → (s : State) → ChangesItsBytes denied s }
    ensures words { (denied : ℕ → Bool) → (s : State) → KeepsWords denied s }
{}

/// Under a gate that denies more, a step is the same, or it is refused at an address that this gate alone denies; so it is
/// over a memory that agrees on the bytes that the step uses.
pub fn gates_only_refuse()
    ensures refused { (more fewer : ℕ → Bool) → (s : State) → OnlyRefuses more fewer s }
    ensures follows { (more fewer : ℕ → Bool) → (s : State) → FollowsUnderGate more fewer s }
{}
