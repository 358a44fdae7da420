ghost use Rattle.std.specs.Prelude.{◌≡◌, ◌≤◌, ◌<◌, ◌+◌, ◌*◌, ◌%◌, ℕ, Bool, List, length, IsTrue, false};
ghost use Rattle.isa430.specs.declared.instr.Instr.{Instr};
ghost use Rattle.isa430.specs.Table.{WordsAt};
ghost use Rattle.core430.specs.Bytes.{byte_at};
ghost use Rattle.core430.specs.Step.{State, Next};
ghost use Rattle.core430.specs.Uses.{AreWords, SameOn};
ghost use Rattle.run430.specs.Run.{run as run_of, Runs, SteadyRuns, AnyByte, Named, then_run};
ghost use Rattle.run430.specs.Code.{Placed, are_valid, words_of_code};

/// The relation between two states that a run of so many steps leads from one to the other holds just where the steps
/// do. From words of 16 bits a run leads to such words, and a byte outside those that it may change stays as it was.
pub fn run_is_steps()
    ensures leads { (denied uses changes : ℕ → Bool) → (n : ℕ) → (s t : State) → Runs denied (Named uses) (Named changes) n s t → run_of denied n s ≡ Next t }
    ensures back { (denied : ℕ → Bool) → (n : ℕ) → (s t : State) → run_of denied n s ≡ Next t → Runs denied AnyByte AnyByte n s t }
    ensures words { (denied uses changes : ℕ → Bool) → (n : ℕ) → (s t : State) → AreWords s.regs → AreWords s.memory → Runs denied (Named uses) (Named changes) n s t → AreWords t.regs × AreWords t.memory }
    ensures kept { (denied uses changes : ℕ → Bool) → (n : ℕ) → (s t : State) → (b : ℕ) → AreWords s.regs → AreWords s.memory → Runs denied (Named uses) (Named changes) n s t → changes b ≡ false → byte_at t.memory b ≡ byte_at s.memory b }
{}

/// A run depends on no byte of memory but those that it uses: over a memory that agrees on these it leads to the same
/// registers, and the memories then agree on these bytes again.
pub fn runs_depend_on_uses()
    ensures { (denied uses changes : ℕ → Bool) → (n : ℕ) → (s t : State) → (k : ℕ → ℕ) → Runs denied (Named uses) (Named changes) n s t → SameOn uses s.memory k → (m : ℕ → ℕ) × (run_of denied n (record { regs = s.regs; memory = k }) ≡ Next (record { regs = t.regs; memory = m })) × SameOn uses t.memory m }
{}

/// Runs one after another are one run. A run that keeps SP at or below an address is a run.
pub fn runs_compose()
    ensures relation { (denied uses changes : ℕ → Bool) → (n k : ℕ) → (s t u : State) → Runs denied (Named uses) (Named changes) n s t → Runs denied (Named uses) (Named changes) k t u → Runs denied (Named uses) (Named changes) (n + k) s u }
    ensures steady { (denied uses changes : ℕ → Bool) → (top n : ℕ) → (s t : State) → SteadyRuns denied (Named uses) (Named changes) top n s t → Runs denied (Named uses) (Named changes) n s t }
    ensures steady_relation { (denied uses changes : ℕ → Bool) → (top n k : ℕ) → (s t u : State) → SteadyRuns denied (Named uses) (Named changes) top n s t → SteadyRuns denied (Named uses) (Named changes) top k t u → SteadyRuns denied (Named uses) (Named changes) top (n + k) s u }
    ensures function { (denied : ℕ → Bool) → (n k : ℕ) → (s : State) → run_of denied (n + k) s ≡ then_run (run_of denied n s) (run_of denied k) }
{}

/// Valid instructions stand wherever their words do, at an even address and below the entries of the services.
pub fn code_is_placed()
    ensures { (c : ℕ → ℕ) → (lo hi : ℕ) → hi < 65280 → (is : List Instr) → (pc : ℕ) → WordsAt c pc (words_of_code is) → IsTrue (are_valid is) → pc % 2 ≡ 0 → lo ≤ pc → pc + 2 * length (words_of_code is) ≤ hi → Placed c lo hi pc is }
{}
