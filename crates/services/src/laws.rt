ghost use Rattle.std.specs.Prelude.{◌≡◌, ℕ, List, ◌++◌, None, length};
ghost use Rattle.base16.specs.declared.reading.Reading.{Reading};
ghost use Rattle.board_map.specs.declared.work.Work.{Work};
ghost use Rattle.core430.specs.Registers.{view_of};
ghost use Rattle.core430.specs.Uses.{IsWithin};
ghost use Rattle.ideal430.specs.Agreement.{Agrees};
ghost use Rattle.ideal430.specs.Ideal.{Ideal, served};
ghost use Rattle.ideal430.specs.Service.{taken_of};
ghost use Rattle.ideal430.specs.Uses.{uses_at};
ghost use Rattle.ideal430.specs.declared.state.IdealEnd.TheVariants.{Running};
ghost use Rattle.services.specs.Following.{StandsAt, Follows, Fits, Counts, CountsAlike, CutsShort};
ghost use Rattle.services.specs.Serving.{IsCommitted, OnPower, OnCut, Serves, ask_found};
ghost use Rattle.services.specs.declared.serving.Served.{Served};
ghost use Rattle.world.specs.World.{WorldState};

/// Where the machine with unbroken power stands where a service finds the board, with the reading that the service takes as
/// its next one, and uses settled bytes alone, its own service leads it to where the service leaves the board, unless power
/// failed.
pub fn a_service_is_that_of_the_machine()
    ensures { (n : ℕ) → (registers registers2 : List ℕ) → (m m2 : ℕ → ℕ) → (work work2 : Work)
        → (world world2 : WorldState) → (answer : Served)
        → (s : Serves n registers m work world answer registers2 m2 work2 world2) → (t : Ideal) → (rest : List Reading)
        → StandsAt t Running (taken_of (ask_found n registers m work) s.value ++ rest) registers m work
        → IsWithin (uses_at n t.core.regs t.core.memory t.segment) t.settled
        → Follows answer (served n t) rest registers2 m2 work2 }
{}

/// Where the machine stands where the board does, and the board has just committed that, it stands where the memory recovers
/// to.
pub fn a_commit_is_where_the_machine_stands()
    ensures { (registers : List ℕ) → (m : ℕ → ℕ) → (work : Work) → (world world2 : WorldState)
        → IsCommitted world world2 registers work m → length registers ≡ 16
        → (t : Ideal) → Agrees t (view_of registers) m work.segment None work.marks → Fits t m }
{}

/// Where the machine counts what the board counts as a service begins, it counts the same after its own service: the ticks
/// since the last commit, the entries and the commits. So a commit is made exactly where the machine makes one, with its ticks
/// and its entries; and where power failed, the machine's own service with its commit takes longer.
pub fn a_service_is_counted_by_the_machine()
    ensures served { (n : ℕ) → (registers registers2 : List ℕ) → (m m2 : ℕ → ℕ) → (work work2 : Work)
        → (world world2 : WorldState) → (answer : Served)
        → (s : Serves n registers m work world answer registers2 m2 work2 world2) → (t : Ideal) → (rest : List Reading)
        → StandsAt t Running (taken_of (ask_found n registers m work) s.value ++ rest) registers m work
        → IsWithin (uses_at n t.core.regs t.core.memory t.segment) t.settled → Counts t m work world
        → OnPower answer (CountsAlike t (served n t) answer work m2 work2 world2) }
    ensures cut { (n : ℕ) → (registers registers2 : List ℕ) → (m m2 : ℕ → ℕ) → (work work2 : Work)
        → (world world2 : WorldState) → (answer : Served)
        → (s : Serves n registers m work world answer registers2 m2 work2 world2) → (t : Ideal) → (rest : List Reading)
        → StandsAt t Running (taken_of (ask_found n registers m work) s.value ++ rest) registers m work
        → IsWithin (uses_at n t.core.regs t.core.memory t.segment) t.settled → Counts t m work world
        → OnCut answer (CutsShort t (served n t) rest work world m2 world2) }
{}
