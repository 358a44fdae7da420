ghost use Rattle.std.specs.Prelude.{ℕ, List, None};
ghost use Rattle.board_map.specs.declared.work.Work.{Work};
ghost use Rattle.ideal430.specs.Service.{OnDoes, deed_at};
ghost use Rattle.services.specs.Bounds.{IsShort, SpendsFew};
ghost use Rattle.services.specs.Serving.{Serves};
ghost use Rattle.services.specs.declared.serving.Served.{Served};
ghost use Rattle.world.specs.World.{WorldState};

/// A service without its commit takes at most 8 ticks, and makes at most 2 entries of the undo log. So a call of `serve`
/// spends at most 8 ticks where it commits nothing, and at most 155 more in any case.
pub fn a_service_takes_few_ticks()
    ensures effect { (n value : ℕ) → (r m : ℕ → ℕ) → (segment : ℕ)
        → OnDoes (deed_at n value r m segment None) (λ e. IsShort segment e) }
    ensures spends { (n : ℕ) → (registers registers2 : List ℕ) → (m m2 : ℕ → ℕ) → (work work2 : Work)
        → (world world2 : WorldState) → (answer : Served)
        → Serves n registers m work world answer registers2 m2 work2 world2 → SpendsFew answer world world2 }
{}
