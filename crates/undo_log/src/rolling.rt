ghost use Rattle.std.specs.Prelude.{◌≡◌, ℕ, ◌+◌, ◌<◌, ◌≤◌, OnOk};
ghost use Rattle.base16.specs.Memory.{words_of};
ghost use Rattle.board_map.specs.Costs.{rollback_cost};
ghost use Rattle.board_map.specs.Map.{count_of};
ghost use Rattle.board_map.specs.Recovered.{recovered, undone};
ghost use Rattle.board_map.specs.Ticks.{IsUnlogged};
ghost use Rattle.board_map.specs.WellFormed.{IsWellFormed};
ghost use Rattle.fram.specs.Takes.{Takes};
ghost use Rattle.world.specs.World.{IsLawful};

use board_map::{count, gate, undo_entry};
use fram::Fram;
use world::{Off, World};

/// Puts the old words of the valid entries back, from the last entry to the first, one tick each. The entries stay valid,
/// so that a power failure on the way takes nothing back.
pub fn rollback<W: World>(fram: &mut Fram, world: &mut W) -> Result<(), Off>
    requires { IsWellFormed (words_of fram.old.words) }
    ensures ticks { Takes (rollback_cost (words_of fram.old.words)) result (W.state world.old) (W.state world.new) }
    ensures undone { OnOk result ((b : ℕ) → words_of fram.new.words b ≡ undone (words_of fram.old.words) b) }
    ensures others { (b : ℕ) → IsUnlogged (words_of fram.old.words) b → words_of fram.new.words b ≡ words_of fram.old.words b }
    ensures recovered { recovered (words_of fram.new.words) ≡ recovered (words_of fram.old.words) }
    ensures well_formed { IsWellFormed (words_of fram.new.words) }
    ensures entries { count_of (words_of fram.new.words) ≡ count_of (words_of fram.old.words) }
    ensures poked { fram.new.poked ≡ fram.old.poked }
    ensures lawful { IsLawful (W.state world.new) }
{
    let entries = count(fram, gate(fram));
    let mut left = entries;
    while left > 0 {
        left -= 1;
        let (address, old) = undo_entry(fram, left);
        fram.write(world, address, old)?;
    }
    // Where nothing was put back no call has said yet that the world is lawful.
    let _clock = world.clock();
    Ok(())
}
