ghost use Rattle.std.specs.Prelude.{◌≡◌, ◌<◌, ◌^◌, true, IfOk, MatchResult};
ghost use Rattle.base16.specs.Memory.{words_of};
ghost use Rattle.board_map.specs.WellFormed.{IsWellFormed};
ghost use Rattle.display.specs.Display.{AreInData};
ghost use Rattle.player.specs.Form.{IsOver, IsWhole, is_power, cycles_in};
ghost use Rattle.player.specs.Playing.{IsRunning, IsBehind, IsPlayable, IsSpent, Plays, kept_in, now, origin};

use crate::cycling::cycles;
use crate::recording::cycles_begun;
use base16::{EndKind, NoMemory, Sequence, Symbols};
use display::ScalarIndex;
use fram::Fram;
use std::alloc::Global;
use std::mem;
use world::{History, World};

/// Plays a board through the power cycles of the world, until the run ends or no cycle is left, which is the end `Power`.
/// After want of memory the records made so far stand, and the board's memory is as they say.
pub fn play<W: World>(
    alloc: Global,
    fram: &mut Fram,
    world: &mut W,
    book: &mut History,
    symbols: &Symbols,
) -> Result<EndKind, NoMemory>
    requires well_formed { IsWellFormed (words_of fram.old.words) }
    requires playable { IsPlayable (kept_in fram.old) }
    requires begun { cycles_in book.old.records < 2 ^ 31 }
    requires placed { AreInData symbols.now.scalars }
    ensures plays { let o = origin fram.old (W.state world.old) book.old.records symbols.now.scalars in
        MatchResult result
        (λ kind. Plays o (IsOver kind) (IsBehind kind) (now book.new.records fram.new (W.state world.new)))
        (λ e. Plays o IsWhole IsRunning (now book.new.records fram.new (W.state world.new))) }
    ensures power { IfOk result (λ kind. is_power kind ≡ true → IsSpent (W.state world.old) (W.state world.new)) }
{
    let index = ScalarIndex::new(alloc, symbols.scalars.as_slice())?;
    let mut records = mem::replace(&mut book.records, Sequence::new(alloc)).into_vec();
    let begun = cycles_begun(records.as_slice()) as u32;
    let _lawful = world.spent();
    let ended = cycles(alloc, fram, world, &mut records, symbols, &index, begun);
    book.records = Sequence::from_vec(records);
    ended
}
