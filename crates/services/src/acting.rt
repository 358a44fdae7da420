ghost use Rattle.std.specs.Prelude.{◌≡◌, ℕ, ◌+◌, ◌-◌, ◌<◌, ◌≤◌, ◌^◌, ◌&&◌, not, nat_eq, false};
ghost use Rattle.base16.specs.Memory.{words_of};
ghost use Rattle.board_map.specs.Map.{count_of, segment_of};
ghost use Rattle.board_map.specs.WellFormed.{IsWellFormed};
ghost use Rattle.ideal430.specs.Costs.{is_due};
ghost use Rattle.ideal430.specs.Shown.{stores_shown, effect_shown};
ghost use Rattle.services.specs.Serving.{ArePlaced, IsClosed, due_at, Acts, Settles, moved};

use crate::storing::make_all;
use base16::Regs;
use board_map::{UNDO_ENTRIES, Work};
use ckpt::commit;
use fram::Fram;
use ideal430::Deed;
use undo_log::room;
use world::{Off, World};

/// How many words a commit writes.
const COMMIT_WORDS: u16 = 155;

/// What a commit wrote.
#[derive(Clone, Copy, Debug, PartialEq, Eq)]
pub struct Committed {
    /// How many words it wrote.
    pub words: u16,
    /// How many entries the undo log had just before it.
    pub log: u16,
}

/// Whether a mark is due after its stores, which began at this count of the ticks spent in all.
fn due<W: World>(fram: &Fram, world: &W, work: &Work, deed: &Deed, before: u32) -> bool
    requires well_formed { IsWellFormed (words_of fram.now.words) }
    requires before { before ≤ (W.state world.now).spent }
    ensures { result ≡ (deed.now.marks && is_due ((before - work.now.since) + ((W.state world.now).spent - before))
        (W.state world.now).period (count_of (words_of fram.now.words)) work.now.block_length
        (not (nat_eq deed.now.segment work.now.segment)) deed.now.asks deed.now.ends false) }
{
    let ticks = before.saturating_sub(work.since) + (world.spent() - before);
    let full = u32::from(room(fram)) < 8 + u32::from(work.block_length);
    let changes = deed.segment != work.segment;
    deed.marks && (world.period() <= ticks || changes || full || deed.asks || deed.ends)
}

/// Counts the mark, and goes over to the segment in which it went on.
fn count_mark(work: &mut Work, deed: &Deed)
    requires { work.old.marks < 2 ^ 32 - 1 }
    ensures { work.new ≡ moved (effect_shown deed.now) work.old }
{
    work.segment = deed.segment;
    if deed.marks {
        work.marks += 1;
    }
}

/// Commits where that is due.
fn settle<W: World>(
    fram: &mut Fram,
    world: &mut W,
    regs: &Regs,
    work: &mut Work,
    is_due: bool,
) -> Result<Option<Committed>, Off>
    requires well_formed { IsWellFormed (words_of fram.old.words) }
    requires segment { work.old.segment < 32 }
    requires closed { IsClosed work.old }
    requires commits { work.old.commits < 2 ^ 32 - 1 }
    ensures settles { Settles is_due regs.now.r (words_of fram.old.words) work.old (W.state world.old)
        result (words_of fram.new.words) work.new (W.state world.new) }
    ensures poked { fram.new.poked ≡ fram.old.poked }
{
    if is_due {
        let log = UNDO_ENTRIES - room(fram);
        match commit(fram, world, regs, work) {
            Ok(()) => Ok(Some(Committed {
                words: COMMIT_WORDS,
                log,
            })),
            Err(Off) => Err(Off),
        }
    } else {
        // Nothing was called yet that says that the world is lawful.
        let _clock = world.clock();
        Ok(None)
    }
}

/// Makes a service's stores, counts its mark, and commits where that is due. The registers are those after the service.
pub fn act<W: World>(
    fram: &mut Fram,
    world: &mut W,
    regs: &Regs,
    work: &mut Work,
    deed: &Deed,
) -> Result<Option<Committed>, Off>
    requires well_formed { IsWellFormed (words_of fram.old.words) }
    requires room { count_of (words_of fram.old.words) + 8 ≤ 256 }
    requires placed { ArePlaced work.old.segment (stores_shown deed.now.stores) }
    requires small { deed.now.segment < 32 }
    requires segment { work.old.segment ≡ segment_of (words_of fram.old.words) }
    requires closed { IsClosed work.old }
    requires marks { work.old.marks < 2 ^ 32 - 1 }
    requires commits { work.old.commits < 2 ^ 32 - 1 }
    ensures acts { Acts (effect_shown deed.now)
        (due_at (effect_shown deed.now) work.old (W.state world.old) (count_of (words_of fram.old.words)))
        regs.now.r (words_of fram.old.words) work.old (W.state world.old) result (words_of fram.new.words) work.new
        (W.state world.new) }
    ensures poked { fram.new.poked ≡ fram.old.poked }
{
    let before = world.spent();
    match make_all(fram, world, work, deed.stores) {
        Ok(()) => {
            let is_due = due(fram, world, work, deed, before);
            count_mark(work, deed);
            settle(fram, world, regs, work, is_due)
        }
        Err(Off) => Err(Off),
    }
}
