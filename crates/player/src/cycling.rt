ghost use Rattle.std.specs.Prelude.{◌≡◌, ◌+◌, ◌<◌, ◌^◌, true, [], OnErr, IfOk, MatchResult, vec_len};
ghost use Rattle.std.specs.Vec.{vec_capacity};
ghost use Rattle.display.specs.Display.{AreInData};
ghost use Rattle.display.specs.Index.{IsIndexOf};
ghost use Rattle.player.specs.Form.{IsOver, IsWhole, is_power, cycles_in};
ghost use Rattle.player.specs.Playing.{Origin, IsRunning, IsBehind, IsPlayable, IsSpent, Plays, kept_in, now};
ghost use Rattle.player.specs.Turning.{IsIdle, Begins, RestsWithin, RestsBetween, Cycled};

use crate::recording::push_within;
use crate::turning::{Turn, take_turn};
use base16::{EndKind, NoMemory, Symbols};
use boot::boot;
use display::ScalarIndex;
use fram::Fram;
use std::alloc::Global;
use world::{Record, Shown, World};

/// Boots and runs until power fails or the run ends.
fn cycle<W: World>(
    alloc: Global,
    fram: &mut Fram,
    world: &mut W,
    records: &mut Vec<Record>,
    symbols: &Symbols,
    index: &ScalarIndex,
    room: &mut Vec<Shown>,
    instrs: &mut u32,
) -> Result<Option<EndKind>, NoMemory>
    ghost origin: { Origin }
    requires begins { Begins origin instrs.old (now records.old.items fram.old (W.state world.old)) }
    requires room { vec_len records.old < vec_capacity records.old }
    requires playable { IsPlayable (kept_in origin.fram) }
    requires scalars { symbols.now.scalars ≡ origin.scalars }
    requires placed { AreInData symbols.now.scalars }
    requires index { IsIndexOf symbols.now.scalars index.now }
    requires empty { room.old.items ≡ [] }
    ensures after { IfOk result (λ e. Cycled e origin instrs.new (now records.new.items fram.new (W.state world.new))) }
    ensures err { OnErr result (RestsWithin origin instrs.new (now records.new.items fram.new (W.state world.new))) }
    ensures room { vec_len records.new < vec_capacity records.new }
    ensures cycles { (W.state world.new).cycles ≡ (W.state world.old).cycles }
    ensures empty { room.new.items ≡ [] }
{
    let Ok((mut regs, mut work)) = boot(fram, world) else {
        return Ok(None);
    };
    regs.count();
    let mut here = *instrs;
    'turns: loop {
        match take_turn(
            alloc, fram, world, records, symbols, index, room, &mut regs, &mut work, &mut here,
            instrs,
        )? {
            Turn::Goes => (),
            Turn::Off => return Ok(None),
            Turn::End { kind } => return Ok(Some(kind)),
        }
    }
}

/// Plays power cycle after power cycle, behind so many, until the run ends or no cycle is left.
pub fn cycles<W: World>(
    alloc: Global,
    fram: &mut Fram,
    world: &mut W,
    records: &mut Vec<Record>,
    symbols: &Symbols,
    index: &ScalarIndex,
    begun: u32,
) -> Result<EndKind, NoMemory>
    ghost origin: { Origin }
    requires rests { RestsBetween origin 0 (now records.old.items fram.old (W.state world.old)) }
    requires idle { IsIdle origin records.old.items (W.state world.old) }
    requires begun { begun ≡ cycles_in records.old.items }
    requires few { origin.world.cycles + cycles_in origin.records < 2 ^ 32 }
    requires playable { IsPlayable (kept_in origin.fram) }
    requires scalars { symbols.now.scalars ≡ origin.scalars }
    requires placed { AreInData symbols.now.scalars }
    requires index { IsIndexOf symbols.now.scalars index.now }
    ensures plays { MatchResult result
        (λ kind. Plays origin (IsOver kind) (IsBehind kind) (now records.new.items fram.new (W.state world.new)))
        (λ e. Plays origin IsWhole IsRunning (now records.new.items fram.new (W.state world.new))) }
    ensures power { IfOk result (λ kind. is_power kind ≡ true → IsSpent origin.world (W.state world.new)) }
{
    let mut room = Vec::new(alloc);
    let mut instrs = 0;
    let mut number = begun;
    'powered: loop {
        records.reserve(2)?;
        if !world.wake() {
            push_within(
                records,
                Record::End {
                    kind: EndKind::Power,
                },
            );
            return Ok(EndKind::Power);
        }
        number += 1;
        push_within(records, Record::On { cycle: number });
        let ended = cycle(
            alloc,
            fram,
            world,
            records,
            symbols,
            index,
            &mut room,
            &mut instrs,
        )?;
        if let Some(kind) = ended {
            push_within(records, Record::End { kind });
            return Ok(kind);
        }
        push_within(records, Record::Off);
    }
}
