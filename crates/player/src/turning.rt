ghost use Rattle.std.specs.Prelude.{◌≡◌, ◌+◌, ◌-◌, ◌<◌, ◌≤◌, ◌^◌, not, [], length, vec_len, OnErr, IfOk};
ghost use Rattle.std.specs.Vec.{vec_capacity};
ghost use Rattle.base16.specs.Memory.{words_of};
ghost use Rattle.board_map.specs.Map.{count_of, segment_of, in_segment};
ghost use Rattle.board_map.specs.WellFormed.{IsWellFormed};
ghost use Rattle.core430.specs.Registers.{view_of};
ghost use Rattle.core430.specs.Shown.{AtMostOnePut, OnService, outcome_shown};
ghost use Rattle.core430.specs.Step.{step as step_of};
ghost use Rattle.display.specs.Display.{AreInData};
ghost use Rattle.display.specs.Index.{IsIndexOf};
ghost use Rattle.services.specs.Serving.{IsClosed};
ghost use Rattle.player.specs.Playing.{Origin, IsPlayable, kept_in, now};
ghost use Rattle.player.specs.Turning.{RestsWithin, Goes, Turned, OnGoes, IsServed};

use crate::recording::{record_commit, record_reading};
use base16::{EndKind, NoMemory, Regs, Symbols};
use board_map::Work;
use core430::{Stepped, step};
use display::{MOST_SETS, ScalarIndex};
use fram::Fram;
use services::{Gated, Served, serve};
use std::alloc::Global;
use world::{Record, Shown, World};

/// What a turn of the running program came to.
#[derive(Clone, Copy, Debug, PartialEq, Eq)]
pub enum Turn {
    /// The program goes on.
    Goes,
    /// Power failed.
    Off,
    /// The run is over.
    End { kind: EndKind },
}

/// Makes one instruction under the write gate. Its tick is spent already.
fn instruction(fram: &mut Fram, regs: &mut Regs, segment: u16) -> Stepped
    requires { segment < 32 }
    ensures is { outcome_shown result (view_of regs.new.r) (words_of fram.new.words)
        ≡ step_of (λ a. not (in_segment segment a)) (record { regs = view_of regs.old.r; memory = words_of fram.old.words }) }
    ensures one_put { AtMostOnePut (λ a. not (in_segment segment a)) (words_of fram.old.words) (words_of fram.new.words) }
    ensures number { OnService result (λ n. n < 32) }
    ensures poked { fram.new.poked ≡ fram.old.poked }
{
    let mut gated = Gated { fram, segment };
    step(regs, &mut gated)
}

/// Serves the call of a service, after so many instructions, and records its reading and its commit.
fn called<W: World>(
    alloc: Global,
    fram: &mut Fram,
    world: &mut W,
    records: &mut Vec<Record>,
    symbols: &Symbols,
    index: &ScalarIndex,
    room: &mut Vec<Shown>,
    regs: &mut Regs,
    work: &mut Work,
    here: u32,
    instrs: &mut u32,
    n: u16,
) -> Turn
    requires room { vec_len records.old + 3 ≤ vec_capacity records.old }
    requires number { n < 32 }
    requires well_formed { IsWellFormed (words_of fram.old.words) }
    requires entries { count_of (words_of fram.old.words) + 8 + work.old.block_length ≤ 256 }
    requires segment { work.old.segment ≡ segment_of (words_of fram.old.words) }
    requires closed { IsClosed work.old }
    requires marks { work.old.marks < 2 ^ 32 - 1 }
    requires commits { work.old.commits < 2 ^ 32 - 1 }
    requires given { length (W.state world.old).readings < (W.state world.old).spent }
    requires placed { AreInData symbols.now.scalars }
    requires index { IsIndexOf symbols.now.scalars index.now }
    requires empty { room.old.items ≡ [] }
    requires sets { 1281 ≤ vec_capacity room.old }
    ensures served { IsServed symbols.now.scalars n here regs.old.r work.old
        (now records.old.items fram.old (W.state world.old)) instrs.old
        result regs.new.r work.new (now records.new.items fram.new (W.state world.new)) instrs.new }
    ensures room { vec_len records.new < vec_capacity records.new }
    ensures empty { room.new.items ≡ [] }
{
    let before = world.given();
    let served = serve(fram, world, regs, work, n);
    regs.count();
    record_reading(world, records, before);
    match served {
        Served::Off => Turn::Off,
        Served::Done { committed } => {
            record_commit(
                alloc, fram, records, symbols, index, room, committed, regs, work, here, instrs,
            );
            Turn::Goes
        }
        Served::End { kind, committed } => {
            record_commit(
                alloc, fram, records, symbols, index, room, committed, regs, work, here, instrs,
            );
            Turn::End { kind }
        }
    }
}

/// One instruction of the running program, with the service that it calls. Memory for the records of a turn and for the
/// changes of a commit is taken first.
pub fn take_turn<W: World>(
    alloc: Global,
    fram: &mut Fram,
    world: &mut W,
    records: &mut Vec<Record>,
    symbols: &Symbols,
    index: &ScalarIndex,
    room: &mut Vec<Shown>,
    regs: &mut Regs,
    work: &mut Work,
    here: &mut u32,
    instrs: &mut u32,
) -> Result<Turn, NoMemory>
    ghost origin: { Origin }
    requires goes { Goes origin instrs.old here.old regs.old.r work.old (now records.old.items fram.old (W.state world.old)) }
    requires room { vec_len records.old < vec_capacity records.old }
    requires playable { IsPlayable (kept_in origin.fram) }
    requires scalars { symbols.now.scalars ≡ origin.scalars }
    requires placed { AreInData symbols.now.scalars }
    requires index { IsIndexOf symbols.now.scalars index.now }
    requires empty { room.old.items ≡ [] }
    ensures after { IfOk result (λ t. Turned t origin instrs.new here.new regs.new.r work.new
        (now records.new.items fram.new (W.state world.new))) }
    ensures err { OnErr result (RestsWithin origin instrs.new (now records.new.items fram.new (W.state world.new))) }
    ensures left { IfOk result (λ t. OnGoes t ((W.state world.new).left < (W.state world.old).left)) }
    ensures room { vec_len records.new < vec_capacity records.new }
    ensures cycles { (W.state world.new).cycles ≡ (W.state world.old).cycles }
    ensures empty { room.new.items ≡ [] }
{
    records.reserve(3)?;
    room.reserve(MOST_SETS)?;
    if world.tick().is_err() {
        return Ok(Turn::Off);
    }
    match instruction(fram, regs, work.segment) {
        Stepped::Next => {
            *here += 1;
            Ok(Turn::Goes)
        }
        Stepped::Wild { address } => Ok(Turn::End {
            kind: EndKind::Wild { address },
        }),
        Stepped::Service { n } => {
            *here += 1;
            Ok(called(
                alloc, fram, world, records, symbols, index, room, regs, work, *here, instrs, n,
            ))
        }
    }
}
