ghost use Rattle.std.specs.Prelude.{◌≡◌, ◌+◌, ◌<◌, ◌≤◌, ◌++◌, ◌∷◌, [], drop, length, IfSome, vec_len};
ghost use Rattle.std.specs.Vec.{vec_capacity};
ghost use Rattle.base16.specs.Memory.{words_of};
ghost use Rattle.display.specs.Display.{AreInData};
ghost use Rattle.display.specs.Index.{IsIndexOf};
ghost use Rattle.player.specs.Form.{is_on, cycles_in};
ghost use Rattle.player.specs.Turning.{read_records, sets_behind, commit_records, instrs_after};

use base16::{Regs, Sequence, Symbols};
use board_map::Work;
use display::{ScalarIndex, sets_since};
use fram::Fram;
use services::Committed;
use std::alloc::Global;
use std::mem;
use world::{Record, Shown, World};

/// Whether a power cycle began.
fn begins_cycle(entry: &Record) -> bool
    ensures { result ≡ is_on entry.now }
{
    match entry {
        Record::On { .. } => true,
        Record::Read { .. } => false,
        Record::Commit { .. } => false,
        Record::Off => false,
        Record::End { .. } => false,
    }
}

/// How many power cycles began in a history.
pub fn cycles_begun(records: &[Record]) -> usize
    ensures { result ≡ cycles_in records.now }
{
    let mut begun = 0;
    for record in records {
        if begins_cycle(record) {
            begun += 1;
        }
    }
    begun
}

/// Adds an element where there is room for it.
pub fn push_within<T: Drop>(items: &mut Vec<T>, item: T)
    requires { vec_len items.old < vec_capacity items.old }
    ensures items { items.new.items ≡ items.old.items ++ item ∷ [] }
    ensures len { vec_len items.new ≡ vec_len items.old + 1 }
    ensures capacity { vec_capacity items.old ≤ vec_capacity items.new }
{
    let _ = items.push(item);
}

/// Records the reading that was given since there were so many, if one was.
pub fn record_reading<W: World>(world: &W, records: &mut Vec<Record>, before: u32)
    requires room { vec_len records.old < vec_capacity records.old }
    requires given { length (W.state world.now).readings ≤ before + 1 }
    ensures records { records.new.items ≡ records.old.items ++ read_records (drop before (W.state world.now).readings) }
    ensures capacity { vec_capacity records.old ≤ vec_capacity records.new }
    ensures room { vec_len records.new ≤ vec_len records.old + 1 }
{
    if world.given() > before {
        let reading = world.reading(before);
        push_within(records, Record::Read { reading });
    }
}

/// What a commit changed of what is shown, where it cleared so many entries of the undo log. It takes the room.
fn sets_of(
    alloc: Global,
    fram: &Fram,
    symbols: &Symbols,
    index: &ScalarIndex,
    log: u16,
    room: &mut Vec<Shown>,
) -> Sequence<Shown>
    requires log { log ≤ 256 }
    requires placed { AreInData symbols.now.scalars }
    requires index { IsIndexOf symbols.now.scalars index.now }
    requires empty { room.old.items ≡ [] }
    requires room { 1281 ≤ vec_capacity room.old }
    ensures sets { result ≡ sets_behind symbols.now.scalars log (words_of fram.now.words) }
    ensures empty { room.new.items ≡ [] }
{
    let taken = mem::replace(room, Vec::new(alloc));
    sets_since(fram, symbols, index, log, taken)
}

/// Records a commit, if one was made, after so many instructions. A commit takes the room for its changes.
pub fn record_commit(
    alloc: Global,
    fram: &Fram,
    records: &mut Vec<Record>,
    symbols: &Symbols,
    index: &ScalarIndex,
    room: &mut Vec<Shown>,
    committed: Option<Committed>,
    regs: &Regs,
    work: &Work,
    here: u32,
    instrs: &mut u32,
)
    requires room { vec_len records.old < vec_capacity records.old }
    requires log { IfSome committed (λ c. c.log ≤ 256) }
    requires placed { AreInData symbols.now.scalars }
    requires index { IsIndexOf symbols.now.scalars index.now }
    requires empty { room.old.items ≡ [] }
    requires sets { 1281 ≤ vec_capacity room.old }
    ensures records { records.new.items ≡ records.old.items
        ++ commit_records symbols.now.scalars committed regs.now.r work.now here (words_of fram.now.words) }
    ensures empty { room.new.items ≡ [] }
    ensures capacity { vec_capacity records.old ≤ vec_capacity records.new }
    ensures room { vec_len records.new ≤ vec_len records.old + 1 }
    ensures instrs { instrs.new ≡ instrs_after committed instrs.old here }
{
    if let Some(commit) = committed {
        let entry = Record::Commit {
            number: work.commits,
            marks: work.marks,
            instrs: here,
            pc: regs.r[0],
            sp: regs.r[1],
            words: commit.words,
            log: commit.log,
            sets: sets_of(alloc, fram, symbols, index, commit.log, room),
        };
        push_within(records, entry);
        *instrs = here;
    }
}
