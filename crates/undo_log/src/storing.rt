ghost use Rattle.std.specs.Prelude.{◌≡◌, ℕ, ◌+◌, ◌<◌, ◌≤◌, OnOk, OnErr};
ghost use Rattle.base16.specs.Memory.{words_of};
ghost use Rattle.board_map.specs.Costs.{store_cost, put_cost, put_entries, entries_within, put_entries_within};
ghost use Rattle.board_map.specs.Map.{count_of, segment_of, IsLoggable, IsOutside};
ghost use Rattle.board_map.specs.Recovered.{recovered};
ghost use Rattle.board_map.specs.WellFormed.{IsWellFormed};
ghost use Rattle.fram.specs.Takes.{Takes};
ghost use Rattle.undo_log.specs.Log.{Enters, IsApart, Logs, Prepares, Sets, Stays};
ghost use Rattle.world.specs.World.{IsLawful};

use base16::Words;
use board_map::{COUNTS, SEGMENT_BYTES, SEGMENTS, UNDO_ENTRIES, UNDO_LOG, Work, count, gate};
use fram::Fram;
use world::{Off, World};

/// How many entries the undo log can still take, at most 256.
pub fn room(fram: &Fram) -> u16
    requires { IsWellFormed (words_of fram.now.words) }
    ensures { result + count_of (words_of fram.now.words) ≡ 256 }
{
    UNDO_ENTRIES - count(fram, gate(fram))
}

/// Makes an entry of the word that stands at an address: its address, the word, and then the count raised by one. That
/// is three ticks. At `Off` the entry is not valid.
fn log<W: World>(fram: &mut Fram, world: &mut W, address: u16) -> Result<(), Off>
    requires well_formed { IsWellFormed (words_of fram.old.words) }
    requires room { count_of (words_of fram.old.words) < 256 }
    requires loggable { IsLoggable address }
    requires outside { IsOutside (segment_of (words_of fram.old.words)) address }
    ensures ticks { Takes 3 result (W.state world.old) (W.state world.new) }
    ensures logged { OnOk result (Logs address (words_of fram.old.words) (words_of fram.new.words)) }
    ensures off { OnErr result (Prepares (words_of fram.old.words) (words_of fram.new.words)) }
    ensures poked { fram.new.poked ≡ fram.old.poked }
    ensures lawful { IsLawful (W.state world.new) }
{
    let slot = gate(fram);
    let entries = count(fram, slot);
    let old = fram.word(address);
    let at = UNDO_LOG + 4 * entries;
    fram.write(world, at, address)?;
    fram.write(world, at + 2, old)?;
    fram.write(world, COUNTS + 2 * slot, entries + 1)
}

/// Sets a loggable word outside the working segment through the undo log, in four ticks: the entry first, so that each
/// power failure before the next commit takes the store back.
pub fn store<W: World>(fram: &mut Fram, world: &mut W, address: u16, word: u16) -> Result<(), Off>
    requires well_formed { IsWellFormed (words_of fram.old.words) }
    requires room { count_of (words_of fram.old.words) < 256 }
    requires loggable { IsLoggable address }
    requires outside { IsOutside (segment_of (words_of fram.old.words)) address }
    ensures ticks { Takes store_cost result (W.state world.old) (W.state world.new) }
    ensures set { OnOk result (Sets address word (words_of fram.old.words) (words_of fram.new.words)) }
    ensures off { OnErr result (Stays (words_of fram.old.words) (words_of fram.new.words)) }
    ensures recovered { recovered (words_of fram.new.words) ≡ recovered (words_of fram.old.words) }
    ensures well_formed { IsWellFormed (words_of fram.new.words) }
    ensures entries { count_of (words_of fram.new.words)
        ≡ count_of (words_of fram.old.words) + entries_within (W.state world.old).left }
    ensures entry { OnOk result (Enters address (words_of fram.old.words) (words_of fram.new.words)) }
    ensures count { OnOk result (count_of (words_of fram.new.words) ≡ count_of (words_of fram.old.words) + 1) }
    ensures others { (b : ℕ) → IsApart (words_of fram.old.words) address b
        → words_of fram.new.words b ≡ words_of fram.old.words b }
    ensures poked { fram.new.poked ≡ fram.old.poked }
    ensures lawful { IsLawful (W.state world.new) }
{
    log(fram, world, address)?;
    fram.write(world, address, word)
}

/// Sets a loggable word: straight in the working segment, of which the slot has a copy, and else through the undo log.
pub fn put<W: World>(
    fram: &mut Fram,
    world: &mut W,
    work: &Work,
    address: u16,
    word: u16,
) -> Result<(), Off>
    requires well_formed { IsWellFormed (words_of fram.old.words) }
    requires room { count_of (words_of fram.old.words) < 256 }
    requires loggable { IsLoggable address }
    requires segment { work.now.segment ≡ segment_of (words_of fram.old.words) }
    ensures ticks { Takes (put_cost (words_of fram.old.words) address) result (W.state world.old) (W.state world.new) }
    ensures set { OnOk result (Sets address word (words_of fram.old.words) (words_of fram.new.words)) }
    ensures off { OnErr result (Stays (words_of fram.old.words) (words_of fram.new.words)) }
    ensures recovered { recovered (words_of fram.new.words) ≡ recovered (words_of fram.old.words) }
    ensures well_formed { IsWellFormed (words_of fram.new.words) }
    ensures entries { count_of (words_of fram.new.words)
        ≡ count_of (words_of fram.old.words) + put_entries_within (words_of fram.old.words) address (W.state world.old).left }
    ensures entry { OnOk result (IsOutside (segment_of (words_of fram.old.words)) address
        → Enters address (words_of fram.old.words) (words_of fram.new.words)) }
    ensures count { OnOk result (count_of (words_of fram.new.words)
        ≡ count_of (words_of fram.old.words) + put_entries (words_of fram.old.words) address) }
    ensures others { (b : ℕ) → IsApart (words_of fram.old.words) address b
        → words_of fram.new.words b ≡ words_of fram.old.words b }
    ensures poked { fram.new.poked ≡ fram.old.poked }
    ensures lawful { IsLawful (W.state world.new) }
{
    let start = SEGMENTS + SEGMENT_BYTES * work.segment;
    if address >= start && address < start + SEGMENT_BYTES {
        fram.write(world, address, word)
    } else {
        store(fram, world, address, word)
    }
}
