ghost use Rattle.std.specs.Prelude.{◌≡◌, ℕ, ◌+◌, ◌*◌, ◌<◌, OnOk, IfOk, OnErr};
ghost use Rattle.base16.specs.Memory.{words_of};
ghost use Rattle.board_map.specs.Costs.{boot_cost};
ghost use Rattle.board_map.specs.Map.{count_of, slot_address};
ghost use Rattle.board_map.specs.Recovered.{recovered};
ghost use Rattle.board_map.specs.WellFormed.{IsWellFormed};
ghost use Rattle.boot.specs.Restoring.{AreRegisters, IsWork, IsMemory, IsUntouched, PutsBack, Copies};
ghost use Rattle.fram.specs.Takes.{Takes};
ghost use Rattle.world.specs.World.{IsLawful};

use base16::{Regs, Words};
use board_map::{
    BLOCK_LENGTH_AT, BLOCK_OPEN_AT, COMMITS_AT, COUNTS, MARKS_AT, REGISTERS_AT, SEGMENT_AT,
    SEGMENT_BYTES, SEGMENT_WORDS, SEGMENTS, Work, gate, slot_word,
};
use fram::Fram;
use undo_log::rollback;
use world::{Off, World};

/// Boots: puts the logged old words back, copies the working segment from the current slot and clears the count, and gives
/// the registers and the work state of that slot. It takes one tick for each valid entry, 128 for the segment and one for
/// the count, and is `Off` exactly where fewer are left. The count is cleared last, so a boot that is cut anywhere can be
/// followed by another.
pub fn boot<W: World>(fram: &mut Fram, world: &mut W) -> Result<(Regs, Work), Off>
    requires { IsWellFormed (words_of fram.old.words) }
    ensures ticks { Takes (boot_cost (words_of fram.old.words)) result (W.state world.old) (W.state world.new) }
    ensures registers { IfOk result (λ r. AreRegisters r.0.r (recovered (words_of fram.old.words))) }
    ensures work { IfOk result (λ r. IsWork r.1 (recovered (words_of fram.old.words))) }
    ensures since { IfOk result (λ r. r.1.since ≡ (W.state world.new).spent) }
    ensures memory { OnOk result (IsMemory (words_of fram.new.words) (recovered (words_of fram.old.words))) }
    ensures rest { OnOk result (PutsBack (words_of fram.old.words) (words_of fram.new.words)) }
    ensures others { (b : ℕ) → IsUntouched (words_of fram.old.words) b → words_of fram.new.words b ≡ words_of fram.old.words b }
    ensures no_entries { OnOk result (count_of (words_of fram.new.words) ≡ 0) }
    ensures entries { OnErr result (count_of (words_of fram.new.words) ≡ count_of (words_of fram.old.words)) }
    ensures recovered { recovered (words_of fram.new.words) ≡ recovered (words_of fram.old.words) }
    ensures well_formed { IsWellFormed (words_of fram.new.words) }
    ensures poked { fram.new.poked ≡ fram.old.poked }
    ensures lawful { IsLawful (W.state world.new) }
{
    rollback(fram, world)?;
    copy_segment(fram, world)?;
    let slot = gate(fram);
    fram.write(world, COUNTS + 2 * slot, 0)?;
    let regs = registers(fram);
    let work = work_of(fram, world.spent());
    Ok((regs, work))
}

/// Copies the working segment from the current slot, from its lowest word upwards.
fn copy_segment<W: World>(fram: &mut Fram, world: &mut W) -> Result<(), Off>
    requires { IsWellFormed (words_of fram.old.words) }
    ensures ticks { Takes 128 result (W.state world.old) (W.state world.new) }
    ensures copied { OnOk result (Copies 128 (words_of fram.old.words) (words_of fram.new.words)) }
    ensures kept { Copies 0 (words_of fram.old.words) (words_of fram.new.words) }
    ensures poked { fram.new.poked ≡ fram.old.poked }
    ensures lawful { OnErr result (IsLawful (W.state world.new)) }
{
    let slot = gate(fram);
    let start = SEGMENTS + SEGMENT_BYTES * slot_word(fram, slot, SEGMENT_AT);
    for index in 0..SEGMENT_WORDS {
        let word = slot_word(fram, slot, index);
        fram.write(world, start + 2 * index, word)?;
    }
    Ok(())
}

/// The registers of the current slot.
fn registers(fram: &Fram) -> Regs
    requires { IsWellFormed (words_of fram.now.words) }
    ensures { AreRegisters result.r (recovered (words_of fram.now.words)) }
{
    let slot = gate(fram);
    let mut r = [0; 16];
    for index in 0..16u16 {
        r[index as usize] = slot_word(fram, slot, REGISTERS_AT + index);
    }
    Regs { r }
}

/// The work state of the current slot.
fn work_of(fram: &Fram, since: u32) -> Work
    requires { IsWellFormed (words_of fram.now.words) }
    ensures work { IsWork result (recovered (words_of fram.now.words)) }
    ensures since { result.since ≡ since }
{
    let slot = gate(fram);
    Work {
        segment: slot_word(fram, slot, SEGMENT_AT),
        block_open: slot_word(fram, slot, BLOCK_OPEN_AT) == 1,
        block_length: slot_word(fram, slot, BLOCK_LENGTH_AT),
        marks: number_at(fram, slot, MARKS_AT),
        commits: number_at(fram, slot, COMMITS_AT),
        since,
    }
}

/// A number of two words of a slot, low word first.
fn number_at(fram: &Fram, slot: u16, index: u16) -> u32
    requires slot { slot < 2 }
    requires index { index < 152 }
    ensures { result ≡ words_of fram.now.words (slot_address slot index)
        + 65536 * words_of fram.now.words (slot_address slot (index + 1)) }
{
    let low = slot_word(fram, slot, index) as u32;
    let high = slot_word(fram, slot, index + 1) as u32;
    low + 65536 * high
}
