ghost use Rattle.std.specs.Prelude.{◌≡◌, ℕ, ◌+◌, ◌-◌, ◌<◌, ◌≤◌, ◌^◌, ◌%◌, ◌/◌, if◌then◌else◌, OnOk, OnErr, slice_index, length};
ghost use Rattle.base16.specs.Memory.{words_of};
ghost use Rattle.board_map.specs.Costs.{commit_cost};
ghost use Rattle.board_map.specs.Map.{undo_log_start, block_address, gate_of, count_of, IsLoggable};
ghost use Rattle.board_map.specs.Recovered.{recovered, machine_of, state_words};
ghost use Rattle.board_map.specs.WellFormed.{IsWellFormed};
ghost use Rattle.ckpt.specs.Slot.{slot_value, StaysElsewhere, Fills};
ghost use Rattle.fram.specs.Takes.{Takes};
ghost use Rattle.world.specs.World.{IsLawful};

use base16::{Regs, Words};
use board_map::{
    COUNTS, GATE, REGISTERS_AT, SEGMENT_AT, SEGMENT_BYTES, SEGMENTS, SLOT_STRIDE, SLOT_WORDS,
    SLOTS, Work, gate,
};
use fram::Fram;
use world::{Off, World};

/// Commits the state of a running program in 155 ticks: the 153 words of the other slot, its count, and the gate, whose
/// write makes the commit. The clock in the slot is the one as the commit begins. It is `Off` exactly where fewer than 155
/// ticks are left; then the memory recovers to the older commit, and `work` is as it was.
pub fn commit<W: World>(
    fram: &mut Fram,
    world: &mut W,
    regs: &Regs,
    work: &mut Work,
) -> Result<(), Off>
    requires well_formed { IsWellFormed (words_of fram.old.words) }
    requires segment { work.old.segment < 32 }
    requires length { work.old.block_length ≤ 128 }
    requires block { (i : ℕ) → i < work.old.block_length → IsLoggable (words_of fram.old.words (block_address i)) }
    requires commits { work.old.commits < 2 ^ 32 - 1 }
    ensures ticks { Takes commit_cost result (W.state world.old) (W.state world.new) }
    ensures committed { OnOk result (recovered (words_of fram.new.words) ≡ machine_of regs.now.r
        (state_words work.old.segment (if work.old.block_open then 1 else 0) work.old.block_length work.old.marks
        (work.old.commits + 1) (W.state world.old).clock) (words_of fram.old.words)) }
    ensures off { OnErr result (recovered (words_of fram.new.words) ≡ recovered (words_of fram.old.words)) }
    ensures well_formed { IsWellFormed (words_of fram.new.words) }
    ensures no_entries { OnOk result (count_of (words_of fram.new.words) ≡ 0) }
    ensures entries { OnErr result (count_of (words_of fram.new.words) ≡ count_of (words_of fram.old.words)) }
    ensures past { (b : ℕ) → undo_log_start ≤ b → words_of fram.new.words b ≡ words_of fram.old.words b }
    ensures elsewhere { StaysElsewhere (1 - gate_of (words_of fram.old.words)) (words_of fram.old.words)
        (words_of fram.new.words) }
    ensures work { OnOk result (work.new
        ≡ record work.old { commits = work.old.commits + 1; since = (W.state world.new).spent }) }
    ensures work_off { OnErr result (work.new ≡ work.old) }
    ensures poked { fram.new.poked ≡ fram.old.poked }
    ensures lawful { IsLawful (W.state world.new) }
{
    let number = work.commits + 1;
    let clock = world.clock();
    let state = state_of(work, number, clock);
    switch(fram, world, regs, &state)?;
    work.commits = number;
    work.since = world.spent();
    Ok(())
}

/// The nine state words.
fn state_of(work: &Work, number: u32, clock: u32) -> [u16; 9]
    ensures { result ≡ state_words work.now.segment (if work.now.block_open then 1 else 0) work.now.block_length
        work.now.marks number clock }
{
    let open = if work.block_open { 1 } else { 0 };
    [
        work.segment,
        open,
        work.block_length,
        low(work.marks),
        high(work.marks),
        low(number),
        high(number),
        low(clock),
        high(clock),
    ]
}

fn low(number: u32) -> u16
    ensures { result ≡ number % 65536 }
{
    (number % 65536) as u16
}

fn high(number: u32) -> u16
    ensures { result ≡ number / 65536 }
{
    (number / 65536) as u16
}

/// Writes the other slot, then 0 into its count, then the gate.
fn switch<W: World>(
    fram: &mut Fram,
    world: &mut W,
    regs: &Regs,
    state: &[u16; 9],
) -> Result<(), Off>
    requires well_formed { IsWellFormed (words_of fram.old.words) }
    requires segment { slice_index state.now 0 < 32 }
    requires open { slice_index state.now 1 < 2 }
    requires length { slice_index state.now 2 ≤ 128 }
    requires block { (i : ℕ) → i < slice_index state.now 2 → IsLoggable (words_of fram.old.words (block_address i)) }
    ensures ticks { Takes 155 result (W.state world.old) (W.state world.new) }
    ensures committed { OnOk result (recovered (words_of fram.new.words)
        ≡ machine_of regs.now.r state.now (words_of fram.old.words)) }
    ensures off { OnErr result (recovered (words_of fram.new.words) ≡ recovered (words_of fram.old.words)) }
    ensures well_formed { IsWellFormed (words_of fram.new.words) }
    ensures no_entries { OnOk result (count_of (words_of fram.new.words) ≡ 0) }
    ensures entries { OnErr result (count_of (words_of fram.new.words) ≡ count_of (words_of fram.old.words)) }
    ensures past { (b : ℕ) → undo_log_start ≤ b → words_of fram.new.words b ≡ words_of fram.old.words b }
    ensures elsewhere { StaysElsewhere (1 - gate_of (words_of fram.old.words)) (words_of fram.old.words)
        (words_of fram.new.words) }
    ensures poked { fram.new.poked ≡ fram.old.poked }
    ensures lawful { IsLawful (W.state world.new) }
{
    let other = 1 - gate(fram);
    fill(fram, world, other, regs, state)?;
    fram.write(world, COUNTS + 2 * other, 0)?;
    fram.write(world, GATE, other)
}

/// Writes the words of the other slot.
fn fill<W: World>(
    fram: &mut Fram,
    world: &mut W,
    slot: u16,
    regs: &Regs,
    state: &[u16; 9],
) -> Result<(), Off>
    requires well_formed { IsWellFormed (words_of fram.old.words) }
    requires other { slot ≡ 1 - gate_of (words_of fram.old.words) }
    requires segment { slice_index state.now 0 < 32 }
    ensures ticks { Takes 153 result (W.state world.old) (W.state world.new) }
    ensures filled { OnOk result (Fills slot regs.now.r state.now 153 (words_of fram.old.words) (words_of fram.new.words)) }
    ensures kept { Fills slot regs.now.r state.now 0 (words_of fram.old.words) (words_of fram.new.words) }
    ensures poked { fram.new.poked ≡ fram.old.poked }
    ensures lawful { OnErr result (IsLawful (W.state world.new)) }
{
    for index in 0..SLOT_WORDS {
        let word = value(fram, regs, state, index);
        fram.write(world, SLOTS + SLOT_STRIDE * slot + 2 * index, word)?;
    }
    Ok(())
}

/// The word at an index of the slot.
fn value(fram: &Fram, regs: &Regs, state: &[u16; 9], index: u16) -> u16
    requires segment { slice_index state.now 0 < 32 }
    requires index { index < 153 }
    ensures { result ≡ slot_value regs.now.r state.now (words_of fram.now.words) index }
{
    if index < REGISTERS_AT {
        fram.word(SEGMENTS + SEGMENT_BYTES * state[0] + 2 * index)
    } else if index < SEGMENT_AT {
        regs.r[(index - REGISTERS_AT) as usize]
    } else {
        state[(index - SEGMENT_AT) as usize]
    }
}
