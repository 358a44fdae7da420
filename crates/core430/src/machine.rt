ghost use Rattle.std.specs.Prelude.{◌≡◌, ◌<◌, ℕ, ◌*◌, ◌%◌, Some, None, IsTrue, MatchOption};
ghost use Rattle.isa430.specs.Table.{size_of, valid};
ghost use Rattle.core430.specs.Registers.{view_of};
ghost use Rattle.core430.specs.Instructions.{effect_of};
ghost use Rattle.core430.specs.Step.{State, arrive, finish as finish_of, execute as execute_of, instr_at, step as step_of};
ghost use Rattle.core430.specs.Conditions.{HasOperands, IsEvenStore};
ghost use Rattle.core430.specs.Shown.{AtMostOnePut, OnService, OnWild, IsTame, effect_shown, outcome_shown};

use crate::change::Change;
use crate::instruction::{jump, one, two};
use crate::memory::{Denied, Memory};
use crate::registers::set;
use base16::Regs;
use isa430::{Instr, decode};

/// What a step came to.
#[derive(Clone, Copy, Debug, PartialEq, Eq)]
pub enum Stepped {
    /// PC is at the next instruction.
    Next,
    /// PC is at the entry of service n, from 0 to 31.
    Service { n: u16 },
    /// An access that is refused, at this byte address.
    Wild { address: u16 },
}

/// What an instruction at address pc does, to registers that have PC past it.
fn perform<M: Memory>(instr: Instr, pc: u16, regs: &mut Regs, memory: &M) -> Change
    requires { HasOperands instr }
    ensures value { effect_shown result (view_of regs.new.r) ≡ effect_of pc instr (view_of regs.old.r) (M.words memory.now) }
    ensures even { IsEvenStore result }
{
    match instr {
        Instr::Two { op, byte, src, dst } => two(op, byte, src, dst, pc, regs, memory),
        Instr::One { op, byte, src } => one(op, byte, src, pc, regs, memory),
        Instr::Jump { cond, offset } => jump(cond, offset, pc, regs),
    }
}

/// Where PC has come to.
fn arrived(regs: &Regs) -> Stepped
    ensures value { (m : ℕ → ℕ) → outcome_shown result (view_of regs.now.r) m ≡ arrive (view_of regs.now.r) m }
    ensures tame { IsTame result }
    ensures number { OnService result (λ n. n < 32) }
{
    let pc = regs.r[0];
    if pc >= 0xff00 && pc < 0xff40 && pc % 2 == 0 {
        Stepped::Service {
            n: (pc - 0xff00) / 2,
        }
    } else {
        Stepped::Next
    }
}

/// Carries a change out: writes the word, or puts the registers back where an access is refused.
fn finish<M: Memory>(change: Change, before: &Regs, regs: &mut Regs, memory: &mut M) -> Stepped
    requires { IsEvenStore change }
    ensures is { outcome_shown result (view_of regs.new.r) (M.words memory.new) ≡ finish_of (M.denied memory.old) (M.words memory.old) (effect_shown change (view_of regs.old.r)) }
    ensures number { OnService result (λ n. n < 32) }
    ensures wild_registers { OnWild result (regs.new ≡ before.now) }
    ensures wild_memory { OnWild result (M.words memory.new ≡ M.words memory.old) }
    ensures one_put { AtMostOnePut (M.denied memory.old) (M.words memory.old) (M.words memory.new) }
    ensures kept { M.denied memory.new ≡ M.denied memory.old }
    ensures lender { M.lender memory.new ≡ M.lender memory.old }
    ensures aside { M.aside memory.new ≡ M.aside memory.old }
{
    match change {
        Change::Sets => arrived(regs),
        Change::Stores { address, word } => match memory.put(address, word) {
            Ok(()) => arrived(regs),
            Err(Denied) => {
                *regs = *before;
                Stepped::Wild { address }
            }
        },
        Change::Faults(address) => {
            *regs = *before;
            Stepped::Wild { address }
        }
    }
}

/// An instruction of the table, and the number of its words, 1 to 3: what `execute` takes. A caller that knows that no write
/// falls on its code decodes each instruction once.
#[derive(Clone, Copy, Debug, PartialEq, Eq)]
pub struct Ready {
    pub instr: Instr,
    pub len: u8,
    pub ghost formed: { IsTrue (valid instr) },
    pub ghost size: { 2 * len ≡ size_of instr },
}

/// The instruction that stands at an even address; none exactly where the first word is outside the table.
pub fn fetch<M: Memory>(address: u16, memory: &M) -> Option<Ready>
    requires { address % 2 ≡ 0 }
    ensures { MatchOption result (instr_at (M.words memory.now) address ≡ None) (λ d. instr_at (M.words memory.now) address ≡ Some d.instr) }
{
    let words = [
        memory.get(address),
        memory.get(address.wrapping_add(2)),
        memory.get(address.wrapping_add(4)),
    ];
    let (instr, len) = decode(&words)?;
    Some(Ready { instr, len })
}

/// Executes an instruction as if it stood at PC: where it does, this is the step. `Wild` comes as in `step`, from an odd
/// address on; registers and memory are then as before.
#[tactic(auto, using(crate::proofs::Validity::operands_there))]
#[inline(always)]
pub fn execute<M: Memory>(ready: Ready, regs: &mut Regs, memory: &mut M) -> Stepped
    ensures is { outcome_shown result (view_of regs.new.r) (M.words memory.new) ≡ execute_of (M.denied memory.old) ready.instr (record { regs = view_of regs.old.r; memory = M.words memory.old }) }
    ensures number { OnService result (λ n. n < 32) }
    ensures wild_registers { OnWild result (regs.new ≡ regs.old) }
    ensures wild_memory { OnWild result (M.words memory.new ≡ M.words memory.old) }
    ensures one_put { AtMostOnePut (M.denied memory.old) (M.words memory.old) (M.words memory.new) }
    ensures kept { M.denied memory.new ≡ M.denied memory.old }
    ensures lender { M.lender memory.new ≡ M.lender memory.old }
    ensures aside { M.aside memory.new ≡ M.aside memory.old }
{
    let pc = regs.r[0];
    let before = *regs;
    set(regs, 0, pc.wrapping_add(2 * ready.len as u16));
    let change = perform(ready.instr, pc, regs, memory);
    finish(change, &before, regs, memory)
}

/// Executes the instruction at PC (MSP430 user's guide, 16-bit CPU, "Instruction Set"). `Wild` comes in this order: PC
/// is odd, with PC; the first word is outside the table, with PC; a word access goes to an odd address, the source
/// before the destination, with that address; CPUOFF would be set, with PC; the write is denied, with its even address.
/// Registers and memory are then as before.
pub fn step<M: Memory>(regs: &mut Regs, memory: &mut M) -> Stepped
    ensures is { outcome_shown result (view_of regs.new.r) (M.words memory.new) ≡ step_of (M.denied memory.old) (record { regs = view_of regs.old.r; memory = M.words memory.old }) }
    ensures number { OnService result (λ n. n < 32) }
    ensures wild_registers { OnWild result (regs.new ≡ regs.old) }
    ensures wild_memory { OnWild result (M.words memory.new ≡ M.words memory.old) }
    ensures one_put { AtMostOnePut (M.denied memory.old) (M.words memory.old) (M.words memory.new) }
    ensures kept { M.denied memory.new ≡ M.denied memory.old }
    ensures lender { M.lender memory.new ≡ M.lender memory.old }
    ensures aside { M.aside memory.new ≡ M.aside memory.old }
{
    let pc = regs.r[0];
    if pc % 2 != 0 {
        return Stepped::Wild { address: pc };
    }
    match fetch(pc, memory) {
        Some(ready) => execute(ready, regs, memory),
        None => Stepped::Wild { address: pc },
    }
}
