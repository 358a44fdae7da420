ghost use Rattle.std.specs.Prelude.{◌≡◌, ◌-◌};
ghost use Rattle.core430.specs.Registers.{view_of};
ghost use Rattle.core430.specs.Shown.{outcome_shown};
ghost use Rattle.run430.specs.Run.{run as run_of, OnRefusal};

use base16::Regs;
use core430::{Memory, Stepped, step};

/// Makes n steps, or fewer where a step calls a service or is refused, and answers what the last came to. After a
/// refusal registers and memory are those that the refused step found.
pub fn run<M: Memory>(n: u32, regs: &mut Regs, memory: &mut M) -> Stepped
    ensures is { outcome_shown result (view_of regs.new.r) (M.words memory.new) ≡ run_of (M.denied memory.old) n (record { regs = view_of regs.old.r; memory = M.words memory.old }) }
    ensures wild { OnRefusal result (M.denied memory.old) n (record { regs = view_of regs.old.r; memory = M.words memory.old }) (record { regs = view_of regs.new.r; memory = M.words memory.new }) }
    ensures kept { M.denied memory.new ≡ M.denied memory.old }
    ensures lender { M.lender memory.new ≡ M.lender memory.old }
    ensures aside { M.aside memory.new ≡ M.aside memory.old }
{
    let mut left = n;
    while left > 0 {
        match step(regs, memory) {
            Stepped::Next => left -= 1,
            other => return other,
        }
    }
    Stepped::Next
}
