ghost use Rattle.std.specs.Prelude.{◌≡◌, ◌<◌};
ghost use Rattle.core430.specs.Registers.{view_of, set_reg, write_reg};
ghost use Rattle.core430.specs.Instructions.{flagged};

use base16::Regs;

#[inline(always)]
pub fn get(regs: &Regs, register: u8) -> u16
    requires { register < 16 }
    ensures { result ≡ view_of regs.now.r register }
{
    regs.r[register as usize]
}

#[inline(always)]
pub fn set(regs: &mut Regs, register: u8, word: u16)
    requires { register < 16 }
    ensures { view_of regs.new.r ≡ set_reg (view_of regs.old.r) register word }
{
    regs.r[register as usize] = word;
}

/// What an instruction writes to a register: R3 stays as it is.
#[inline(always)]
pub fn write(regs: &mut Regs, register: u8, word: u16)
    requires { register < 16 }
    ensures { view_of regs.new.r ≡ write_reg (view_of regs.old.r) register word }
{
    if register != 3 {
        set(regs, register, word);
    }
}

/// Sets the status register, where the flags change.
#[inline(always)]
pub fn flag(regs: &mut Regs, status: Option<u16>)
    ensures { view_of regs.new.r ≡ flagged (view_of regs.old.r) status }
{
    if let Some(word) = status {
        set(regs, 2, word);
    }
}
