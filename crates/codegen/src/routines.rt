//! The words of the helper routines.

ghost use Rattle.std.specs.Prelude.{◌≡◌, length};
ghost use Rattle.rt430.specs.declared.words.Helper.{Helper};
ghost use Rattle.rt430.specs.Routines.{Computes, size};
ghost use Rattle.codegen.specs.Placing.{routine_words};

use rt430::{Helper, routine};

/// The words of each helper routine.
#[derive(Drop)]
pub struct Routines {
    mul16: &'static [u16],
    udiv16: &'static [u16],
    umod16: &'static [u16],
    sdiv16: &'static [u16],
    smod16: &'static [u16],
    shl: &'static [u16],
    shr: &'static [u16],
    sar: &'static [u16],
}

/// The words of all helper routines: each has the size of its own and computes its operator.
pub fn all_routines() -> Routines
    ensures computes { (which : Helper) → Computes which (routine_words result which) }
    ensures sized { (which : Helper) → length (routine_words result which) ≡ size which }
{
    Routines {
        mul16: routine(Helper::Mul16),
        udiv16: routine(Helper::Udiv16),
        umod16: routine(Helper::Umod16),
        sdiv16: routine(Helper::Sdiv16),
        smod16: routine(Helper::Smod16),
        shl: routine(Helper::Shl),
        shr: routine(Helper::Shr),
        sar: routine(Helper::Sar),
    }
}

/// The words of one of them.
pub fn words_of(routines: &Routines, which: Helper) -> &[u16]
    ensures { result.now ≡ routine_words routines.now which }
{
    match which {
        Helper::Mul16 => routines.mul16,
        Helper::Udiv16 => routines.udiv16,
        Helper::Umod16 => routines.umod16,
        Helper::Sdiv16 => routines.sdiv16,
        Helper::Smod16 => routines.smod16,
        Helper::Shl => routines.shl,
        Helper::Shr => routines.shr,
        Helper::Sar => routines.sar,
    }
}
