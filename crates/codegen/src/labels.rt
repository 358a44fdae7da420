//! The numbers of labels.

ghost use Rattle.std.specs.Prelude.{◌≡◌};
ghost use Rattle.select430.specs.Labels as spec;

use rt430::Helper;

/// The label of a function.
pub fn function_label(function: u16) -> u64
    ensures { result ≡ spec.function_label function }
{
    u64::from(function) * 1099511627776
}

/// The label of a step.
pub fn step_label(function: u16, step: u32) -> u64
    ensures { result ≡ spec.step_label function step }
{
    function_label(function) + 4 * (u64::from(step) + 1)
}

/// The label of a helper routine.
pub fn helper_label(which: Helper) -> u64
    ensures { result ≡ spec.helper_label which }
{
    let number = match which {
        Helper::Mul16 => 0,
        Helper::Udiv16 => 1,
        Helper::Umod16 => 2,
        Helper::Sdiv16 => 3,
        Helper::Smod16 => 4,
        Helper::Shl => 5,
        Helper::Shr => 6,
        Helper::Sar => 7,
    };
    1152921504606846976 + number
}

/// The label of a check table.
pub fn table_label(table: u32) -> u64
    ensures { result ≡ spec.table_label table }
{
    2305843009213693952 + u64::from(table)
}
