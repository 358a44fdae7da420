//! How many steps functions have.

ghost use Rattle.std.specs.Prelude.{◌≡◌};
ghost use Rattle.ir_build.specs.Few as spec;

use ir::IrFunction;

/// Whether each function has fewer than 2^32 steps.
pub fn have_few_steps(functions: &[IrFunction]) -> bool
    ensures { result ≡ spec.have_few_steps functions.now }
{
    for function in functions {
        if function.steps.as_slice().len() > u32::MAX as usize {
            return false;
        }
    }
    true
}
