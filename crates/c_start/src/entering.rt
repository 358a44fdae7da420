//! How a function is entered.

ghost use Rattle.std.specs.Prelude.{◌≡◌, ◌<◌, ◌^◌, map, slice_get, Some, IfOk};
ghost use Rattle.c_run.specs.Gives.{Gives};
ghost use Rattle.c_run.specs.Actions as act;
ghost use Rattle.core_tree.specs.Layout.{kind_of};
ghost use Rattle.core_tree.specs.Heights as heights;
ghost use Rattle.c_meaning.specs.After as whole;

use crate::frames::Program;
use base16::board::MOST_FRAME_BYTES;
use base16::{EndKind, NoMemory};
use c_run::{Halt, Run};
use c_values::Value;
use core_tree::Function;
use std::alloc::Global;

/// More objects than these do not fit into any memory.
const MOST_OBJECTS: usize = 1 << 29;

/// Enters a function of a program, by its number: its frame is placed, its objects come to life, and the mark is made. The
/// answer is the number of its first object.
///
/// # Errors
/// As the run halts; `StackFull` if the frame has no place.
#[tactic(auto, using(crate::proofs::Framing::small_bytes, crate::proofs::Framing::small_test, crate::proofs::Framing::large_stops))]
pub fn enter(
    alloc: Global,
    program: &Program<'_>,
    number: u16,
    function: &Function,
    run: &mut Run,
) -> Result<u64, Halt>
    requires { slice_get program.now.core.now.functions number ≡ Some function.now }
    ensures gives { let structs = program.now.core.now.structs in let bytes = heights.frame_bytes structs function.now in
        Gives (act.enter number bytes (whole.objects_of structs function.now) run.old) result run.new }
    ensures low { IfOk result (λ first. first < 2 ^ 63) }
{
    let frame = program.frame(number, function);
    if frame.bytes > u32::from(MOST_FRAME_BYTES) {
        return Err(Halt::Ended(EndKind::StackFull));
    }
    if frame.objects.len() > MOST_OBJECTS {
        return Err(Halt::NoMemory);
    }
    run.enter(alloc, number, frame.bytes, frame.objects.as_slice())
}

/// Gives the parameters of a function that is entered their values, which are converted to their types. The objects of the
/// call are numbered from the first.
///
/// # Errors
/// `NoMemory` if there are more parameters than any memory holds.
pub fn set_params(
    alloc: Global,
    program: &Program<'_>,
    number: u16,
    function: &Function,
    first: u64,
    args: &[Value],
    run: &mut Run,
) -> Result<(), NoMemory>
    requires there { slice_get program.now.core.now.functions number ≡ Some function.now }
    requires low { first < 2 ^ 63 }
    ensures { IfOk result (λ _.
        run.new ≡ record run.old { state = act.with_params first (map kind_of function.now.params) args.now run.old.state }) }
{
    let frame = program.frame(number, function);
    if frame.kinds.len() > MOST_OBJECTS {
        return Err(NoMemory);
    }
    run.put_params(alloc, first, frame.kinds.as_slice(), args);
    Ok(())
}
