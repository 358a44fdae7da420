//! What an open block keeps, and how it is undone.

ghost use Rattle.std.specs.Prelude.{◌≡◌, IfOk};
ghost use Rattle.c_run.specs.Actions as spec;

use crate::fresh::{copy_calls, copy_objects};
use base16::{NoMemory, Sequence};
use c_values::{Saved, State};
use std::alloc::Global;

/// What stands in a state, kept for an undoing.
pub fn kept(alloc: Global, state: &State) -> Result<Saved, NoMemory>
    ensures { IfOk result (λ saved. saved ≡ spec.kept state.now) }
{
    let globals = copy_objects(alloc, state.globals.as_slice())?;
    let calls = copy_calls(alloc, state.calls.as_slice())?;
    let stamps = Sequence::from_vec(state.stamps.as_slice().to_vec(alloc)?);
    let outputs = Sequence::from_vec(state.outputs.as_slice().to_vec(alloc)?);
    Ok(Saved {
        globals,
        calls,
        stamps,
        outputs,
        words: 0,
    })
}

/// The open block is over, and what it did is undone.
pub fn undo(state: &mut State)
    ensures { state.new ≡ spec.undone state.old }
{
    let block = std::mem::replace(&mut state.block, None);
    if let Some(saved) = block {
        let Saved {
            globals,
            calls,
            stamps,
            outputs,
            words: _,
        } = saved;
        state.globals = globals;
        state.calls = calls;
        state.stamps = stamps;
        state.outputs = outputs;
    }
}
