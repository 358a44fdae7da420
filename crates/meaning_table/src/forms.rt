//! What programs come to by their forms.

use base16::Reading;
use c_meaning::CState;
use core_tree::Core;
use ir::{Ir, IrState};
use ir_run::ir_run;
use report_state::state_text;
use std::alloc::{AllocError, Global};

/// The state of a form as that of its program, if the form's run is not stuck.
fn of_program(state: IrState) -> Option<CState> {
    match state {
        IrState::Live { state } => Some(CState::Live { state }),
        IrState::Ended { kind, state } => Some(CState::Ended { kind, state }),
        IrState::NeedsReading => Some(CState::NeedsReading),
        IrState::Stuck => None,
    }
}

/// Whether the form of a program comes to the state of this text after so many marks.
pub fn comes_to(
    alloc: Global,
    core: &Core,
    ir: &Ir,
    readings: &[Reading],
    marks: u32,
    text: &[u8],
) -> Result<bool, AllocError> {
    let Ok(state) = ir_run(alloc, ir, readings, marks) else {
        return Err(AllocError);
    };
    let Some(state) = of_program(state) else {
        return Ok(false);
    };
    match state_text(alloc, &state, core) {
        Ok(found) => Ok(found.as_slice() == text),
        Err(_) => Err(AllocError),
    }
}
