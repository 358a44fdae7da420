//! What is printed of a meaning.

ghost use Rattle.std.specs.Prelude.{◌≡◌, IfOk};
ghost use Rattle.tics_meaning.specs.Meant.{meaning_text};

use crate::asking::Asked;
use base16::NoMemory;
use c_interpreter::meaning;
use report_state::state_text;
use std::alloc::Global;

/// How many marks a meaning is looked at behind.
const MEANING_MARKS: u32 = 4_000_000;

/// The text of what a program comes to on its readings: its state just after 4,000,000 marks, or how its run stopped
/// earlier.
pub fn text_of(alloc: Global, asked: &Asked) -> Result<Vec<u8>, NoMemory>
    ensures { IfOk result (λ text. text.items ≡ meaning_text asked.now.typed asked.now.readings.items) }
{
    let core = &asked.typed.get().core;
    let state = meaning(alloc, core, asked.readings.as_slice(), MEANING_MARKS)?;
    state_text(alloc, &state, core)
}
