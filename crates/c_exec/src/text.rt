//! The text of a block in which a statement stands, and how statements leave.

ghost use Rattle.std.specs.Prelude.{◌≡◌};
ghost use Rattle.c_run.specs.Gives.{Gives};
ghost use Rattle.c_run.specs.Runs as runs;
ghost use Rattle.c_values.specs.Values as values;
ghost use Rattle.c_meaning.specs.Statements as spec;

use base16::{Reading, Sequence};
use c_eval::given;
use c_meaning::Flow;
use c_run::{Halt, Run, Timed};
use c_values::{Value, present};

/// A value that is used.
pub fn used(run: &Run, node: u32, value: Value) -> Result<Value, Halt>
    ensures { Gives (runs.given node (values.present value) run.now) result run.now }
{
    let _run = run;
    given(node, present(value))
}

/// Just before a loop's test: a mark, or in a block's text a check; whether the run goes on.
pub fn turn(
    run: &mut Run,
    readings: &[Reading],
    text: &Option<Sequence<Timed>>,
) -> Result<bool, Halt>
    ensures { Gives (spec.turn readings.now text.now run.old) result run.new }
{
    match text {
        None => {
            run.mark()?;
            Ok(true)
        }
        Some(names) => run.check_block(readings, names.as_slice()),
    }
}

/// How a switch leaves, which a break ends.
pub fn broken_out(flow: Flow) -> Flow
    ensures { result ≡ spec.broken_out flow }
{
    match flow {
        Flow::Break => Flow::Normal,
        Flow::Normal => Flow::Normal,
        Flow::Continue => Flow::Continue,
        Flow::Return(value) => Flow::Return(value),
        Flow::Caught => Flow::Caught,
    }
}
