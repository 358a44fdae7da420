//! Steps that are written one after another.

ghost use Rattle.std.specs.Prelude.{◌≡◌, ◌+◌, [], ◌∷◌, ◌++◌, length, IfOk, OnOk};
ghost use Rattle.core_tree.specs.Heights.{capped};
ghost use Rattle.ir_gen.specs.Code as spec;

use base16::{IntType, NoMemory, Sequence};
use ir::{Operand, Step, StepKind, Test};

/// One more step of a node.
pub fn put(code: &mut Sequence<Step>, node: u32, kind: StepKind) -> Result<(), NoMemory>
    ensures steps { OnOk result (code.new ≡ code.old ++ spec.at_node node kind ∷ []) }
    ensures size { OnOk result (length code.new ≡ length code.old + 1) }
{
    code.push(Step { node, kind })?;
    Ok(())
}

/// The place of the next step.
pub fn next_place(code: &Sequence<Step>) -> Result<u32, NoMemory>
    ensures { IfOk result (λ place. place ≡ length code.now) }
{
    let count = code.len();
    if count > u32::MAX as usize {
        return Err(NoMemory);
    }
    Ok(count as u32)
}

/// A place or a depth so many further.
pub fn further(from: u32, by: u32) -> Result<u32, NoMemory>
    ensures { IfOk result (λ to. to ≡ from + by) }
{
    match from.checked_add(by) {
        Some(to) => Ok(to),
        None => Err(NoMemory),
    }
}

/// A size together with another; 2^32 - 1 stands for every greater number.
pub fn sum(size: u32, other: u32) -> u32
    ensures { result ≡ capped (size + other) }
{
    size.saturating_add(other)
}

/// A jump to a place where the topmost temporary, which is of a type, is zero.
pub fn unless(of: IntType, to: u32, depth: u32) -> StepKind
    ensures { result ≡ spec.unless of to depth }
{
    StepKind::Branch {
        depth,
        test: Test::Value(Operand::Temporary),
        of,
        when: false,
        to,
    }
}

/// Where a choice goes on whose test ends here, with so many steps on the one side and the other: where the other side
/// begins, and where it ends.
pub fn sides(code: &Sequence<Step>, one: u32, other: u32) -> Result<(u32, u32), NoMemory>
    ensures other { IfOk result (λ places. places.0 ≡ length code.now + 1 + one + 1) }
    ensures end { IfOk result (λ places. places.1 ≡ length code.now + 1 + one + 1 + other) }
{
    let branch = next_place(code)?;
    let first = further(branch, 1)?;
    let jump = further(first, one)?;
    let second = further(jump, 1)?;
    let end = further(second, other)?;
    Ok((second, end))
}
