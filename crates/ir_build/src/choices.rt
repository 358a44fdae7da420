//! The steps between the parts of a choice.

ghost use Rattle.std.specs.Prelude.{◌≡◌, ◌+◌, ◌++◌, length, IfOk, OnOk};
ghost use Rattle.ir.specs.declared.form.Operand.TheVariants as operand;
ghost use Rattle.ir.specs.declared.form.StepKind.TheVariants as step;
ghost use Rattle.ir_gen.specs.Code as spec;
ghost use Rattle.ir_build.specs.Emitting.{and_end, or_begin, one_step};

use crate::emit::{further, put, sides, unless};
use crate::kinds::bit;
use crate::sizes::expr_count;
use base16::{IntType, NoMemory, Sequence};
use core_tree::{Expr, Struct};
use ir::{Operand, Step, StepKind};

/// Whether a value of a type is not zero.
pub fn truth(of: IntType, depth: u32) -> StepKind
    ensures { result ≡ step.Truth depth of operand.Temporary }
{
    StepKind::Truth {
        depth,
        of,
        value: Operand::Temporary,
    }
}

/// The branch behind a test, to the other one of two values; where that ends.
pub fn put_branch(
    code: &mut Sequence<Step>,
    structs: &[Struct],
    node: u32,
    of: IntType,
    one: &Expr,
    other: &Expr,
    depth: u32,
) -> Result<u32, NoMemory>
    ensures steps { IfOk result (λ end. code.new
        ≡ code.old ++ one_step node (spec.unless of (length code.old + 1 + (spec.expr structs.now one.now).size + 1) depth)) }
    ensures size { IfOk result (λ end. length code.new ≡ length code.old + 1) }
    ensures end { IfOk result (λ end. end
        ≡ length code.old + 1 + (spec.expr structs.now one.now).size + 1 + (spec.expr structs.now other.now).size) }
{
    let one = expr_count(structs, one)?;
    let (to, end) = sides(code, one, expr_count(structs, other)?)?;
    put(code, node, unless(of, to, depth))?;
    Ok(end)
}

/// The branch behind the left side of `&&`, whose other side is 0; where that ends.
pub fn put_and(
    code: &mut Sequence<Step>,
    structs: &[Struct],
    node: u32,
    of: IntType,
    right: &Expr,
    depth: u32,
) -> Result<u32, NoMemory>
    ensures steps { IfOk result (λ end. code.new
        ≡ code.old
        ++ one_step node (spec.unless of (length code.old + 1 + ((spec.expr structs.now right.now).size + 1) + 1) depth)) }
    ensures size { IfOk result (λ end. length code.new ≡ length code.old + 1) }
    ensures end { IfOk result (λ end. end ≡ length code.old + 1 + ((spec.expr structs.now right.now).size + 1) + 1 + 1) }
{
    let one = further(expr_count(structs, right)?, 1)?;
    let (to, end) = sides(code, one, 1)?;
    put(code, node, unless(of, to, depth))?;
    Ok(end)
}

/// The end of `&&` behind its right side: whether that is not zero, and on the other side 0.
pub fn put_truth(
    code: &mut Sequence<Step>,
    node: u32,
    of: IntType,
    end: u32,
    depth: u32,
) -> Result<(), NoMemory>
    ensures steps { OnOk result (code.new ≡ code.old ++ and_end node of end depth) }
    ensures size { OnOk result (length code.new ≡ length code.old + 3) }
{
    put(code, node, truth(of, depth))?;
    put(code, node, StepKind::Jump { to: end })?;
    put(code, node, bit(depth, 0))?;
    Ok(())
}

/// The branch behind the left side of `||`, with the side that is 1.
pub fn put_or(
    code: &mut Sequence<Step>,
    structs: &[Struct],
    node: u32,
    of: IntType,
    right: &Expr,
    depth: u32,
) -> Result<(), NoMemory>
    ensures steps { OnOk result (code.new
        ≡ code.old ++ or_begin node of (length code.old + 1 + 1 + 1)
        (length code.old + 1 + 1 + 1 + ((spec.expr structs.now right.now).size + 1)) depth) }
    ensures size { OnOk result (length code.new ≡ length code.old + 1 + 1 + 1) }
{
    let other = further(expr_count(structs, right)?, 1)?;
    let (to, end) = sides(code, 1, other)?;
    put(code, node, unless(of, to, depth))?;
    put(code, node, bit(depth, 1))?;
    put(code, node, StepKind::Jump { to: end })?;
    Ok(())
}
