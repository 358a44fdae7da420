//! The steps of tests, and of values that a step takes.

ghost use Rattle.std.specs.Prelude.{◌≡◌, ◌+◌, ◌++◌, length, IfOk, OnOk};
ghost use Rattle.ir_gen.specs.Code as codes;
ghost use Rattle.ir_gen.specs.Body as spec;

use crate::emit::{put, sum, unless};
use crate::expressions::expr_steps;
use crate::sizes::expr_size;
use crate::stmt_sizes::{guard_size, part_size};
use base16::{NoMemory, Sequence};
use core_tree::{Expr, Slot, Struct, int_type_of};
use ir::{Step, StepKind};

/// A value, and a step that takes it and leaves nothing.
pub fn taken_steps(
    code: &mut Sequence<Step>,
    structs: &[Struct],
    node: u32,
    step: StepKind,
    value: &Expr,
) -> Result<(), NoMemory>
    ensures steps { OnOk result (code.new
        ≡ code.old ++ (spec.taken_by node step (codes.expr structs.now value.now)).steps (length code.old)) }
    ensures size { OnOk result (length code.new
        ≡ length code.old + (spec.taken_by node step (codes.expr structs.now value.now)).size) }
{
    expr_steps(code, structs, value, 0)?;
    put(code, node, step)?;
    Ok(())
}

/// A test, which goes on behind it or to the other place.
pub fn guard_steps(
    code: &mut Sequence<Step>,
    structs: &[Struct],
    objects: &[Sequence<Slot>],
    node: u32,
    test: &Expr,
    other: u32,
) -> Result<(), NoMemory>
    ensures steps { OnOk result (code.new
        ≡ code.old ++ (spec.test_guard structs.now objects.now node test.now).steps (length code.old) other) }
    ensures size { OnOk result (length code.new
        ≡ length code.old + (spec.test_guard structs.now objects.now node test.now).size) }
{
    expr_steps(code, structs, test, 0)?;
    put(code, node, unless(int_type_of(&test.ty), other, 0))?;
    Ok(())
}

/// A test that may be left out.
pub fn optional_guard_steps(
    code: &mut Sequence<Step>,
    structs: &[Struct],
    objects: &[Sequence<Slot>],
    node: u32,
    test: &Option<Expr>,
    other: u32,
) -> Result<(), NoMemory>
    ensures steps { OnOk result (code.new
        ≡ code.old ++ (spec.optional_guard structs.now objects.now node test.now).steps (length code.old) other) }
    ensures size { OnOk result (length code.new
        ≡ length code.old + (spec.optional_guard structs.now objects.now node test.now).size) }
{
    match test {
        None => Ok(()),
        Some(test) => {
            guard_steps(code, structs, objects, node, test, other)?;
            Ok(())
        }
    }
}

/// The step of a loop, which may be left out.
pub fn part_steps(
    code: &mut Sequence<Step>,
    structs: &[Struct],
    objects: &[Sequence<Slot>],
    node: u32,
    step: &Option<Expr>,
) -> Result<(), NoMemory>
    ensures steps { OnOk result (code.new
        ≡ code.old ++ (spec.optional_part structs.now objects.now node step.now).steps (length code.old)) }
    ensures size { OnOk result (length code.new
        ≡ length code.old + (spec.optional_part structs.now objects.now node step.now).size) }
{
    match step {
        None => Ok(()),
        Some(step) => {
            taken_steps(code, structs, node, StepKind::Drop { depth: 0 }, step)?;
            Ok(())
        }
    }
}

/// How many steps a test has, where the number has 32 bits.
pub fn guard_count(
    structs: &[Struct],
    objects: &[Sequence<Slot>],
    node: u32,
    test: &Expr,
) -> Result<u32, NoMemory>
    ensures { IfOk result (λ count. count ≡ (spec.test_guard structs.now objects.now node test.now).size) }
{
    let size = sum(expr_size(structs, test), 1);
    if size == u32::MAX {
        return Err(NoMemory);
    }
    Ok(size)
}

/// How many steps a test that may be left out has, where the number has 32 bits.
pub fn optional_guard_count(
    structs: &[Struct],
    objects: &[Sequence<Slot>],
    node: u32,
    test: &Option<Expr>,
) -> Result<u32, NoMemory>
    ensures { IfOk result (λ count. count ≡ (spec.optional_guard structs.now objects.now node test.now).size) }
{
    let size = guard_size(structs, objects, node, test);
    if size == u32::MAX {
        return Err(NoMemory);
    }
    Ok(size)
}

/// How many steps the step of a loop has, where the number has 32 bits.
pub fn part_count(
    structs: &[Struct],
    objects: &[Sequence<Slot>],
    node: u32,
    step: &Option<Expr>,
) -> Result<u32, NoMemory>
    ensures { IfOk result (λ count. count ≡ (spec.optional_part structs.now objects.now node step.now).size) }
{
    let size = part_size(structs, objects, node, step);
    if size == u32::MAX {
        return Err(NoMemory);
    }
    Ok(size)
}
