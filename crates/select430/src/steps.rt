//! The code of each step.

ghost use Rattle.std.specs.Prelude.{◌≡◌, ◌<◌, ◌^◌, ◌+◌, ◌++◌, OnOk, [], ◌∷◌, pos};
ghost use Rattle.ir.specs.declared.form.StepKind.TheVariants as step;
ghost use Rattle.select430.specs.Adding.{Adds};
ghost use Rattle.select430.specs.Code as spec;

use crate::computing::{
    apply, left_register, perform, right_register, shift_pointer, test_flags, test_where,
};
use crate::frames::local_at;
use crate::instrs::{
    against_zero, is_char, opposite, push, read, service, truth_where, two, with_number, word,
    write,
};
use crate::operands::{
    address, arguments, before_taken, bring, bring_both, bring_target, bring_temporary, keep,
    keep_stored, keep_updated, put, save, taken, target_taken,
};
use crate::part::Part;
use base16::{IntType, Kind, NoMemory, UnaryOp};
use ir::{Base, Ir, IrFunction, Keep, Operand, Operation, Target, Test};
use isa430::{Cond, Dst, Src, TwoOp};

/// Adds an operation on the two topmost temporaries.
#[tactic(auto, using(crate::proofs::Adding::then_added))]
pub fn beside(
    ir: &Ir,
    function: &IrFunction,
    parts: &mut Vec<Part>,
    depth: u32,
    operation: Operation,
) -> Result<(), NoMemory>
    ensures { OnOk result (Adds parts.old.items parts.new.items (spec.code_of_step ir.now function.now (step.Beside depth operation))) }
{
    let lower = u64::from(depth);
    bring_temporary(ir, function, parts, lower, left_register(operation))?;
    bring_temporary(ir, function, parts, lower + 1, right_register(operation))?;
    perform(parts, operation)?;
    keep(ir, function, parts, lower + 1, 12)
}

#[tactic(auto, using(crate::proofs::Adding::then_added))]
fn apply_to(
    ir: &Ir,
    function: &IrFunction,
    parts: &mut Vec<Part>,
    op: UnaryOp,
    value: Operand,
    depth: u64,
) -> Result<(), NoMemory>
    requires { depth < 2 ^ 40 }
    ensures { OnOk result (Adds parts.old.items parts.new.items (spec.bring ir.now function.now value depth 12 ++ (spec.unary op ++ spec.keep ir.now function.now depth 12))) }
{
    bring(ir, function, parts, value, depth, 12)?;
    apply(parts, op)?;
    keep(ir, function, parts, depth, 12)
}

/// Adds a unary operator.
pub fn unary(
    ir: &Ir,
    function: &IrFunction,
    parts: &mut Vec<Part>,
    op: UnaryOp,
    value: Operand,
    depth: u64,
) -> Result<(), NoMemory>
    requires { depth < 2 ^ 40 }
    ensures { OnOk result (Adds parts.old.items parts.new.items (spec.unary_parts ir.now function.now op value depth)) }
{
    match op {
        UnaryOp::Plus => put(ir, function, parts, value, depth),
        UnaryOp::Minus => apply_to(ir, function, parts, UnaryOp::Minus, value, depth),
        UnaryOp::Complement => apply_to(ir, function, parts, UnaryOp::Complement, value, depth),
        UnaryOp::Not => apply_to(ir, function, parts, UnaryOp::Not, value, depth),
    }
}

/// Adds an operation on two values.
#[tactic(auto, using(crate::proofs::Adding::then_added))]
pub fn binary(
    ir: &Ir,
    function: &IrFunction,
    parts: &mut Vec<Part>,
    depth: u32,
    operation: Operation,
    left: Operand,
    right: Operand,
) -> Result<(), NoMemory>
    ensures { OnOk result (Adds parts.old.items parts.new.items (spec.code_of_step ir.now function.now (step.Binary depth operation left right))) }
{
    let at = u64::from(depth);
    bring_both(ir, function, parts, operation, left, right, at)?;
    perform(parts, operation)?;
    keep(ir, function, parts, at, 12)
}

/// Adds the truth of a value.
#[tactic(auto, using(crate::proofs::Adding::then_added, crate::proofs::Adding::cons_added))]
pub fn truth(
    ir: &Ir,
    function: &IrFunction,
    parts: &mut Vec<Part>,
    depth: u32,
    of: IntType,
    value: Operand,
) -> Result<(), NoMemory>
    ensures { OnOk result (Adds parts.old.items parts.new.items (spec.code_of_step ir.now function.now (step.Truth depth of value))) }
{
    let at = u64::from(depth);
    bring(ir, function, parts, value, at, 12)?;
    push(parts, against_zero())?;
    truth_where(parts, Cond::Nz)?;
    keep(ir, function, parts, at, 12)
}

/// Adds a known place.
#[tactic(auto, using(crate::proofs::Adding::then_added))]
pub fn known_place(
    ir: &Ir,
    function: &IrFunction,
    parts: &mut Vec<Part>,
    depth: u32,
    of: Base,
    offset: u16,
) -> Result<(), NoMemory>
    ensures { OnOk result (Adds parts.old.items parts.new.items (spec.code_of_step ir.now function.now (step.Address depth of offset))) }
{
    address(ir, function, parts, of, offset, 12)?;
    keep(ir, function, parts, u64::from(depth), 12)
}

/// Adds a place further in its object.
#[tactic(auto, using(crate::proofs::Adding::then_added, crate::proofs::Adding::cons_added))]
pub fn member(
    ir: &Ir,
    function: &IrFunction,
    parts: &mut Vec<Part>,
    depth: u32,
    offset: u32,
) -> Result<(), NoMemory>
    ensures { OnOk result (Adds parts.old.items parts.new.items (spec.code_of_step ir.now function.now (step.Member depth offset))) }
{
    let at = u64::from(depth);
    bring_temporary(ir, function, parts, at, 12)?;
    let further = i64::from(word(u64::from(offset)));
    push(parts, with_number(TwoOp::Add, further, 12))?;
    keep(ir, function, parts, at, 12)
}

/// Adds an element of an array.
#[tactic(auto, using(crate::proofs::Adding::then_added))]
pub fn element(
    ir: &Ir,
    function: &IrFunction,
    parts: &mut Vec<Part>,
    depth: u32,
    size: u32,
    own: IntType,
    index: Operand,
) -> Result<(), NoMemory>
    ensures { OnOk result (Adds parts.old.items parts.new.items (spec.code_of_step ir.now function.now (step.Element depth size own index))) }
{
    let at = u64::from(depth);
    bring_temporary(ir, function, parts, at, 15)?;
    bring(ir, function, parts, index, at + 1, 12)?;
    shift_pointer(parts, false, size)?;
    keep(ir, function, parts, at, 12)
}

/// Adds the place to which a sum points.
#[tactic(auto, using(crate::proofs::Adding::then_added))]
pub fn sum(
    ir: &Ir,
    function: &IrFunction,
    parts: &mut Vec<Part>,
    depth: u32,
    size: u32,
    left_type: IntType,
    right_type: IntType,
    swapped: bool,
    left: Operand,
    right: Operand,
) -> Result<(), NoMemory>
    ensures { OnOk result (Adds parts.old.items parts.new.items (spec.code_of_step ir.now function.now (step.Sum depth size left_type right_type swapped left right))) }
{
    let at = u64::from(depth);
    let one = if swapped { 12 } else { 15 };
    let other = if swapped { 15 } else { 12 };
    bring(ir, function, parts, left, at, one)?;
    bring(ir, function, parts, right, at + taken(left), other)?;
    shift_pointer(parts, false, size)?;
    keep(ir, function, parts, at, 12)
}

/// Adds what a scalar at a place holds, as the temporary of another depth.
#[tactic(auto, using(crate::proofs::Adding::then_added, crate::proofs::Adding::cons_added))]
pub fn load(
    ir: &Ir,
    function: &IrFunction,
    parts: &mut Vec<Part>,
    depth: u64,
    kind: Kind,
    to: u64,
) -> Result<(), NoMemory>
    requires depth { depth < 2 ^ 40 }
    requires to { to < 2 ^ 40 }
    ensures { OnOk result (Adds parts.old.items parts.new.items (spec.bring_temporary ir.now function.now depth 12 ++ (spec.read kind (Src.Indirect 12) 12 ∷ spec.keep ir.now function.now to 12))) }
{
    bring_temporary(ir, function, parts, depth, 12)?;
    push(parts, read(kind, Src::Indirect(12), 12))?;
    keep(ir, function, parts, to, 12)
}

fn store_service(kind: Kind) -> u16
    ensures value { result ≡ spec.store_service kind }
    ensures range { result < 32 }
{
    if is_char(kind) { 5 } else { 4 }
}

/// Adds a store with a mark.
#[tactic(auto, using(crate::proofs::Adding::then_added, crate::proofs::Adding::cons_added))]
pub fn store(
    ir: &Ir,
    function: &IrFunction,
    parts: &mut Vec<Part>,
    depth: u32,
    to: Target,
    kind: Kind,
    value: Operand,
    keeps: Keep,
) -> Result<(), NoMemory>
    ensures { OnOk result (Adds parts.old.items parts.new.items (spec.code_of_step ir.now function.now (step.Store depth to kind value keeps))) }
{
    let at = u64::from(depth);
    bring_target(ir, function, parts, to, at, 14)?;
    let above = at + target_taken(to) + before_taken(keeps);
    bring(ir, function, parts, value, above, 13)?;
    push(parts, service(store_service(kind)))?;
    keep_stored(ir, function, parts, keeps, kind, to, at, 13)
}

/// Adds a store without a mark.
#[tactic(auto, using(crate::proofs::Adding::then_added, crate::proofs::Adding::cons_added))]
pub fn store_local(
    ir: &Ir,
    function: &IrFunction,
    parts: &mut Vec<Part>,
    depth: u32,
    local: u32,
    offset: u16,
    kind: Kind,
    value: Operand,
    keeps: Keep,
) -> Result<(), NoMemory>
    ensures { OnOk result (Adds parts.old.items parts.new.items (spec.code_of_step ir.now function.now (step.StoreLocal depth local offset kind value keeps))) }
{
    let at = u64::from(depth);
    bring(ir, function, parts, value, at + before_taken(keeps), 12)?;
    let place = Dst::Indexed(1, local_at(function, local, offset));
    push(parts, write(kind, 12, place))?;
    let to = Target::Known {
        of: Base::Local(local),
        offset,
    };
    keep_stored(ir, function, parts, keeps, kind, to, at, 12)
}

/// Adds what stores R12 at the place in R9.
#[tactic(auto, using(crate::proofs::Adding::cons_added))]
fn store_updated(
    ir: &Ir,
    function: &IrFunction,
    parts: &mut Vec<Part>,
    keeps: Keep,
    kind: Kind,
    depth: u64,
) -> Result<(), NoMemory>
    requires { depth < 2 ^ 40 }
    ensures { OnOk result (Adds parts.old.items parts.new.items (spec.two TwoOp.Mov 12 13 ∷ spec.two TwoOp.Mov 9 14 ∷ spec.service (spec.store_service kind) ∷ spec.kept_update ir.now function.now keeps kind depth 13)) }
{
    push(parts, two(TwoOp::Mov, 12, 13))?;
    push(parts, two(TwoOp::Mov, 9, 14))?;
    push(parts, service(store_service(kind)))?;
    keep_updated(ir, function, parts, keeps, kind, depth, 13)
}

/// Adds an update with a mark.
#[tactic(auto, using(crate::proofs::Adding::then_added, crate::proofs::Adding::cons_added))]
pub fn update(
    ir: &Ir,
    function: &IrFunction,
    parts: &mut Vec<Part>,
    depth: u32,
    to: Target,
    kind: Kind,
    operation: Operation,
    value: Operand,
    keeps: Keep,
) -> Result<(), NoMemory>
    ensures { OnOk result (Adds parts.old.items parts.new.items (spec.code_of_step ir.now function.now (step.Update depth to kind operation value keeps))) }
{
    let at = u64::from(depth);
    let left = left_register(operation);
    bring_target(ir, function, parts, to, at, 9)?;
    push(parts, read(kind, Src::Indirect(9), left))?;
    save(ir, function, parts, keeps, left)?;
    let above = at + target_taken(to);
    bring(ir, function, parts, value, above, right_register(operation))?;
    perform(parts, operation)?;
    store_updated(ir, function, parts, keeps, kind, at)
}

/// Adds an update without a mark.
#[tactic(auto, using(crate::proofs::Adding::then_added, crate::proofs::Adding::cons_added))]
pub fn update_local(
    ir: &Ir,
    function: &IrFunction,
    parts: &mut Vec<Part>,
    depth: u32,
    local: u32,
    offset: u16,
    kind: Kind,
    operation: Operation,
    value: Operand,
    keeps: Keep,
) -> Result<(), NoMemory>
    ensures { OnOk result (Adds parts.old.items parts.new.items (spec.code_of_step ir.now function.now (step.UpdateLocal depth local offset kind operation value keeps))) }
{
    let at = u64::from(depth);
    let left = left_register(operation);
    let place = local_at(function, local, offset);
    push(parts, read(kind, Src::Indexed(1, place), left))?;
    save(ir, function, parts, keeps, left)?;
    bring(ir, function, parts, value, at, right_register(operation))?;
    perform(parts, operation)?;
    push(parts, write(kind, 12, Dst::Indexed(1, place)))?;
    keep_updated(ir, function, parts, keeps, kind, at, 12)
}

#[tactic(auto, using(crate::proofs::Adding::then_added))]
fn value_flags(
    ir: &Ir,
    function: &IrFunction,
    parts: &mut Vec<Part>,
    value: Operand,
    depth: u64,
) -> Result<(), NoMemory>
    requires { depth < 2 ^ 39 }
    ensures { OnOk result (Adds parts.old.items parts.new.items (spec.bring ir.now function.now value depth 12 ++ spec.against_zero ∷ [])) }
{
    bring(ir, function, parts, value, depth, 12)?;
    push(parts, against_zero())
}

#[tactic(auto, using(crate::proofs::Adding::then_added))]
fn computed_flags(
    ir: &Ir,
    function: &IrFunction,
    parts: &mut Vec<Part>,
    operation: Operation,
    left: Operand,
    right: Operand,
    depth: u64,
) -> Result<(), NoMemory>
    requires { depth < 2 ^ 39 }
    ensures { OnOk result (Adds parts.old.items parts.new.items (spec.bring_both ir.now function.now operation left right depth ++ spec.test_flags operation)) }
{
    bring_both(ir, function, parts, operation, left, right, depth)?;
    test_flags(parts, operation)
}

fn flags_of(
    ir: &Ir,
    function: &IrFunction,
    parts: &mut Vec<Part>,
    test: Test,
    depth: u64,
) -> Result<(), NoMemory>
    requires { depth < 2 ^ 39 }
    ensures { OnOk result (Adds parts.old.items parts.new.items (spec.flags_of ir.now function.now test depth)) }
{
    match test {
        Test::Value(value) => value_flags(ir, function, parts, value, depth),
        Test::Computed {
            operation,
            left,
            right,
        } => computed_flags(ir, function, parts, operation, left, right, depth),
    }
}

fn true_where(ir: &Ir, function: &IrFunction, test: Test) -> Cond
    ensures { result ≡ spec.true_where ir.now function.now test }
{
    match test {
        Test::Value(_) => Cond::Nz,
        Test::Computed { operation, .. } => test_where(operation),
    }
}

fn stay_where(ir: &Ir, function: &IrFunction, test: Test, when: bool) -> Cond
    ensures { result ≡ spec.stay_where ir.now function.now test when }
{
    if when {
        opposite(true_where(ir, function, test))
    } else {
        true_where(ir, function, test)
    }
}

/// Adds a branch.
#[tactic(auto, using(crate::proofs::Adding::then_added))]
pub fn branch(
    ir: &Ir,
    function: &IrFunction,
    parts: &mut Vec<Part>,
    depth: u32,
    test: Test,
    of: IntType,
    when: bool,
    to: u32,
) -> Result<(), NoMemory>
    ensures { OnOk result (Adds parts.old.items parts.new.items (spec.code_of_step ir.now function.now (step.Branch depth test of when to))) }
{
    flags_of(ir, function, parts, test, u64::from(depth))?;
    push(
        parts,
        Part::GoUnless(stay_where(ir, function, test, when), to),
    )
}

/// Adds a case.
#[tactic(auto, using(crate::proofs::Adding::then_added, crate::proofs::Adding::cons_added))]
pub fn case(
    ir: &Ir,
    function: &IrFunction,
    parts: &mut Vec<Part>,
    depth: u32,
    of: IntType,
    value: i64,
    to: u32,
) -> Result<(), NoMemory>
    ensures { OnOk result (Adds parts.old.items parts.new.items (spec.code_of_step ir.now function.now (step.Case depth of value to))) }
{
    bring_temporary(ir, function, parts, u64::from(depth), 12)?;
    push(parts, with_number(TwoOp::Cmp, value, 12))?;
    push(parts, Part::GoUnless(Cond::Nz, to))
}

/// Adds a call.
#[tactic(auto, using(crate::proofs::Adding::then_added))]
pub fn call(
    ir: &Ir,
    function: &IrFunction,
    parts: &mut Vec<Part>,
    depth: u32,
    callee: u16,
    args: u16,
) -> Result<(), NoMemory>
    ensures { OnOk result (Adds parts.old.items parts.new.items (spec.code_of_step ir.now function.now (step.Call depth callee args))) }
{
    arguments(ir, function, parts, u64::from(depth))?;
    push(parts, Part::Enters(callee))
}
