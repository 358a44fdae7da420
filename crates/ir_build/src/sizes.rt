//! How many steps expressions and places have; 2^32 - 1 stands for every greater number.

ghost use Rattle.std.specs.Prelude.{◌≡◌, map, IfOk};
ghost use Rattle.core_tree.specs.Heights.{capped};
ghost use Rattle.ir_gen.specs.Code as spec;
ghost use Rattle.ir_build.specs.Emitting.{coded};

use crate::emit::sum;
use crate::parts::is_part;
use base16::NoMemory;
use core_tree::{Expr, ExprKind, Place, PlaceKind, Struct};

/// How many steps an expression has.
#[cycle(size)]
#[tactic(auto, using(crate::proofs::CodeSizes::call_size, crate::proofs::CodeSizes::store_size, crate::proofs::CodeSizes::update_size))]
pub fn expr_size(structs: &[Struct], expr: &Expr) -> u32
    ensures { result ≡ capped (spec.expr structs.now expr.now).size }
{
    match &expr.kind {
        ExprKind::Constant(_) => 1,
        ExprKind::Sense(_) => 1,
        ExprKind::Checkpoint => 1,
        ExprKind::Read(place) => sum(place_size(structs, place.get()), 1),
        ExprKind::Address(place) => sum(place_size(structs, place.get()), 1),
        ExprKind::Convert(of) => sum(expr_size(structs, of.get()), 1),
        ExprKind::Unary { op: _, of } => sum(expr_size(structs, of.get()), 1),
        ExprKind::Emit(of) => sum(expr_size(structs, of.get()), 1),
        ExprKind::Binary { left, right, .. } => {
            let parts = sum(
                expr_size(structs, left.get()),
                expr_size(structs, right.get()),
            );
            sum(parts, 1)
        }
        ExprKind::PointerPlus { left, right, .. } => {
            let parts = sum(
                expr_size(structs, left.get()),
                expr_size(structs, right.get()),
            );
            sum(parts, 1)
        }
        ExprKind::Difference { left, right } => {
            let parts = sum(
                expr_size(structs, left.get()),
                expr_size(structs, right.get()),
            );
            sum(parts, 1)
        }
        ExprKind::ComparePointers { left, right, .. } => {
            let parts = sum(
                expr_size(structs, left.get()),
                expr_size(structs, right.get()),
            );
            sum(parts, 1)
        }
        ExprKind::Comma { left, right } => {
            let parts = sum(
                expr_size(structs, left.get()),
                expr_size(structs, right.get()),
            );
            sum(parts, 1)
        }
        ExprKind::And { left, right } => {
            let parts = sum(
                expr_size(structs, left.get()),
                expr_size(structs, right.get()),
            );
            sum(parts, 4)
        }
        ExprKind::Or { left, right } => {
            let parts = sum(
                expr_size(structs, left.get()),
                expr_size(structs, right.get()),
            );
            sum(parts, 4)
        }
        ExprKind::Conditional { test, yes, no } => {
            let parts = sum(
                expr_size(structs, test.get()),
                expr_size(structs, yes.get()),
            );
            sum(sum(parts, expr_size(structs, no.get())), 2)
        }
        ExprKind::Assign {
            place,
            value,
            marked: true,
        } => {
            let parts = sum(
                place_size(structs, place.get()),
                expr_size(structs, value.get()),
            );
            sum(parts, 1)
        }
        ExprKind::Assign {
            place,
            value,
            marked: false,
        } => {
            let value = expr_size(structs, value.get());
            if is_part(structs, place.get()) {
                sum(value, 1)
            } else {
                value
            }
        }
        ExprKind::Update {
            place,
            value,
            marked: true,
            ..
        } => {
            let parts = sum(
                place_size(structs, place.get()),
                expr_size(structs, value.get()),
            );
            sum(parts, 3)
        }
        ExprKind::Update {
            place,
            value,
            marked: false,
            ..
        } => {
            let value = expr_size(structs, value.get());
            if is_part(structs, place.get()) {
                sum(value, 3)
            } else {
                0
            }
        }
        ExprKind::Call { args, .. } => sum(args_size(structs, args.as_slice()), 2),
    }
}

/// How many steps a place has.
#[cycle(size)]
pub fn place_size(structs: &[Struct], place: &Place) -> u32
    ensures { result ≡ capped (spec.place structs.now place.now).code.size }
{
    match &place.kind {
        PlaceKind::Local(_) => 1,
        PlaceKind::Global(_) => 1,
        PlaceKind::Deref(of) => sum(expr_size(structs, of.get()), 1),
        PlaceKind::Member { of, .. } => sum(place_size(structs, of.get()), 1),
        PlaceKind::Element { of, index } => {
            let parts = sum(
                place_size(structs, of.get()),
                expr_size(structs, index.get()),
            );
            sum(parts, 1)
        }
        PlaceKind::At { left, right } => {
            let parts = sum(
                expr_size(structs, left.get()),
                expr_size(structs, right.get()),
            );
            sum(parts, 1)
        }
    }
}

/// How many steps arguments have.
#[cycle(size)]
#[tactic(auto, using(crate::proofs::CodeSizes::args_turn))]
fn args_size(structs: &[Struct], args: &[Expr]) -> u32
    ensures { result ≡ capped (spec.args_code (map (coded structs.now) args.now)).size }
{
    let mut size = 0;
    for arg in args {
        size = sum(size, expr_size(structs, arg));
    }
    size
}

/// How many steps an expression has, where the number has 32 bits.
pub fn expr_count(structs: &[Struct], expr: &Expr) -> Result<u32, NoMemory>
    ensures { IfOk result (λ count. count ≡ (spec.expr structs.now expr.now).size) }
{
    let size = expr_size(structs, expr);
    if size == u32::MAX {
        return Err(NoMemory);
    }
    Ok(size)
}
