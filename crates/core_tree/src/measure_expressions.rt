ghost use Rattle.std.specs.Prelude.{◌≡◌, ◌+◌, max, map};
ghost use Rattle.core_tree.specs.Costs.{capped_cost, each, expr_rows, place_rows};
ghost use Rattle.core_tree.specs.Heights.{capped, expr_height, place_height, tallest_from};
ghost use Rattle.core_tree.specs.Nodes.{expr_nodes, place_nodes, total};

use crate::expressions::{Expr, ExprKind, Place, PlaceKind};
use crate::measure::Measure;
use crate::rows::{
    CONSTANT_ROW, POINTER_ROW, binary_row, row_with, store_row, unary_row, update_row,
};

/// The measure of an expression.
#[cycle(expr_measure)]
pub fn expr_measure(expr: &Expr) -> Measure
    ensures height { result.height ≡ capped (expr_height expr.now) }
    ensures cost { result.cost ≡ capped_cost (expr_rows each expr.now) }
    ensures nodes { result.nodes ≡ capped_cost (expr_nodes expr.now) }
{
    match &expr.kind {
        ExprKind::Constant(_) => Measure::leaf(CONSTANT_ROW),
        ExprKind::Read(place) | ExprKind::Address(place) => place_measure(place.get()).under(12),
        ExprKind::Convert(of) => expr_measure(of.get()).under(12),
        ExprKind::Unary { op, of } => expr_measure(of.get()).under(unary_row(*op)),
        ExprKind::Binary {
            op,
            left,
            right,
            ..
        } => held(expr_measure(left.get()), expr_measure(right.get()), 1).under(binary_row(*op)),
        ExprKind::PointerPlus { left, right, .. } | ExprKind::Difference { left, right } => {
            held(expr_measure(left.get()), expr_measure(right.get()), 1).under(POINTER_ROW)
        }
        ExprKind::ComparePointers { left, right, .. } => {
            held(expr_measure(left.get()), expr_measure(right.get()), 1).under(32)
        }
        ExprKind::And { left, right } | ExprKind::Or { left, right } => {
            expr_measure(left.get())
                .beside(expr_measure(right.get()))
                .under(40)
        }
        ExprKind::Conditional { test, yes, no } => expr_measure(test.get())
            .beside(expr_measure(yes.get()).beside(expr_measure(no.get())))
            .under(40),
        ExprKind::Assign {
            place,
            value,
            marked,
        } => held(place_measure(place.get()), expr_measure(value.get()), 1).under(store_row(
            *marked,
        )),
        ExprKind::Update {
            op,
            at,
            place,
            value,
            marked,
            ..
        } => held(place_measure(place.get()), expr_measure(value.get()), 2).under(update_row(
            *op, *at, *marked,
        )),
        ExprKind::Call { args, .. } => {
            args_measure(args.as_slice()).under(row_with(24, 12, args.len()))
        }
        ExprKind::Sense(_) => Measure::leaf(20),
        ExprKind::Emit(of) => expr_measure(of.get()).under(16),
        ExprKind::Checkpoint => Measure::leaf(8),
        ExprKind::Comma { left, right } => {
            held(expr_measure(left.get()), expr_measure(right.get()), 1).under(0)
        }
    }
}

/// The measure of a place.
#[cycle(expr_measure)]
pub fn place_measure(place: &Place) -> Measure
    ensures height { result.height ≡ capped (place_height place.now) }
    ensures cost { result.cost ≡ capped_cost (place_rows each place.now) }
    ensures nodes { result.nodes ≡ capped_cost (place_nodes place.now) }
{
    match &place.kind {
        PlaceKind::Local(_) | PlaceKind::Global(_) => Measure::leaf(12),
        PlaceKind::Deref(of) => expr_measure(of.get()).under(16),
        PlaceKind::Member { of, .. } => place_measure(of.get()).under(16),
        PlaceKind::Element { of, index } => {
            held(place_measure(of.get()), expr_measure(index.get()), 1).under(POINTER_ROW)
        }
        PlaceKind::At { left, right } => {
            held(expr_measure(left.get()), expr_measure(right.get()), 1).under(POINTER_ROW)
        }
    }
}

/// The measure of the arguments of a call, each of which is evaluated while those before it are held.
#[cycle(expr_measure)]
fn args_measure(args: &[Expr]) -> Measure
    ensures height { result.height ≡ capped (tallest_from 0 (map expr_height args.now)) }
    ensures cost { result.cost ≡ capped_cost (total (map (expr_rows each) args.now)) }
    ensures nodes { result.nodes ≡ capped_cost (total (map expr_nodes args.now)) }
{
    let mut sum = Measure::none().above(1);
    let mut before: u32 = 0;
    for arg in args {
        sum = sum.beside(expr_measure(arg).above(before));
        before = before.saturating_add(1);
    }
    sum
}

/// The measure of two things side by side of which the second is evaluated while so many values are held.
pub fn held(left: Measure, right: Measure, count: u32) -> Measure
    ensures height { result.height ≡ capped (max left.height (count + right.height)) }
    ensures cost { result.cost ≡ capped_cost (left.cost + right.cost) }
    ensures nodes { result.nodes ≡ capped_cost (left.nodes + right.nodes) }
{
    left.beside(right.above(count))
}
