ghost use Rattle.std.specs.Prelude.{◌≡◌, max};
ghost use Rattle.c_tree.specs.Measure as spec;

use crate::expression::{Expr, ExprKind, Typename};
use crate::extent::Extent;

/// The extent of an expression.
#[cycle(expr_extent)]
pub fn expr_extent(expr: &Expr) -> Extent
    ensures nodes { result.nodes ≡ spec.capped (spec.expr_measure spec.sum expr.now) }
    ensures height { result.height ≡ spec.capped (spec.expr_measure max expr.now) }
{
    match &expr.kind {
        ExprKind::Name(_) | ExprKind::Number { .. } | ExprKind::Char(_) => Extent::none().above(),
        ExprKind::Paren(of) => expr_extent(of.get()).above(),
        ExprKind::PostIncrement(of)
        | ExprKind::PostDecrement(of)
        | ExprKind::PreIncrement(of)
        | ExprKind::PreDecrement(of)
        | ExprKind::AddressOf(of)
        | ExprKind::Deref(of)
        | ExprKind::SizeofExpr(of)
        | ExprKind::Member { of, .. }
        | ExprKind::Arrow { of, .. }
        | ExprKind::Unary { of, .. } => expr_extent(of.get()).above(),
        ExprKind::Index {
            of: left,
            at: right,
        }
        | ExprKind::Binary { left, right, .. }
        | ExprKind::And { left, right }
        | ExprKind::Or { left, right }
        | ExprKind::Assign {
            place: left,
            value: right,
            ..
        }
        | ExprKind::Comma { left, right } => {
            expr_extent(left.get())
                .beside(expr_extent(right.get()))
                .above()
        }
        ExprKind::Conditional { test, yes, no } => expr_extent(test.get())
            .beside(expr_extent(yes.get()))
            .beside(expr_extent(no.get()))
            .above(),
        ExprKind::Call { callee, arguments } => expr_extent(callee.get())
            .beside(exprs_extent(arguments.as_slice()))
            .above(),
        ExprKind::SizeofType(of) => typename_extent(of.get()).above(),
        ExprKind::Cast { to, of } => typename_extent(to.get())
            .beside(expr_extent(of.get()))
            .above(),
    }
}

/// The extent of a type name, which is that of the bounds in it.
#[cycle(expr_extent)]
pub fn typename_extent(typename: &Typename) -> Extent
    ensures nodes { result.nodes ≡ spec.capped (spec.typename_measure spec.sum typename.now) }
    ensures height { result.height ≡ spec.capped (spec.typename_measure max typename.now) }
{
    exprs_extent(typename.bounds.as_slice())
}

/// The extent of expressions side by side.
#[cycle(expr_extent)]
pub fn exprs_extent(all: &[Expr]) -> Extent
    ensures nodes { result.nodes ≡ spec.capped (spec.all spec.sum (spec.expr_measure spec.sum) all.now) }
    ensures height { result.height ≡ spec.capped (spec.all max (spec.expr_measure max) all.now) }
{
    let mut sum = Extent::none();
    for expr in all {
        sum = sum.beside(expr_extent(expr));
    }
    sum
}
