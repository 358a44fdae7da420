//! The first call in an expression of a function that is defined nowhere.

ghost use Rattle.std.specs.Prelude.{◌≡◌};
ghost use Rattle.std.specs.Option.{option_copied};
ghost use Rattle.c_checking.specs.Calls as spec;

use crate::names::{is_builtin, is_one_of};
use crate::search::or_later;
use base16::Name;
use c_tree::{Expr, ExprKind};

/// The line of a call of a name, where neither these functions nor those that every source has have the name.
fn called_at(names: &[Name], line: u32, name: Option<&Name>) -> Option<u32>
    ensures { result ≡ spec.called_at names.now line (option_copied name.entry) }
{
    match name {
        None => None,
        Some(name) => {
            if is_one_of(names, name) || is_builtin(name) {
                None
            } else {
                Some(line)
            }
        }
    }
}

/// The name that an expression is, in parentheses or not.
#[cycle(name)]
fn name_of<'a>(_names: &[Name], expr: &'a Expr) -> Option<&'a Name>
    ensures { option_copied result ≡ (spec.seen _names.now expr.now).name }
{
    match &expr.kind {
        ExprKind::Name(name) => Some(name),
        ExprKind::Paren(of) => name_of(_names, of.get()),
        _ => None,
    }
}

/// The line of the first call in an expression, in the order of the text, of a function that has none of these names and
/// that not every source has.
#[cycle(expr)]
#[tactic(auto, using(crate::proofs::ListParts::call_is, crate::proofs::ListParts::sizeof_is, crate::proofs::ListParts::cast_is))]
pub fn in_expr(names: &[Name], expr: &Expr) -> Option<u32>
    ensures { result ≡ spec.in_expr names.now expr.now }
{
    match &expr.kind {
        ExprKind::Name(_) | ExprKind::Number { .. } | ExprKind::Char(_) => None,
        ExprKind::Paren(of)
        | ExprKind::PostIncrement(of)
        | ExprKind::PostDecrement(of)
        | ExprKind::PreIncrement(of)
        | ExprKind::PreDecrement(of)
        | ExprKind::AddressOf(of)
        | ExprKind::Deref(of)
        | ExprKind::SizeofExpr(of)
        | ExprKind::Member { of, .. }
        | ExprKind::Arrow { of, .. }
        | ExprKind::Unary { of, .. } => in_expr(names, of.get()),
        ExprKind::Index {
            of: left,
            at: right,
        }
        | ExprKind::Binary { left, right, .. }
        | ExprKind::And { left, right }
        | ExprKind::Or { left, right }
        | ExprKind::Assign {
            place: left,
            value: right,
            ..
        }
        | ExprKind::Comma { left, right } => {
            or_later(in_expr(names, left.get()), in_expr(names, right.get()))
        }
        ExprKind::Conditional { test, yes, no } => {
            let branches = or_later(in_expr(names, yes.get()), in_expr(names, no.get()));
            or_later(in_expr(names, test.get()), branches)
        }
        ExprKind::Call { callee, arguments } => {
            let parts = or_later(
                in_expr(names, callee.get()),
                in_exprs(names, arguments.as_slice()),
            );
            let own = called_at(names, expr.line, name_of(names, callee.get()));
            or_later(own, parts)
        }
        ExprKind::SizeofType(of) => in_exprs(names, of.get().bounds.as_slice()),
        ExprKind::Cast { to, of } => or_later(
            in_exprs(names, to.get().bounds.as_slice()),
            in_expr(names, of.get()),
        ),
    }
}

/// That in expressions one after another.
#[cycle(expr)]
#[tactic(auto, using(crate::proofs::Finding::exprs_turn))]
pub fn in_exprs(names: &[Name], all: &[Expr]) -> Option<u32>
    ensures { result ≡ spec.in_exprs names.now all.now }
{
    for expr in all {
        if let Some(line) = in_expr(names, expr) {
            return Some(line);
        }
    }
    None
}

/// That in an expression that may be left out.
pub fn in_optional(names: &[Name], expr: &Option<Expr>) -> Option<u32>
    ensures { result ≡ spec.if_there (spec.in_expr names.now) expr.now }
{
    match expr {
        None => None,
        Some(expr) => in_expr(names, expr),
    }
}
