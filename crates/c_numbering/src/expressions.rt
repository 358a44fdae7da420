//! The nodes of expressions and places.

ghost use Rattle.std.specs.Prelude.{◌≡◌, ◌+◌, map, IfOk};
ghost use Rattle.c_checking.specs.Numbering as spec;

use base16::NoMemory;
use core_tree::{Expr, ExprKind, Place, PlaceKind, copy_type};
use sqlite_items::{Boxed, Items};
use std::alloc::Global;

/// The next number.
pub fn taken(next: &mut u32) -> Result<u32, NoMemory>
    ensures number { IfOk result (λ number. number ≡ next.old) }
    ensures next { IfOk result (λ number. next.new ≡ next.old + 1) }
{
    let number = *next;
    if number == u32::MAX {
        return Err(NoMemory);
    }
    *next = number + 1;
    Ok(number)
}

/// An expression of another one's type and line.
fn expr_like(alloc: Global, node: u32, of: &Expr, kind: ExprKind) -> Result<Boxed<Expr>, NoMemory>
    ensures { IfOk result (λ made. made ≡ record { kind = kind; ty = of.now.ty; node = node; line = of.now.line }) }
{
    let ty = copy_type(alloc, &of.ty)?;
    Ok(Boxed::new(
        alloc,
        Expr {
            kind,
            ty,
            node,
            line: of.line,
        },
    )?)
}

/// A place of another one's type and line.
fn place_like(
    alloc: Global,
    node: u32,
    of: &Place,
    kind: PlaceKind,
) -> Result<Boxed<Place>, NoMemory>
    ensures { IfOk result (λ made. made ≡ record { kind = kind; ty = of.now.ty; node = node; line = of.now.line }) }
{
    let ty = copy_type(alloc, &of.ty)?;
    Ok(Boxed::new(
        alloc,
        Place {
            kind,
            ty,
            node,
            line: of.line,
        },
    )?)
}

/// An expression with its nodes numbered from the next number on.
#[cycle(expr)]
#[tactic(auto, using(crate::proofs::ListParts::call_made, crate::proofs::ListParts::call_next))]
pub fn expr_numbered(alloc: Global, expr: &Expr, next: &mut u32) -> Result<Boxed<Expr>, NoMemory>
    ensures made { IfOk result (λ made. made ≡ (spec.expr_numbered expr.now next.old).0) }
    ensures next { IfOk result (λ made. next.new ≡ (spec.expr_numbered expr.now next.old).1) }
{
    let node = taken(next)?;
    match &expr.kind {
        ExprKind::Constant(value) => expr_like(alloc, node, expr, ExprKind::Constant(*value)),
        ExprKind::Sense(channel) => expr_like(alloc, node, expr, ExprKind::Sense(*channel)),
        ExprKind::Checkpoint => expr_like(alloc, node, expr, ExprKind::Checkpoint),
        ExprKind::Read(place) => {
            let place = place_numbered(alloc, place.get(), next)?;
            expr_like(alloc, node, expr, ExprKind::Read(place))
        }
        ExprKind::Address(place) => {
            let place = place_numbered(alloc, place.get(), next)?;
            expr_like(alloc, node, expr, ExprKind::Address(place))
        }
        ExprKind::Convert(of) => {
            let of = expr_numbered(alloc, of.get(), next)?;
            expr_like(alloc, node, expr, ExprKind::Convert(of))
        }
        ExprKind::Unary { op, of } => {
            let of = expr_numbered(alloc, of.get(), next)?;
            expr_like(alloc, node, expr, ExprKind::Unary { op: *op, of })
        }
        ExprKind::Emit(of) => {
            let of = expr_numbered(alloc, of.get(), next)?;
            expr_like(alloc, node, expr, ExprKind::Emit(of))
        }
        ExprKind::Binary {
            op,
            at,
            left,
            right,
        } => {
            let left = expr_numbered(alloc, left.get(), next)?;
            let right = expr_numbered(alloc, right.get(), next)?;
            expr_like(
                alloc,
                node,
                expr,
                ExprKind::Binary {
                    op: *op,
                    at: *at,
                    left,
                    right,
                },
            )
        }
        ExprKind::PointerPlus { minus, left, right } => {
            let left = expr_numbered(alloc, left.get(), next)?;
            let right = expr_numbered(alloc, right.get(), next)?;
            expr_like(
                alloc,
                node,
                expr,
                ExprKind::PointerPlus {
                    minus: *minus,
                    left,
                    right,
                },
            )
        }
        ExprKind::Difference { left, right } => {
            let left = expr_numbered(alloc, left.get(), next)?;
            let right = expr_numbered(alloc, right.get(), next)?;
            expr_like(alloc, node, expr, ExprKind::Difference { left, right })
        }
        ExprKind::ComparePointers { op, left, right } => {
            let left = expr_numbered(alloc, left.get(), next)?;
            let right = expr_numbered(alloc, right.get(), next)?;
            expr_like(
                alloc,
                node,
                expr,
                ExprKind::ComparePointers {
                    op: *op,
                    left,
                    right,
                },
            )
        }
        ExprKind::And { left, right } => {
            let left = expr_numbered(alloc, left.get(), next)?;
            let right = expr_numbered(alloc, right.get(), next)?;
            expr_like(alloc, node, expr, ExprKind::And { left, right })
        }
        ExprKind::Or { left, right } => {
            let left = expr_numbered(alloc, left.get(), next)?;
            let right = expr_numbered(alloc, right.get(), next)?;
            expr_like(alloc, node, expr, ExprKind::Or { left, right })
        }
        ExprKind::Comma { left, right } => {
            let left = expr_numbered(alloc, left.get(), next)?;
            let right = expr_numbered(alloc, right.get(), next)?;
            expr_like(alloc, node, expr, ExprKind::Comma { left, right })
        }
        ExprKind::Conditional { test, yes, no } => {
            let test = expr_numbered(alloc, test.get(), next)?;
            let yes = expr_numbered(alloc, yes.get(), next)?;
            let no = expr_numbered(alloc, no.get(), next)?;
            expr_like(alloc, node, expr, ExprKind::Conditional { test, yes, no })
        }
        ExprKind::Assign {
            place,
            value,
            marked,
        } => {
            let place = place_numbered(alloc, place.get(), next)?;
            let value = expr_numbered(alloc, value.get(), next)?;
            let marked = *marked;
            expr_like(
                alloc,
                node,
                expr,
                ExprKind::Assign {
                    place,
                    value,
                    marked,
                },
            )
        }
        ExprKind::Update {
            op,
            at,
            place,
            value,
            old,
            marked,
        } => {
            let place = place_numbered(alloc, place.get(), next)?;
            let value = expr_numbered(alloc, value.get(), next)?;
            let kind = ExprKind::Update {
                op: *op,
                at: *at,
                place,
                value,
                old: *old,
                marked: *marked,
            };
            expr_like(alloc, node, expr, kind)
        }
        ExprKind::Call { function, args } => {
            let args = exprs_numbered(alloc, args.as_slice(), next)?;
            let function = *function;
            expr_like(alloc, node, expr, ExprKind::Call { function, args })
        }
    }
}

/// A place with its nodes numbered from the next number on.
#[cycle(expr)]
pub fn place_numbered(
    alloc: Global,
    place: &Place,
    next: &mut u32,
) -> Result<Boxed<Place>, NoMemory>
    ensures made { IfOk result (λ made. made ≡ (spec.place_numbered place.now next.old).0) }
    ensures next { IfOk result (λ made. next.new ≡ (spec.place_numbered place.now next.old).1) }
{
    let node = taken(next)?;
    match &place.kind {
        PlaceKind::Local(number) => place_like(alloc, node, place, PlaceKind::Local(*number)),
        PlaceKind::Global(number) => place_like(alloc, node, place, PlaceKind::Global(*number)),
        PlaceKind::Deref(of) => {
            let of = expr_numbered(alloc, of.get(), next)?;
            place_like(alloc, node, place, PlaceKind::Deref(of))
        }
        PlaceKind::Member { of, tag, member } => {
            let of = place_numbered(alloc, of.get(), next)?;
            let kind = PlaceKind::Member {
                of,
                tag: *tag,
                member: *member,
            };
            place_like(alloc, node, place, kind)
        }
        PlaceKind::Element { of, index } => {
            let of = place_numbered(alloc, of.get(), next)?;
            let index = expr_numbered(alloc, index.get(), next)?;
            place_like(alloc, node, place, PlaceKind::Element { of, index })
        }
        PlaceKind::At { left, right } => {
            let left = expr_numbered(alloc, left.get(), next)?;
            let right = expr_numbered(alloc, right.get(), next)?;
            place_like(alloc, node, place, PlaceKind::At { left, right })
        }
    }
}

/// Expressions one after another.
#[cycle(expr)]
#[tactic(auto, using(crate::proofs::Turns::exprs_first, crate::proofs::Turns::exprs_behind))]
fn exprs_numbered(alloc: Global, all: &[Expr], next: &mut u32) -> Result<Items<Expr>, NoMemory>
    ensures made { IfOk result (λ made. made ≡ (spec.each (map spec.expr_numbered all.now) next.old).0) }
    ensures next { IfOk result (λ made. next.new ≡ (spec.each (map spec.expr_numbered all.now) next.old).1) }
{
    let mut made = Items::new(alloc);
    for expr in all {
        let expr = expr_numbered(alloc, expr, next)?;
        made.push(expr.into_inner())?;
    }
    Ok(made)
}
