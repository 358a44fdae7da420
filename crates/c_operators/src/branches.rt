//! `?:`.

ghost use Rattle.std.specs.Prelude.{◌≡◌, IfOk};
ghost use Rattle.core_tree.specs.declared.types.Ty.{out-Ty};
ghost use Rattle.core_tree.specs.declared.types.Ty.TheVariants as ty_is;
ghost use Rattle.core_tree.specs.declared.expressions.ExprKind.TheVariants as k;
ghost use Rattle.core_tree.specs.Layout.{target_of as target};
ghost use Rattle.core_tree.specs.Rules.{balanced as balanced_type};
ghost use Rattle.c_typing.specs.Values as values;
ghost use Rattle.c_typing.specs.Outcome.{Answers, at};
ghost use Rattle.c_typing.specs.Operators as spec;

use base16::{IntType, NoMemory};
use c_conversions::{broken, converted, null, to_int, typed};
use c_rules::{balanced, is_scalar};
use c_typing::{Rule, Stop};
use core_tree::{Expr, ExprKind, Ty, copy_type, target_of};
use sqlite_items::Boxed;
use std::alloc::Global;

/// A choice between two branches of a type, if both are there.
fn chosen(
    alloc: Global,
    line: u32,
    ty: Ty,
    test: Boxed<Expr>,
    yes: Option<Boxed<Expr>>,
    no: Option<Boxed<Expr>>,
) -> Result<Boxed<Expr>, Stop>
    ensures { Answers (at line (spec.chosen line ty test yes no)) result }
{
    let (Some(yes), Some(no)) = (yes, no) else {
        return Err(broken(Rule::WrongType, line));
    };
    Ok(typed(alloc, line, ty, ExprKind::Conditional { test, yes, no })?)
}

/// Branches of integer types: both become of the balanced type.
fn integer_branches(
    alloc: Global,
    line: u32,
    test: Boxed<Expr>,
    x: IntType,
    yes: Boxed<Expr>,
    y: IntType,
    no: Boxed<Expr>,
) -> Result<Boxed<Expr>, NoMemory>
    ensures { IfOk result (λ made. made ≡ values.typed line (ty_is.Num (balanced_type x y)) (k.Conditional test
        (values.to_int x (balanced_type x y) yes) (values.to_int y (balanced_type x y) no))) }
{
    let at = balanced(x, y);
    let yes = to_int(alloc, x, at, yes)?;
    let no = to_int(alloc, y, at, no)?;
    typed(
        alloc,
        line,
        Ty::Num(at),
        ExprKind::Conditional { test, yes, no },
    )
}

/// Branches that are pointers: both become pointers to what the first points to, to const if one of them is.
fn pointer_branches(
    alloc: Global,
    line: u32,
    readonly: bool,
    test: Boxed<Expr>,
    yes: Boxed<Expr>,
    no: Boxed<Expr>,
) -> Result<Boxed<Expr>, Stop>
    ensures { Answers (at line (spec.chosen line (ty_is.Pointer (target yes.ty) readonly) test
        (values.converted (ty_is.Pointer (target yes.ty) readonly) yes)
        (values.converted (ty_is.Pointer (target yes.ty) readonly) no))) result }
{
    let to = copy_type(alloc, target_of(&yes.get().ty))?;
    let to = Boxed::new(alloc, to)?;
    let ty = Ty::Pointer { to, readonly };
    let yes = converted(alloc, &ty, yes)?;
    let no = converted(alloc, &ty, no)?;
    chosen(alloc, line, ty, test, yes, no)
}

/// A choice between two values, by their types.
#[tactic(auto, unfolding(core_tree::specs::Layout::target_of))]
fn branched(
    alloc: Global,
    line: u32,
    test: Boxed<Expr>,
    yes: Boxed<Expr>,
    no: Boxed<Expr>,
) -> Result<Boxed<Expr>, Stop>
    ensures { Answers (at line (spec.branched line test (out-Ty yes.ty) yes (out-Ty no.ty) no)) result }
{
    match (&yes.get().ty, &no.get().ty) {
        (Ty::Num(x), Ty::Num(y)) => {
            let x = *x;
            let y = *y;
            Ok(integer_branches(alloc, line, test, x, yes, y, no)?)
        }
        (
            Ty::Pointer { readonly, .. },
            Ty::Pointer {
                readonly: other,
                ..
            },
        ) => {
            let readonly = *readonly || *other;
            pointer_branches(alloc, line, readonly, test, yes, no)
        }
        (Ty::Pointer { .. }, Ty::Num(_)) => {
            let no = null(alloc, &yes.get().ty, no.get())?;
            let ty = copy_type(alloc, &yes.get().ty)?;
            chosen(alloc, line, ty, test, Some(yes), no)
        }
        (Ty::Num(_), Ty::Pointer { .. }) => {
            let yes = null(alloc, &no.get().ty, yes.get())?;
            let ty = copy_type(alloc, &no.get().ty)?;
            chosen(alloc, line, ty, test, yes, Some(no))
        }
        _ => Err(broken(Rule::WrongType, line)),
    }
}

/// `?:` of three values (C99 6.5.15): E3 where one is missing, the test is no integer or pointer, or the branches are
/// neither both integers, nor pointers to one type, nor a pointer and a constant 0.
#[tactic(auto, unfolding(c_typing::specs::Operators::conditional))]
pub fn conditional(
    alloc: Global,
    line: u32,
    test: Option<Boxed<Expr>>,
    yes: Option<Boxed<Expr>>,
    no: Option<Boxed<Expr>>,
) -> Result<Boxed<Expr>, Stop>
    ensures { Answers (at line (spec.conditional line test yes no)) result }
{
    let (Some(test), Some(yes), Some(no)) = (test, yes, no) else {
        return Err(broken(Rule::WrongType, line));
    };
    if !is_scalar(&test.get().ty) {
        return Err(broken(Rule::WrongType, line));
    }
    branched(alloc, line, test, yes, no)
}
