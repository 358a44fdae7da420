//! Which expressions are constant, and their values; the tables of types.

use base16::{BinaryOp, IntType, UnaryOp};
use c_rules::{
    balanced, branches, casts, computed_in, constant, converts, is_integer, is_scalar, is_value,
    promoted, result_in, right_in, takes, takes_one, takes_with_zero, takes_zero, value,
};
use core_tree::{Expr, ExprKind, Place, PlaceKind, Ty};
use sqlite_items::Boxed;
use std::alloc::{AllocError, Global};
use std::process::Abort;
use std::test::Fail;

/// An expression in postfix form: what comes first, and what is made of the one, two or three expressions before.
#[derive(Clone, Copy, Debug)]
enum Step {
    /// A constant of type `int`.
    Int(i64),
    /// A constant of type `unsigned int`.
    UInt(i64),
    /// The null pointer.
    Null,
    /// The value of a variable.
    Global,
    Cast(IntType),
    Unary(UnaryOp),
    /// In type `int`.
    Binary(BinaryOp),
    And,
    Or,
    /// `?:`
    Choose,
    Comma,
}

fn typed(alloc: Global, at: IntType, kind: ExprKind) -> Result<Boxed<Expr>, AllocError> {
    Boxed::new(
        alloc,
        Expr {
            kind,
            ty: Ty::Num(at),
            node: 0,
            line: 1,
        },
    )
}

fn null(alloc: Global) -> Result<Boxed<Expr>, AllocError> {
    let to = Boxed::new(alloc, Ty::Num(IntType::Int))?;
    Boxed::new(
        alloc,
        Expr {
            kind: ExprKind::Constant(0),
            ty: Ty::Pointer {
                to,
                readonly: false,
            },
            node: 0,
            line: 1,
        },
    )
}

fn global(alloc: Global) -> Result<Boxed<Expr>, AllocError> {
    let place = Boxed::new(
        alloc,
        Place {
            kind: PlaceKind::Global(0),
            ty: Ty::Num(IntType::Int),
            node: 0,
            line: 1,
        },
    )?;
    typed(alloc, IntType::Int, ExprKind::Read(place))
}

/// The last expression that was made, and 0 where there is none.
fn last(alloc: Global, made: &mut Vec<Boxed<Expr>>) -> Result<Boxed<Expr>, AllocError> {
    match made.pop() {
        Some(expr) => Ok(expr),
        None => typed(alloc, IntType::Int, ExprKind::Constant(0)),
    }
}

fn of_one(alloc: Global, step: Step, of: Boxed<Expr>) -> Result<Boxed<Expr>, AllocError> {
    match step {
        Step::Cast(to) => typed(alloc, to, ExprKind::Convert(of)),
        Step::Unary(op) => typed(alloc, IntType::Int, ExprKind::Unary { op, of }),
        _ => Ok(of),
    }
}

fn of_two(
    alloc: Global,
    step: Step,
    left: Boxed<Expr>,
    right: Boxed<Expr>,
) -> Result<Boxed<Expr>, AllocError> {
    let at = IntType::Int;
    match step {
        Step::Binary(op) => typed(
            alloc,
            at,
            ExprKind::Binary {
                op,
                at,
                left,
                right,
            },
        ),
        Step::And => typed(alloc, at, ExprKind::And { left, right }),
        Step::Or => typed(alloc, at, ExprKind::Or { left, right }),
        _ => typed(alloc, at, ExprKind::Comma { left, right }),
    }
}

fn next(alloc: Global, step: Step, made: &mut Vec<Boxed<Expr>>) -> Result<Boxed<Expr>, AllocError> {
    match step {
        Step::Int(value) => typed(alloc, IntType::Int, ExprKind::Constant(value)),
        Step::UInt(value) => typed(alloc, IntType::UInt, ExprKind::Constant(value)),
        Step::Null => null(alloc),
        Step::Global => global(alloc),
        Step::Cast(_) | Step::Unary(_) => {
            let of = last(alloc, made)?;
            of_one(alloc, step, of)
        }
        Step::Binary(_) | Step::And | Step::Or | Step::Comma => {
            let right = last(alloc, made)?;
            let left = last(alloc, made)?;
            of_two(alloc, step, left, right)
        }
        Step::Choose => {
            let no = last(alloc, made)?;
            let yes = last(alloc, made)?;
            let test = last(alloc, made)?;
            typed(alloc, IntType::Int, ExprKind::Conditional { test, yes, no })
        }
    }
}

/// The expression of some steps.
fn built(alloc: Global, steps: &[Step]) -> Result<Boxed<Expr>, AllocError> {
    let mut made = Vec::new(alloc);
    for step in steps {
        let expr = next(alloc, *step, &mut made)?;
        made.push(expr)?;
    }
    last(alloc, &mut made)
}

const DIVIDE: Step = Step::Binary(BinaryOp::Div);

fn check(
    rt: &impl Abort,
    alloc: Global,
    steps: &[Step],
    wanted: Option<i64>,
) -> Result<(), AllocError> {
    let expr = built(alloc, steps)?;
    assert_eq!(rt; value(expr.get()), wanted, "{steps:?}");
    Ok(())
}

#[test]
fn operators_and_casts_of_constants_are_constant(rt: HostRuntime) -> Result<(), Fail> {
    use Step::{Binary, Cast, Global, Int, Null, UInt, Unary};
    let alloc = rt.alloc();
    check(&rt, alloc, &[Int(-32768)], Some(-32768))?;
    check(&rt, alloc, &[UInt(65535)], Some(65535))?;
    check(&rt, alloc, &[Null], None)?;
    check(&rt, alloc, &[Global], None)?;
    check(&rt, alloc, &[Int(300), Cast(IntType::Char)], Some(44))?;
    check(&rt, alloc, &[UInt(40000), Cast(IntType::Int)], Some(-25536))?;
    check(&rt, alloc, &[Int(-1), Cast(IntType::UInt)], Some(65535))?;
    check(&rt, alloc, &[Global, Cast(IntType::Int)], None)?;
    check(&rt, alloc, &[Int(-32768), Unary(UnaryOp::Minus)], None)?;
    check(&rt, alloc, &[UInt(65535), Unary(UnaryOp::Not)], Some(0))?;
    check(
        &rt,
        alloc,
        &[Int(32767), Int(1), Binary(BinaryOp::Add)],
        None,
    )?;
    check(&rt, alloc, &[Int(-32768), Int(-1), DIVIDE], None)?;
    check(
        &rt,
        alloc,
        &[Int(1), UInt(65535), Binary(BinaryOp::Shl)],
        None,
    )?;
    check(
        &rt,
        alloc,
        &[Int(-7), Int(1), Binary(BinaryOp::Shr)],
        Some(-4),
    )?;
    check(&rt, alloc, &[Int(1), Int(0), DIVIDE], None)?;
    Ok(())
}

#[test]
fn what_is_not_evaluated_may_break_a_rule(rt: HostRuntime) -> Result<(), Fail> {
    use Step::{And, Choose, Comma, Global, Int, Or};
    let alloc = rt.alloc();
    check(
        &rt,
        alloc,
        &[Int(1), Int(2), Int(1), Int(0), DIVIDE, Choose],
        Some(2),
    )?;
    check(
        &rt,
        alloc,
        &[Int(0), Int(1), Int(0), DIVIDE, Int(3), Choose],
        Some(3),
    )?;
    check(
        &rt,
        alloc,
        &[Int(0), Int(2), Int(1), Int(0), DIVIDE, Choose],
        None,
    )?;
    check(
        &rt,
        alloc,
        &[Int(1), Int(0), DIVIDE, Int(2), Int(3), Choose],
        None,
    )?;
    check(&rt, alloc, &[Int(1), Int(2), Global, Choose], None)?;
    check(&rt, alloc, &[Int(0), Int(1), Int(0), DIVIDE, And], Some(0))?;
    check(&rt, alloc, &[Int(1), Int(1), Int(0), DIVIDE, And], None)?;
    check(&rt, alloc, &[Int(2), Int(-3), And], Some(1))?;
    check(&rt, alloc, &[Int(0), Global, And], None)?;
    check(&rt, alloc, &[Int(5), Int(1), Int(0), DIVIDE, Or], Some(1))?;
    check(&rt, alloc, &[Int(0), Int(1), Int(0), DIVIDE, Or], None)?;
    check(&rt, alloc, &[Int(0), Int(0), Or], Some(0))?;
    check(&rt, alloc, &[Int(1), Global, Or], None)?;
    check(&rt, alloc, &[Int(1), Int(2), Comma], None)?;
    Ok(())
}

#[test]
fn the_word_of_a_constant(rt: HostRuntime) -> Result<(), Fail> {
    let minus_one = built(rt.alloc(), &[Step::Int(-1)])?;
    assert_eq!(rt; constant(minus_one.get()), Some(65535));
    Ok(())
}

fn pointer(alloc: Global, to: IntType, readonly: bool) -> Result<Ty, AllocError> {
    let to = Boxed::new(alloc, Ty::Num(to))?;
    Ok(Ty::Pointer { to, readonly })
}

#[test]
fn integers_promote_and_balance(rt: HostRuntime) {
    for (one, other, both) in [
        (IntType::Char, IntType::Char, IntType::Int),
        (IntType::Char, IntType::UInt, IntType::UInt),
        (IntType::Int, IntType::UInt, IntType::UInt),
        (IntType::UInt, IntType::Int, IntType::UInt),
        (IntType::Int, IntType::Char, IntType::Int),
    ] {
        assert_eq!(rt; balanced(one, other), both, "{one:?} {other:?}");
        assert_eq!(rt; computed_in(BinaryOp::Add, one, other), both);
        assert_eq!(rt; computed_in(BinaryOp::Shl, one, other), promoted(one));
        assert_eq!(rt; right_in(BinaryOp::Shl, one, other), promoted(other));
        assert_eq!(rt; result_in(BinaryOp::Less, both), IntType::Int);
        assert_eq!(rt; result_in(BinaryOp::Mul, both), both);
    }
    for (of, number, wanted) in [
        (IntType::Char, 255, true),
        (IntType::Char, 256, false),
        (IntType::Int, -32768, true),
        (IntType::Int, 32768, false),
        (IntType::UInt, -1, false),
        (IntType::UInt, 65535, true),
    ] {
        assert_eq!(rt; is_value(of, number), wanted, "{of:?} {number}");
    }
}

#[test]
fn operands_and_conversions_follow_the_tables(rt: HostRuntime) -> Result<(), Fail> {
    let alloc = rt.alloc();
    let int = Ty::Num(IntType::Int);
    let plain = pointer(alloc, IntType::Int, false)?;
    let fixed = pointer(alloc, IntType::Int, true)?;
    let bytes = pointer(alloc, IntType::Char, false)?;
    assert!(rt; converts(&int, &Ty::Num(IntType::Char)));
    assert!(rt; converts(&plain, &fixed) && !converts(&fixed, &plain));
    assert!(rt; !converts(&plain, &bytes) && !converts(&int, &plain) && !converts(&Ty::Void, &int));
    assert!(rt; takes(BinaryOp::Add, &plain, &int) && takes(BinaryOp::Add, &int, &plain));
    assert!(rt; !takes(BinaryOp::Sub, &int, &plain) && takes(BinaryOp::Sub, &plain, &fixed));
    assert!(rt; !takes(BinaryOp::Add, &plain, &plain) && !takes(BinaryOp::Less, &plain, &bytes));
    assert!(rt; !takes(BinaryOp::Equal, &plain, &int) && !takes(BinaryOp::Mul, &plain, &int));
    assert!(rt; takes(BinaryOp::Rem, &int, &int) && !takes(BinaryOp::Or, &Ty::Struct(0), &int));
    assert!(rt;
        takes_with_zero(BinaryOp::Equal, &plain) && !takes_with_zero(BinaryOp::Less, &plain)
    );
    assert!(rt; takes_zero(&plain) && !takes_zero(&int));
    assert!(rt; takes_one(UnaryOp::Not, &plain) && !takes_one(UnaryOp::Minus, &plain));
    assert!(rt; casts(&int, &int) && !casts(&int, &plain));
    assert!(rt; branches(&plain, &fixed) && !branches(&plain, &int));
    assert!(rt; is_scalar(&plain) && !is_integer(&plain) && !is_scalar(&Ty::Void));
    Ok(())
}
