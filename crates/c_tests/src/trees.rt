use base16::{BinaryOp, IntType, Name, NoMemory, UnaryOp};
use core_tree::{
    Core, Expr, ExprKind, Function, Member, Place, PlaceKind, Stmt, StmtKind, Struct, Ty,
};
use sqlite_items::{Boxed, Items};
use std::alloc::Global;

/// What a test found wrong.
#[derive(Debug, Drop)]
pub enum Wrong {
    Value(&'static str),
    NoMemory,
}

impl From<NoMemory> for Wrong {
    fn from(_error: NoMemory) -> Wrong {
        Wrong::NoMemory
    }
}

pub fn right(what: &'static str, holds: bool) -> Result<(), Wrong> {
    if holds {
        Ok(())
    } else {
        Err(Wrong::Value(what))
    }
}

// Parts of typed trees. Their nodes have no numbers, and their types are `int` where the type does not matter.

pub const INT: Ty = Ty::Num(IntType::Int);

pub const CHAR: Ty = Ty::Num(IntType::Char);

pub fn pointer_to(alloc: Global, to: Ty) -> Result<Ty, NoMemory> {
    Ok(Ty::Pointer {
        to: Boxed::new(alloc, to)?,
        readonly: false,
    })
}

pub fn array_of(alloc: Global, of: Ty, count: u16) -> Result<Ty, NoMemory> {
    Ok(Ty::Array {
        of: Boxed::new(alloc, of)?,
        count,
    })
}

/// The members and another one.
pub fn with_member(
    alloc: Global,
    mut members: Items<Member>,
    name: &[u8],
    ty: Ty,
) -> Result<Items<Member>, NoMemory> {
    let name = Name::new(alloc, name)?;
    members.push(Member { name, ty })?;
    Ok(members)
}

pub fn expr(alloc: Global, kind: ExprKind) -> Result<Boxed<Expr>, NoMemory> {
    Ok(Boxed::new(
        alloc,
        Expr {
            kind,
            ty: INT,
            node: 0,
            line: 1,
        },
    )?)
}

pub fn place(alloc: Global, kind: PlaceKind) -> Result<Boxed<Place>, NoMemory> {
    Ok(Boxed::new(
        alloc,
        Place {
            kind,
            ty: INT,
            node: 0,
            line: 1,
        },
    )?)
}

/// `5`
pub fn five(alloc: Global) -> Result<Boxed<Expr>, NoMemory> {
    expr(alloc, ExprKind::Constant(5))
}

/// The first local.
pub fn local(alloc: Global) -> Result<Boxed<Place>, NoMemory> {
    place(alloc, PlaceKind::Local(0))
}

/// The value of the first local.
pub fn read(alloc: Global) -> Result<Boxed<Expr>, NoMemory> {
    let of = local(alloc)?;
    expr(alloc, ExprKind::Read(of))
}

pub fn binary(
    alloc: Global,
    op: BinaryOp,
    left: Boxed<Expr>,
    right: Boxed<Expr>,
) -> Result<Boxed<Expr>, NoMemory> {
    expr(
        alloc,
        ExprKind::Binary {
            op,
            at: IntType::Int,
            left,
            right,
        },
    )
}

/// The first local and 5.
pub fn sum(alloc: Global) -> Result<Boxed<Expr>, NoMemory> {
    let left = read(alloc)?;
    let right = five(alloc)?;
    binary(alloc, BinaryOp::Add, left, right)
}

pub fn unary(alloc: Global, op: UnaryOp, of: Boxed<Expr>) -> Result<Boxed<Expr>, NoMemory> {
    expr(alloc, ExprKind::Unary { op, of })
}

pub fn assign(
    alloc: Global,
    place: Boxed<Place>,
    value: Boxed<Expr>,
    marked: bool,
) -> Result<Boxed<Expr>, NoMemory> {
    expr(
        alloc,
        ExprKind::Assign {
            place,
            value,
            marked,
        },
    )
}

/// A program of one function with these objects and one expression as its body.
pub fn program(
    alloc: Global,
    params: Items<Ty>,
    locals: Items<Ty>,
    body: Boxed<Expr>,
) -> Result<Core, NoMemory> {
    let name = Name::new(alloc, b"f")?;
    let mut statements = Items::new(alloc);
    statements.push(Stmt {
        kind: StmtKind::Expr(body.into_inner()),
        node: 0,
        line: 1,
    })?;
    let mut functions = Items::new(alloc);
    functions.push(Function {
        name,
        params,
        locals,
        result: INT,
        body: statements,
        node: 0,
        line: 1,
    })?;
    Ok(Core {
        structs: Items::new(alloc),
        globals: Items::new(alloc),
        functions,
    })
}

/// A struct with these members.
pub fn structure(alloc: Global, name: &[u8], members: Items<Member>) -> Result<Struct, NoMemory> {
    Ok(Struct {
        name: Name::new(alloc, name)?,
        members,
    })
}
