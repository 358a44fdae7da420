use crate::trees::{
    CHAR, INT, Wrong, array_of, assign, binary, expr, five, local, place, pointer_to, program,
    read, right, structure, sum, unary, with_member,
};
use base16::{BinaryOp, IntType, NoMemory, UnaryOp};
use core_tree::{
    Expr, ExprKind, Member, PlaceKind, Struct, Ty, code_cost, copy_type, frame_bytes, height_of,
    nodes, offset_of, same_type, size_of,
};
use sqlite_items::{Boxed, Items};
use std::alloc::Global;
use std::test::Fail;

/// `struct a {char c; int i;}`
fn odd_and_even(alloc: Global) -> Result<Struct, NoMemory> {
    let members = with_member(alloc, Items::new(alloc), b"c", CHAR)?;
    let members = with_member(alloc, members, b"i", INT)?;
    structure(alloc, b"a", members)
}

/// `struct b {char x, y, z;}`
fn three_chars(alloc: Global) -> Result<Struct, NoMemory> {
    let members = with_member(alloc, Items::new(alloc), b"x", CHAR)?;
    let members = with_member(alloc, members, b"y", CHAR)?;
    let members = with_member(alloc, members, b"z", CHAR)?;
    structure(alloc, b"b", members)
}

/// `struct c {char c; struct b m; int i; char d;}`
fn nested(alloc: Global) -> Result<Struct, NoMemory> {
    let members = with_member(alloc, Items::new(alloc), b"c", CHAR)?;
    let members = with_member(alloc, members, b"m", Ty::Struct(1))?;
    let members = with_member(alloc, members, b"i", INT)?;
    let members = with_member(alloc, members, b"d", CHAR)?;
    structure(alloc, b"c", members)
}

/// `struct d {struct c *next; struct b row[3];}`
fn linked(alloc: Global) -> Result<Struct, NoMemory> {
    let next = pointer_to(alloc, Ty::Struct(2))?;
    let members = with_member(alloc, Items::new(alloc), b"next", next)?;
    let members = with_row(alloc, members)?;
    structure(alloc, b"d", members)
}

fn with_row(alloc: Global, members: Items<Member>) -> Result<Items<Member>, NoMemory> {
    let row = array_of(alloc, Ty::Struct(1), 3)?;
    with_member(alloc, members, b"row", row)
}

fn with_struct(mut all: Items<Struct>, of: Struct) -> Result<Items<Struct>, NoMemory> {
    all.push(of)?;
    Ok(all)
}

/// The four structs above.
fn structs(alloc: Global) -> Result<Items<Struct>, NoMemory> {
    let all = with_struct(Items::new(alloc), odd_and_even(alloc)?)?;
    let all = with_struct(all, three_chars(alloc)?)?;
    let all = with_struct(all, nested(alloc)?)?;
    with_struct(all, linked(alloc)?)
}

/// Whether a struct has this size.
fn measures_struct(structs: &[Struct], tag: u16, size: u32) -> Result<(), Wrong> {
    right(
        "the size of a struct",
        size_of(structs, &Ty::Struct(tag)) == size,
    )
}

/// Whether a member of a struct stands at this offset.
fn stands(structs: &[Struct], tag: u16, member: u32, offset: u32) -> Result<(), Wrong> {
    let found = usize::from(tag) < structs.len() && offset_of(structs, tag, member) == offset;
    right("the offset of a member", found)
}

#[test]
fn structs_have_their_members_at_their_alignments(rt: HostRuntime) -> Result<(), Fail> {
    let all = structs(rt.alloc())?;
    let all = all.as_slice();
    for (tag, size) in [(0, 4), (1, 3), (2, 8), (3, 12)] {
        measures_struct(all, tag, size)?;
    }
    for (tag, member, offset) in [
        (0, 0, 0),
        (0, 1, 2),
        (1, 2, 2),
        (2, 0, 0),
        (2, 1, 1),
        (2, 2, 4),
        (2, 3, 6),
        (3, 0, 0),
        (3, 1, 2),
    ] {
        stands(all, tag, member, offset)?;
    }
    Ok(())
}

/// Whether an array of structs has this size.
fn measures_array(
    alloc: Global,
    structs: &[Struct],
    of: u16,
    count: u16,
    size: u32,
) -> Result<(), Wrong> {
    let ty = array_of(alloc, Ty::Struct(of), count)?;
    right("the size of an array", size_of(structs, &ty) == size)
}

#[test]
fn arrays_are_as_long_as_their_elements_together(rt: HostRuntime) -> Result<(), Fail> {
    let alloc = rt.alloc();
    let all = structs(alloc)?;
    for (of, count, size) in [
        (0, 3, 12),
        (1, 5, 15),
        (2, 8191, 65_528),
        (2, 8192, 65_536),
        (2, 32_767, 65_536),
    ] {
        measures_array(alloc, all.as_slice(), of, count, size)?;
    }
    Ok(())
}

#[test]
fn scalars_and_rows_have_their_bytes(rt: HostRuntime) -> Result<(), Fail> {
    let alloc = rt.alloc();
    let row = array_of(alloc, CHAR, 5)?;
    let rows = array_of(alloc, row, 3)?;
    right("char [3][5]", size_of(&[], &rows) == 15)?;
    let pointer = pointer_to(alloc, rows)?;
    right("char (*)[3][5]", size_of(&[], &pointer) == 2)?;
    right("int", size_of(&[], &INT) == 2)?;
    right("char", size_of(&[], &CHAR) == 1)?;
    Ok(())
}

#[test]
fn types_may_be_two_hundred_thousand_levels_deep(rt: HostRuntime) -> Result<(), Fail> {
    let alloc = rt.alloc();
    let mut pointer = CHAR;
    let mut array = CHAR;
    for _ in 0..200_000 {
        pointer = pointer_to(alloc, pointer)?;
        array = array_of(alloc, array, 1)?;
    }
    let copy = copy_type(alloc, &pointer)?;
    assert!(rt; same_type(&copy, &pointer));
    assert!(rt; !same_type(&array, &pointer));
    assert_eq!(rt; size_of(&[], &copy), 2);
    assert_eq!(rt; size_of(&[], &array), 1);
    let deeper = array_of(alloc, array, 2)?;
    assert!(rt; !same_type(&deeper, &pointer));
    assert_eq!(rt; size_of(&[], &deeper), 2);
    Ok(())
}

/// `-x`
fn minus(alloc: Global) -> Result<Boxed<Expr>, NoMemory> {
    let of = read(alloc)?;
    unary(alloc, UnaryOp::Minus, of)
}

/// `!(x < 5)`
fn not_less(alloc: Global) -> Result<Boxed<Expr>, NoMemory> {
    let left = read(alloc)?;
    let right = five(alloc)?;
    let of = binary(alloc, BinaryOp::Less, left, right)?;
    unary(alloc, UnaryOp::Not, of)
}

/// `x * (x + 5)`
fn product(alloc: Global) -> Result<Boxed<Expr>, NoMemory> {
    let left = read(alloc)?;
    let right = sum(alloc)?;
    binary(alloc, BinaryOp::Mul, left, right)
}

/// `x && x`
fn both(alloc: Global) -> Result<Boxed<Expr>, NoMemory> {
    let left = read(alloc)?;
    let right = read(alloc)?;
    expr(alloc, ExprKind::And { left, right })
}

/// `x ? 5 : x + 5`
fn choice(alloc: Global) -> Result<Boxed<Expr>, NoMemory> {
    let test = read(alloc)?;
    let yes = five(alloc)?;
    let no = sum(alloc)?;
    expr(alloc, ExprKind::Conditional { test, yes, no })
}

/// `x = 5`
fn stored(alloc: Global) -> Result<Boxed<Expr>, NoMemory> {
    let to = local(alloc)?;
    let value = five(alloc)?;
    assign(alloc, to, value, false)
}

/// `g = 5`
fn marked(alloc: Global) -> Result<Boxed<Expr>, NoMemory> {
    let to = place(alloc, PlaceKind::Global(0))?;
    let value = five(alloc)?;
    assign(alloc, to, value, true)
}

/// `x += 5`
fn updated(alloc: Global) -> Result<Boxed<Expr>, NoMemory> {
    let place = local(alloc)?;
    let value = five(alloc)?;
    expr(
        alloc,
        ExprKind::Update {
            op: BinaryOp::Add,
            at: Some(IntType::Int),
            place,
            value,
            old: false,
            marked: false,
        },
    )
}

/// `*x`
fn pointed(alloc: Global) -> Result<Boxed<Expr>, NoMemory> {
    let pointer = read(alloc)?;
    let of = place(alloc, PlaceKind::Deref(pointer))?;
    expr(alloc, ExprKind::Read(of))
}

/// `x[x]`
fn element(alloc: Global) -> Result<Boxed<Expr>, NoMemory> {
    let of = local(alloc)?;
    let index = read(alloc)?;
    let at = place(alloc, PlaceKind::Element { of, index })?;
    expr(alloc, ExprKind::Read(at))
}

/// `f(x, x + 5)`
fn call(alloc: Global) -> Result<Boxed<Expr>, NoMemory> {
    let first = read(alloc)?;
    let second = sum(alloc)?;
    let mut args = Items::new(alloc);
    args.push(first.into_inner())?;
    args.push(second.into_inner())?;
    expr(alloc, ExprKind::Call { function: 0, args })
}

/// Whether a function with one expression has this height, and the expression this cost.
fn measures(
    alloc: Global,
    what: &'static str,
    body: Result<Boxed<Expr>, NoMemory>,
    height: u32,
    cost: u16,
) -> Result<(), Wrong> {
    let core = program(alloc, Items::new(alloc), Items::new(alloc), body?)?;
    right(
        what,
        height_of(&core, 0) == height && code_cost(&core) == 48 + u64::from(cost),
    )
}

#[test]
fn operators_have_heights_and_costs(rt: HostRuntime) -> Result<(), Fail> {
    let alloc = rt.alloc();
    measures(alloc, "5", five(alloc), 1, 12)?;
    measures(alloc, "x", read(alloc), 1, 24)?;
    measures(alloc, "x + 5", sum(alloc), 2, 56)?;
    measures(alloc, "x * (x + 5)", product(alloc), 3, 104)?;
    measures(alloc, "-x", minus(alloc), 1, 40)?;
    measures(alloc, "!(x < 5)", not_less(alloc), 2, 92)?;
    measures(alloc, "x && x", both(alloc), 1, 88)?;
    measures(alloc, "x ? 5 : x + 5", choice(alloc), 2, 132)?;
    Ok(())
}

#[test]
fn stores_places_and_calls_have_heights_and_costs(rt: HostRuntime) -> Result<(), Fail> {
    let alloc = rt.alloc();
    measures(alloc, "x = 5", stored(alloc), 2, 40)?;
    measures(alloc, "g = 5", marked(alloc), 2, 52)?;
    measures(alloc, "x += 5", updated(alloc), 3, 84)?;
    measures(alloc, "*x", pointed(alloc), 1, 52)?;
    measures(alloc, "x[x]", element(alloc), 2, 76)?;
    measures(alloc, "f(x, x + 5)", call(alloc), 3, 128)?;
    Ok(())
}

#[test]
fn frames_hold_objects_and_temporary_words(rt: HostRuntime) -> Result<(), Fail> {
    let alloc = rt.alloc();
    let mut params = Items::new(alloc);
    params.push(CHAR)?;
    params.push(INT)?;
    let mut locals = Items::new(alloc);
    locals.push(CHAR)?;
    let core = program(alloc, params, locals, sum(alloc)?)?;
    // 1, a pad byte, 2, 1 and a pad byte, then 2 + 2 words
    right("the frame", frame_bytes(&core, 0) == 14)?;
    // the function, two parameters, the statement, the sum, the read, its name and the constant
    right("the nodes", nodes(&core) == 8)?;
    right("the cost", code_cost(&core) == 48 + 24 + 56)?;
    right("no function", frame_bytes(&core, 1) == 0)?;
    Ok(())
}
