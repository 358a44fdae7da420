use crate::{scalars, slots_of, structs_laid};
use base16::{IntType, Kind, Name, NoMemory, Scalar};
use core_tree::{Core, Global as Variable, Member, Slot, Struct, Ty};
use sqlite_items::{Boxed, Items};
use std::alloc::Global;
use std::test::Fail;

// Parts of programs.

const INT: Ty = Ty::Num(IntType::Int);

const CHAR: Ty = Ty::Num(IntType::Char);

fn array_of(alloc: Global, of: Ty, count: u16) -> Result<Ty, NoMemory> {
    Ok(Ty::Array {
        of: Boxed::new(alloc, of)?,
        count,
    })
}

/// A struct with two members, `first` and `then`.
fn structure(alloc: Global, first: Ty, then: Ty) -> Result<Struct, NoMemory> {
    let name = Name::new(alloc, b"s")?;
    let one = Name::new(alloc, b"first")?;
    let other = Name::new(alloc, b"then")?;
    let mut members = Items::new(alloc);
    members.push(Member {
        name: one,
        ty: first,
    })?;
    members.push(Member {
        name: other,
        ty: then,
    })?;
    Ok(Struct { name, members })
}

/// `struct {char first; int then;}`, `struct {char first[30000]; int then;}` and `struct {int first; struct 0 then[2];}`
fn structs(alloc: Global) -> Result<Items<Struct>, NoMemory> {
    let mut structs = Items::new(alloc);
    structs.push(structure(alloc, CHAR, INT)?)?;
    let long = array_of(alloc, CHAR, 30_000)?;
    structs.push(structure(alloc, long, INT)?)?;
    let pair = array_of(alloc, Ty::Struct(0), 2)?;
    structs.push(structure(alloc, INT, pair)?)?;
    Ok(structs)
}

fn slot(offset: u16, kind: Kind) -> Slot {
    Slot { offset, kind }
}

/// Whether these are the scalars of a type of the program with these structs; none where it is too big.
fn has_slots(
    alloc: Global,
    structs: &[Struct],
    ty: &Ty,
    expected: &[Slot],
) -> Result<bool, NoMemory> {
    let known = structs_laid(alloc, structs)?;
    let slots = slots_of(alloc, structs, known.as_slice(), ty)?;
    Ok(slots.as_slice() == expected)
}

#[test]
fn scalars_stand_at_their_alignment_and_a_struct_too_big_is_none(
    rt: HostRuntime,
) -> Result<(), Fail> {
    let alloc = rt.alloc();
    let structs = structs(alloc)?;
    let whole = structs.as_slice();
    let odd_and_even = [slot(0, Kind::Char), slot(2, Kind::Int)];
    assert!(rt; has_slots(alloc, whole, &Ty::Struct(0), &odd_and_even)?);
    assert!(rt; has_slots(alloc, whole, &Ty::Struct(1), &[]).is_err());
    let nested = [
        slot(0, Kind::Int),
        slot(2, Kind::Char),
        slot(4, Kind::Int),
        slot(6, Kind::Char),
        slot(8, Kind::Int),
    ];
    assert!(rt; has_slots(alloc, whole, &Ty::Struct(2), &nested)?);
    Ok(())
}

/// The variables and another one with these name, type and lifetime.
fn with_variable(
    alloc: Global,
    mut globals: Items<Variable>,
    name: &[u8],
    ty: Ty,
    lifetime: Option<u64>,
) -> Result<Items<Variable>, NoMemory> {
    let name = Name::new(alloc, name)?;
    globals.push(Variable {
        name,
        ty,
        lifetime,
        init: Items::new(alloc),
        before: 0,
        line: 1,
    })?;
    Ok(globals)
}

/// A program with these structs and variables.
fn program(alloc: Global, structs: Items<Struct>, globals: Items<Variable>) -> Core {
    Core {
        structs,
        globals,
        functions: Items::new(alloc),
    }
}

/// `int g;`
fn one_int(alloc: Global) -> Result<Core, NoMemory> {
    let globals = with_variable(alloc, Items::new(alloc), b"g", INT, None)?;
    Ok(program(alloc, Items::new(alloc), globals))
}

/// `struct {char first; char then[2];}`
fn odd_struct(alloc: Global) -> Result<Items<Struct>, NoMemory> {
    let mut structs = Items::new(alloc);
    let pair = array_of(alloc, CHAR, 2)?;
    structs.push(structure(alloc, CHAR, pair)?)?;
    Ok(structs)
}

/// `char c; struct .. s[2]; @expires_after=7 char t[3]; int i; @expires_after=9 char u;`
fn odd_and_timed(alloc: Global) -> Result<Core, NoMemory> {
    let globals = with_variable(alloc, Items::new(alloc), b"c", CHAR, None)?;
    let row = array_of(alloc, Ty::Struct(0), 2)?;
    let globals = with_variable(alloc, globals, b"s", row, None)?;
    let three = array_of(alloc, CHAR, 3)?;
    let globals = with_variable(alloc, globals, b"t", three, Some(7))?;
    let globals = with_variable(alloc, globals, b"i", INT, None)?;
    let globals = with_variable(alloc, globals, b"u", CHAR, Some(9))?;
    let structs = odd_struct(alloc)?;
    Ok(program(alloc, structs, globals))
}

/// A `char` in so many arrays of one element.
fn deep(alloc: Global, levels: u32) -> Result<Ty, NoMemory> {
    let mut ty = CHAR;
    for _ in 0..levels {
        ty = array_of(alloc, ty, 1)?;
    }
    Ok(ty)
}

fn one_deep(alloc: Global, levels: u32) -> Result<Core, NoMemory> {
    let ty = deep(alloc, levels)?;
    let globals = with_variable(alloc, Items::new(alloc), b"d", ty, None)?;
    Ok(program(alloc, Items::new(alloc), globals))
}

type Row = (&'static str, u16, Kind, Option<u16>);

/// Whether these are the scalars of these rows.
fn are(all: &[Scalar], rows: &[Row]) -> bool {
    for (scalar, (name, address, kind, stamp)) in all.iter().zip(rows) {
        let named = scalar.name.bytes() == name.as_bytes();
        let placed = scalar.address == *address && scalar.kind == *kind;
        if !named || !placed || scalar.stamp != *stamp {
            return false;
        }
    }
    all.len() == rows.len()
}

#[test]
fn one_variable_is_one_scalar_at_the_first_address(rt: HostRuntime) -> Result<(), Fail> {
    let core = one_int(rt.alloc())?;
    let all = scalars(rt.alloc(), &core)?;
    assert!(rt; are(all.as_slice(), &[("g", 0x4000, Kind::Int, None)]));
    Ok(())
}

#[test]
fn scalars_are_named_by_index_and_member_and_stamps_are_behind_the_last(
    rt: HostRuntime,
) -> Result<(), Fail> {
    let core = odd_and_timed(rt.alloc())?;
    let all = scalars(rt.alloc(), &core)?;
    let expected: [Row; 12] = [
        ("c", 0x4000, Kind::Char, None),
        ("s[0].first", 0x4001, Kind::Char, None),
        ("s[0].then[0]", 0x4002, Kind::Char, None),
        ("s[0].then[1]", 0x4003, Kind::Char, None),
        ("s[1].first", 0x4004, Kind::Char, None),
        ("s[1].then[0]", 0x4005, Kind::Char, None),
        ("s[1].then[1]", 0x4006, Kind::Char, None),
        ("t[0]", 0x4007, Kind::Char, Some(0x400E)),
        ("t[1]", 0x4008, Kind::Char, Some(0x4012)),
        ("t[2]", 0x4009, Kind::Char, Some(0x4016)),
        ("i", 0x400A, Kind::Int, None),
        ("u", 0x400C, Kind::Char, Some(0x401A)),
    ];
    assert!(rt; are(all.as_slice(), &expected));
    Ok(())
}

#[test]
fn a_variable_may_have_two_hundred_thousand_levels(rt: HostRuntime) -> Result<(), Fail> {
    let core = one_deep(rt.alloc(), 200_000)?;
    let all = scalars(rt.alloc(), &core)?;
    assert_eq!(rt; all.as_slice().len(), 1);
    for scalar in all.as_slice() {
        assert_eq!(rt; scalar.name.bytes().len(), 600_001);
    }
    Ok(())
}
