//! The operators at their edges, and pointers.

use base16::{BinaryOp, IntType, Kind, NoMemory, Sequence, UnaryOp};
use c_values::{
    Call, Cell, Cells, Location, Object, State, Value, accessed, address, binary, compared,
    converted, difference, element, fit, member_at, moved, pointed, pointer_sum, sum_of, truth_of,
    unary,
};
use std::alloc::Global;
use std::process::Abort;
use std::test::Fail;

/// In `int`: values.
fn signed(rt: &impl Abort, op: BinaryOp, rows: &[(i16, i16, i64)]) {
    for (left, right, value) in rows {
        let found = binary(op, IntType::Int, i64::from(*left), i64::from(*right));
        assert_eq!(rt; found, Ok(*value), "{left} {op:?} {right}");
    }
}

/// In `int`: a rule that is broken, 1 outside `int`, 2 for a divisor of 0, 3 for a shift.
fn signed_breaks(rt: &impl Abort, op: BinaryOp, rule: u8, rows: &[(i16, i16)]) {
    for (left, right) in rows {
        let found = binary(op, IntType::Int, i64::from(*left), i64::from(*right));
        assert_eq!(rt; found, Err(rule), "{left} {op:?} {right}");
    }
}

/// In `unsigned int`.
fn unsigned(rt: &impl Abort, op: BinaryOp, rows: &[(u16, u16, i64)]) {
    for (left, right, value) in rows {
        let found = binary(op, IntType::UInt, i64::from(*left), i64::from(*right));
        assert_eq!(rt; found, Ok(*value), "{left} {op:?} {right}");
    }
}

/// In `unsigned int`; the right side of a shift may be an `int`.
fn unsigned_breaks(rt: &impl Abort, op: BinaryOp, rule: u8, rows: &[(u16, i16)]) {
    for (left, right) in rows {
        let found = binary(op, IntType::UInt, i64::from(*left), i64::from(*right));
        assert_eq!(rt; found, Err(rule), "{left} {op:?} {right}");
    }
}

#[test]
fn operators_of_int_give_their_values(rt: HostRuntime) {
    signed(
        &rt,
        BinaryOp::Add,
        &[(32767, 0, 32767), (-32768, 32767, -1)],
    );
    signed(&rt, BinaryOp::Sub, &[(-1, -32768, 32767)]);
    signed(
        &rt,
        BinaryOp::Mul,
        &[(-256, 128, -32768), (181, 181, 32761)],
    );
    signed(
        &rt,
        BinaryOp::Div,
        &[
            (7, 2, 3),
            (-7, 2, -3),
            (7, -2, -3),
            (-7, -2, 3),
            (-32768, 1, -32768),
        ],
    );
    signed(
        &rt,
        BinaryOp::Rem,
        &[(7, 2, 1), (-7, 2, -1), (7, -2, 1), (-7, -2, -1)],
    );
    signed(&rt, BinaryOp::Shl, &[(1, 14, 16384), (0, 15, 0)]);
    signed(
        &rt,
        BinaryOp::Shr,
        &[(-1, 15, -1), (-32768, 15, -1), (-7, 1, -4), (32767, 14, 1)],
    );
    signed(&rt, BinaryOp::Less, &[(-1, 0, 1), (0, 0, 0)]);
    signed(&rt, BinaryOp::Greater, &[(0, -1, 1), (0, 0, 0)]);
    signed(&rt, BinaryOp::LessEq, &[(5, 5, 1), (6, 5, 0)]);
    signed(&rt, BinaryOp::GreaterEq, &[(-32768, 32767, 0), (5, 5, 1)]);
    signed(&rt, BinaryOp::Equal, &[(-1, -1, 1), (-1, 1, 0)]);
    signed(&rt, BinaryOp::NotEqual, &[(-1, -1, 0), (-1, 1, 1)]);
    signed(&rt, BinaryOp::And, &[(-2, 3, 2), (-1, 32767, 32767)]);
    signed(&rt, BinaryOp::Xor, &[(-1, 32767, -32768)]);
    signed(&rt, BinaryOp::Or, &[(-32768, 1, -32767)]);
}

#[test]
fn operators_of_int_break_the_least_rule(rt: HostRuntime) {
    signed_breaks(&rt, BinaryOp::Add, 1, &[(32767, 1), (-32768, -1)]);
    signed_breaks(&rt, BinaryOp::Sub, 1, &[(-32768, 1), (0, -32768)]);
    signed_breaks(&rt, BinaryOp::Mul, 1, &[(256, 128), (-32768, -1)]);
    signed_breaks(&rt, BinaryOp::Div, 1, &[(-32768, -1)]);
    signed_breaks(&rt, BinaryOp::Div, 2, &[(1, 0), (-32768, 0)]);
    signed_breaks(&rt, BinaryOp::Rem, 1, &[(-32768, -1)]);
    signed_breaks(&rt, BinaryOp::Rem, 2, &[(5, 0)]);
    signed_breaks(&rt, BinaryOp::Shl, 3, &[(1, 15), (-1, 0), (1, 16), (1, -1)]);
    signed_breaks(&rt, BinaryOp::Shr, 3, &[(1, 16), (1, -1)]);
    assert_eq!(rt; binary(BinaryOp::Shl, IntType::Int, 1, 40000), Err(3));
}

#[test]
fn operators_of_unsigned_int_are_modulo_65536(rt: HostRuntime) {
    unsigned(&rt, BinaryOp::Add, &[(65535, 1, 0), (40000, 40000, 14464)]);
    unsigned(&rt, BinaryOp::Sub, &[(0, 1, 65535)]);
    unsigned(&rt, BinaryOp::Mul, &[(300, 300, 24464), (65535, 65535, 1)]);
    unsigned(&rt, BinaryOp::Div, &[(65535, 2, 32767), (32768, 65535, 0)]);
    unsigned(&rt, BinaryOp::Rem, &[(65535, 10, 5), (32768, 65535, 32768)]);
    unsigned(
        &rt,
        BinaryOp::Shl,
        &[(1, 15, 32768), (65535, 15, 32768), (65535, 1, 65534)],
    );
    unsigned(&rt, BinaryOp::Shr, &[(65535, 15, 1), (32768, 0, 32768)]);
    unsigned(&rt, BinaryOp::Less, &[(1, 65535, 1), (65535, 1, 0)]);
    unsigned(&rt, BinaryOp::GreaterEq, &[(0, 65535, 0), (65535, 0, 1)]);
    unsigned(&rt, BinaryOp::And, &[(0xff00, 0x0ff0, 0x0f00)]);
    unsigned(&rt, BinaryOp::Xor, &[(0xffff, 0x00ff, 0xff00)]);
    unsigned(&rt, BinaryOp::Or, &[(0xf000, 0x000f, 0xf00f)]);
    unsigned_breaks(&rt, BinaryOp::Div, 2, &[(1, 0)]);
    unsigned_breaks(&rt, BinaryOp::Rem, 2, &[(65535, 0)]);
    unsigned_breaks(&rt, BinaryOp::Shl, 3, &[(1, 16), (1, -1)]);
    unsigned_breaks(&rt, BinaryOp::Shr, 3, &[(65535, 16), (65535, -1)]);
}

#[test]
fn operators_on_one_integer(rt: HostRuntime) {
    let int = IntType::Int;
    let uint = IntType::UInt;
    assert_eq!(rt; unary(UnaryOp::Plus, int, -5), Ok(-5));
    assert_eq!(rt; unary(UnaryOp::Minus, int, 32767), Ok(-32767));
    assert_eq!(rt; unary(UnaryOp::Minus, int, -32768), Err(1));
    assert_eq!(rt; unary(UnaryOp::Complement, int, 0), Ok(-1));
    assert_eq!(rt; unary(UnaryOp::Complement, int, -32768), Ok(32767));
    assert_eq!(rt; unary(UnaryOp::Not, int, 0), Ok(1));
    assert_eq!(rt; unary(UnaryOp::Not, int, -1), Ok(0));
    assert_eq!(rt; unary(UnaryOp::Minus, uint, 1), Ok(65535));
    assert_eq!(rt; unary(UnaryOp::Minus, uint, 0), Ok(0));
    assert_eq!(rt; unary(UnaryOp::Complement, uint, 65535), Ok(0));
    assert_eq!(rt; unary(UnaryOp::Not, uint, 65535), Ok(0));
}

fn cell(offset: u16, kind: Kind, value: Value) -> Cell {
    Cell {
        offset,
        kind,
        value,
    }
}

fn pointer(object: u64, offset: u16) -> Value {
    Value::Pointer { object, offset }
}

fn place(object: u64, offset: u32) -> Location {
    Location {
        object: Some(object),
        offset,
    }
}

const NOWHERE: Location = Location {
    object: None,
    offset: 0,
};

fn object(alloc: Global, number: u64, cells: &[Cell]) -> Result<Object, NoMemory> {
    let cells = Cells::from_vec(cells.to_vec(alloc)?);
    Ok(Object { number, cells })
}

/// A call with one `char`, object 4.
fn one_call(alloc: Global) -> Result<Call, NoMemory> {
    let mut locals = Sequence::new(alloc);
    locals.push(object(alloc, 4, &[cell(0, Kind::Char, Value::Int(1))])?)?;
    Ok(Call {
        function: 0,
        frame: 0x20f0,
        locals,
    })
}

/// `int a[3]` as object 0 and `struct {char c; int i;}` as object 1.
fn two_globals(alloc: Global) -> Result<Sequence<Object>, NoMemory> {
    let array = [
        cell(0, Kind::Int, Value::Int(10)),
        cell(2, Kind::Int, Value::Int(20)),
        cell(4, Kind::Int, Value::Undefined),
    ];
    let pair = [
        cell(0, Kind::Char, Value::Int(200)),
        cell(2, Kind::Int, Value::Int(-7)),
    ];
    let mut globals = Sequence::new(alloc);
    globals.push(object(alloc, 0, &array)?)?;
    globals.push(object(alloc, 1, &pair)?)?;
    Ok(globals)
}

/// Two variables, and a call with one `char`. Object 2 is gone.
fn two_globals_and_a_call(alloc: Global) -> Result<State, NoMemory> {
    let globals = two_globals(alloc)?;
    let mut calls = Sequence::new(alloc);
    calls.push(one_call(alloc)?)?;
    Ok(State {
        globals,
        calls,
        stamps: Sequence::new(alloc),
        outputs: Sequence::new(alloc),
        block: None,
        marks: 0,
    })
}

#[test]
fn an_access_finds_the_scalar_of_its_kind(rt: HostRuntime) -> Result<(), Fail> {
    let state = two_globals_and_a_call(rt.alloc())?;
    assert_eq!(rt;
        accessed(&state, place(0, 2), Kind::Int),
        Ok(Value::Int(20))
    );
    assert_eq!(rt;
        accessed(&state, place(0, 4), Kind::Int),
        Ok(Value::Undefined)
    );
    assert_eq!(rt; accessed(&state, place(0, 2), Kind::UInt), Err(5));
    assert_eq!(rt; accessed(&state, place(0, 1), Kind::Int), Err(5));
    assert_eq!(rt; accessed(&state, place(0, 6), Kind::Int), Err(5));
    assert_eq!(rt;
        accessed(&state, place(1, 0), Kind::Char),
        Ok(Value::Int(200))
    );
    assert_eq!(rt; accessed(&state, place(1, 1), Kind::Char), Err(5));
    assert_eq!(rt;
        accessed(&state, place(4, 0), Kind::Char),
        Ok(Value::Int(1))
    );
    assert_eq!(rt; accessed(&state, place(2, 0), Kind::Int), Err(6));
    assert_eq!(rt; accessed(&state, NOWHERE, Kind::Int), Err(7));
    Ok(())
}

/// The sum of a pointer and so many scalars of two bytes.
fn sum(state: &State, left: Value, right: Value) -> Result<Value, u8> {
    pointer_sum(state, false, false, 2, left, right)
}

/// The sum of so many scalars of two bytes and a pointer.
fn swapped_sum(state: &State, left: Value, right: Value) -> Result<Value, u8> {
    pointer_sum(state, true, false, 2, left, right)
}

#[test]
fn pointers_move_in_their_objects(rt: HostRuntime) -> Result<(), Fail> {
    let state = two_globals_and_a_call(rt.alloc())?;
    let one = Value::Int(1);
    assert_eq!(rt;
        sum(&state, pointer(0, 0), Value::Int(3)),
        Ok(pointer(0, 6))
    );
    assert_eq!(rt; swapped_sum(&state, one, pointer(0, 2)), Ok(pointer(0, 4)));
    assert_eq!(rt; sum(&state, one, pointer(0, 2)), Err(0));
    assert_eq!(rt;
        swapped_sum(&state, Value::Undefined, pointer(2, 0)),
        Err(6)
    );
    assert_eq!(rt; sum(&state, pointer(0, 0), Value::Int(4)), Err(4));
    assert_eq!(rt; sum(&state, pointer(0, 0), Value::Int(-1)), Err(4));
    assert_eq!(rt;
        sum(&state, pointer(1, 0), Value::Int(2)),
        Ok(pointer(1, 4))
    );
    assert_eq!(rt; sum(&state, pointer(2, 0), Value::Int(0)), Err(6));
    assert_eq!(rt; sum(&state, pointer(2, 0), Value::Undefined), Err(6));
    assert_eq!(rt; sum(&state, pointer(0, 0), Value::Undefined), Err(11));
    assert_eq!(rt; sum(&state, Value::Undefined, one), Err(11));
    assert_eq!(rt; sum(&state, Value::Null, Value::Int(0)), Err(12));
    assert_eq!(rt;
        pointer_sum(&state, false, true, 2, pointer(0, 6), Value::Int(3)),
        Ok(pointer(0, 0))
    );
    assert_eq!(rt; sum_of(&state, false, true, 2, pointer(0, 0), one), Err(4));
    Ok(())
}

#[test]
fn places_and_their_addresses(rt: HostRuntime) -> Result<(), Fail> {
    let state = two_globals_and_a_call(rt.alloc())?;
    assert_eq!(rt;
        element(&state, 2, place(0, 0), Value::Int(1)),
        Ok(place(0, 2))
    );
    assert_eq!(rt; element(&state, 2, place(2, 0), Value::Undefined), Err(6));
    assert_eq!(rt; moved(&state, place(0, 2), -2), Ok(place(0, 0)));
    let far = member_at(place(0, 2), 65535);
    assert_eq!(rt; moved(&state, place(0, 65535), -65535), Ok(place(0, 0)));
    assert_eq!(rt; moved(&state, far, -65536), Err(4));
    assert_eq!(rt; pointed(pointer(0, 4)), Ok(place(0, 4)));
    assert_eq!(rt; pointed(Value::Undefined), Err(11));
    assert_eq!(rt; address(&state, place(0, 6)), Ok(pointer(0, 6)));
    assert_eq!(rt; address(&state, place(0, 7)), Err(4));
    assert_eq!(rt; address(&state, place(2, 65535)), Ok(pointer(2, 65535)));
    assert_eq!(rt; address(&state, place(2, 65536)), Err(4));
    assert_eq!(rt; address(&state, NOWHERE), Ok(Value::Null));
    assert_eq!(rt; address(&state, member_at(NOWHERE, 2)), Err(12));
    Ok(())
}

#[test]
fn pointers_are_compared(rt: HostRuntime) -> Result<(), Fail> {
    let state = two_globals_and_a_call(rt.alloc())?;
    let array = pointer(0, 0);
    let end = pointer(0, 6);
    let pair = pointer(1, 0);
    let gone = pointer(2, 0);
    assert_eq!(rt; compared(&state, BinaryOp::Less, array, end), Ok(1));
    assert_eq!(rt; compared(&state, BinaryOp::GreaterEq, array, end), Ok(0));
    assert_eq!(rt; compared(&state, BinaryOp::Less, array, pair), Err(9));
    assert_eq!(rt; compared(&state, BinaryOp::Equal, array, pair), Ok(0));
    assert_eq!(rt; compared(&state, BinaryOp::NotEqual, array, pair), Ok(1));
    assert_eq!(rt; compared(&state, BinaryOp::Equal, end, pair), Err(10));
    assert_eq!(rt; compared(&state, BinaryOp::Equal, end, end), Ok(1));
    assert_eq!(rt; compared(&state, BinaryOp::Equal, gone, array), Err(6));
    assert_eq!(rt;
        compared(&state, BinaryOp::Equal, array, Value::Null),
        Ok(0)
    );
    assert_eq!(rt;
        compared(&state, BinaryOp::NotEqual, Value::Null, Value::Null),
        Ok(0)
    );
    assert_eq!(rt;
        compared(&state, BinaryOp::Less, Value::Null, array),
        Err(12)
    );
    assert_eq!(rt;
        compared(&state, BinaryOp::Equal, Value::Undefined, Value::Null),
        Err(11)
    );
    Ok(())
}

#[test]
fn pointers_are_words(rt: HostRuntime) -> Result<(), Fail> {
    let array = pointer(0, 0);
    assert_eq!(rt; converted(IntType::Int, array), Ok(array));
    assert_eq!(rt; converted(IntType::Char, array), Err(0));
    assert_eq!(rt; fit(Kind::Pointer, array), array);
    assert_eq!(rt; fit(Kind::Char, Value::Int(300)), Value::Int(44));
    assert_eq!(rt; fit(Kind::Char, array), Value::Undefined);
    Ok(())
}

#[test]
fn pointers_are_subtracted_and_tested(rt: HostRuntime) -> Result<(), Fail> {
    let state = two_globals_and_a_call(rt.alloc())?;
    let array = pointer(0, 0);
    assert_eq!(rt; difference(&state, 2, pointer(0, 6), pointer(0, 0)), Ok(3));
    assert_eq!(rt; difference(&state, 2, pointer(0, 0), pointer(0, 6)), Ok(-3));
    assert_eq!(rt; difference(&state, 2, pointer(0, 3), pointer(0, 0)), Err(9));
    assert_eq!(rt; difference(&state, 32767, array, array), Ok(0));
    assert_eq!(rt; difference(&state, 32768, array, array), Err(9));
    assert_eq!(rt; difference(&state, 2, pointer(0, 0), pointer(1, 0)), Err(9));
    assert_eq!(rt; difference(&state, 2, pointer(2, 0), pointer(0, 0)), Err(6));
    assert_eq!(rt; difference(&state, 2, Value::Null, Value::Null), Err(12));
    assert_eq!(rt;
        difference(&state, 2, Value::Undefined, Value::Null),
        Err(11)
    );
    assert_eq!(rt; truth_of(&state, Value::Int(-1)), Ok(true));
    assert_eq!(rt; truth_of(&state, Value::Null), Ok(false));
    assert_eq!(rt; truth_of(&state, pointer(4, 0)), Ok(true));
    assert_eq!(rt; truth_of(&state, pointer(2, 0)), Err(6));
    assert_eq!(rt; truth_of(&state, Value::Undefined), Err(11));
    Ok(())
}

#[test]
fn a_scalar_is_found_and_set_by_its_offset(rt: HostRuntime) -> Result<(), Fail> {
    let mut items = Vec::new(rt.alloc());
    for i in 0..8000 {
        items.push(cell(2 * i, Kind::Int, Value::Int(0)))?;
    }
    let mut cells = Cells::from_vec(items);
    for i in 0..8000 {
        cells.put(2 * i, Value::Int(i64::from(i)));
    }
    cells.put(7, Value::Int(1));
    assert_eq!(rt; cells.find(15998).map(|c| c.value), Some(Value::Int(7999)));
    assert_eq!(rt; cells.find(7).map(|c| c.value), None);
    assert_eq!(rt;
        cells.copy(rt.alloc())?.find(6).map(|c| c.value),
        Some(Value::Int(3))
    );
    cells.clear();
    assert_eq!(rt; cells.find(0).map(|c| c.value), Some(Value::Undefined));
    let mut apart = Cells::from_vec(vec![in rt.alloc();
        cell(4, Kind::Int, Value::Int(4)),
        cell(0, Kind::Int, Value::Int(0)),
    ]?);
    apart.put(0, Value::Int(9));
    assert_eq!(rt; apart.find(0).map(|c| c.value), Some(Value::Int(9)));
    assert_eq!(rt; apart.into_vec().len(), 2);
    Ok(())
}
