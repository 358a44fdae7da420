use crate::{Code, Cond, Dst, Gen, Instr, OneOp, Src, TwoOp, decode, encode, valid};
use std::process::Abort;

fn two(op: TwoOp, byte: bool, src: Src, dst: Dst) -> Instr {
    Instr::Two { op, byte, src, dst }
}

fn one(op: OneOp, byte: bool, src: Src) -> Instr {
    Instr::One { op, byte, src }
}

fn jump(cond: Cond, offset: i16) -> Instr {
    Instr::Jump { cond, offset }
}

fn check_row(rt: &impl Abort, words: [u16; 3], len: u8, instr: Instr) {
    assert_eq!(rt; decode(&words), Some((instr, len)), "{instr:?}");
    assert!(rt; valid(&instr), "{instr:?}");
    assert_eq!(rt; encode(&instr), Code { words, len });
}

#[test]
fn operators_of_two_operands_stand_in_their_words(rt: HostRuntime) {
    for (op, first, byte_first) in [
        (TwoOp::Mov, 0x4c0d, 0x4c4d),
        (TwoOp::Add, 0x5c0d, 0x5c4d),
        (TwoOp::Addc, 0x6c0d, 0x6c4d),
        (TwoOp::Subc, 0x7c0d, 0x7c4d),
        (TwoOp::Sub, 0x8c0d, 0x8c4d),
        (TwoOp::Cmp, 0x9c0d, 0x9c4d),
        (TwoOp::Bit, 0xbc0d, 0xbc4d),
        (TwoOp::Bic, 0xcc0d, 0xcc4d),
        (TwoOp::Bis, 0xdc0d, 0xdc4d),
        (TwoOp::Xor, 0xec0d, 0xec4d),
        (TwoOp::And, 0xfc0d, 0xfc4d),
    ] {
        let words = [first, 0, 0];
        check_row(&rt, words, 1, two(op, false, Src::Reg(12), Dst::Reg(13)));
        let bytes = [byte_first, 0, 0];
        check_row(&rt, bytes, 1, two(op, true, Src::Reg(12), Dst::Reg(13)));
    }
}

#[test]
fn operands_stand_in_their_words(rt: HostRuntime) {
    for (words, len, src, dst) in [
        ([0x420c, 0, 0], 1, Src::Reg(2), Dst::Reg(12)),
        ([0x411c, 6, 0], 2, Src::Indexed(1, 6), Dst::Reg(12)),
        ([0x421c, 0x2000, 0], 2, Src::Absolute(0x2000), Dst::Reg(12)),
        ([0x452c, 0, 0], 1, Src::Indirect(5), Dst::Reg(12)),
        ([0x4525, 0, 0], 1, Src::Indirect(5), Dst::Reg(5)),
        ([0x453c, 0, 0], 1, Src::Increment(5), Dst::Reg(12)),
        ([0x403c, 0x1234, 0], 2, Src::Immediate(0x1234), Dst::Reg(12)),
        ([0x403c, 4, 0], 2, Src::Immediate(4), Dst::Reg(12)),
        ([0x4303, 0, 0], 1, Src::Constant(Gen::Zero), Dst::Reg(3)),
        ([0x431c, 0, 0], 1, Src::Constant(Gen::One), Dst::Reg(12)),
        ([0x432c, 0, 0], 1, Src::Constant(Gen::Two), Dst::Reg(12)),
        (
            [0x433c, 0, 0],
            1,
            Src::Constant(Gen::MinusOne),
            Dst::Reg(12),
        ),
        ([0x4333, 0, 0], 1, Src::Constant(Gen::MinusOne), Dst::Reg(3)),
        ([0x422c, 0, 0], 1, Src::Constant(Gen::Four), Dst::Reg(12)),
        ([0x423c, 0, 0], 1, Src::Constant(Gen::Eight), Dst::Reg(12)),
        ([0x4232, 0, 0], 1, Src::Constant(Gen::Eight), Dst::Reg(2)),
        ([0x4130, 0, 0], 1, Src::Increment(1), Dst::Reg(0)),
        ([0x4030, 0x4400, 0], 2, Src::Immediate(0x4400), Dst::Reg(0)),
        ([0x4c81, 4, 0], 2, Src::Reg(12), Dst::Indexed(1, 4)),
        ([0x4c82, 0x1a00, 0], 2, Src::Reg(12), Dst::Absolute(0x1a00)),
        ([0x4191, 6, 4], 3, Src::Indexed(1, 6), Dst::Indexed(1, 4)),
        (
            [0x4292, 0x1111, 0x2222],
            3,
            Src::Absolute(0x1111),
            Dst::Absolute(0x2222),
        ),
        (
            [0x40b2, 0x1234, 0x5678],
            3,
            Src::Immediate(0x1234),
            Dst::Absolute(0x5678),
        ),
        ([0x4eb1, 2, 0], 2, Src::Increment(14), Dst::Indexed(1, 2)),
    ] {
        check_row(&rt, words, len, two(TwoOp::Mov, false, src, dst));
    }
}

#[test]
fn instructions_stand_in_their_words(rt: HostRuntime) {
    for (words, len, instr) in [
        (
            [0x4eff, 2, 0],
            2,
            two(TwoOp::Mov, true, Src::Increment(14), Dst::Indexed(15, 2)),
        ),
        (
            [0x417c, 0, 0],
            1,
            two(TwoOp::Mov, true, Src::Increment(1), Dst::Reg(12)),
        ),
        (
            [0x407c, 0x1234, 0],
            2,
            two(TwoOp::Mov, true, Src::Immediate(0x1234), Dst::Reg(12)),
        ),
        (
            [0x4c43, 0, 0],
            1,
            two(TwoOp::Mov, true, Src::Reg(12), Dst::Reg(3)),
        ),
        (
            [0x93c4, 3, 0],
            2,
            two(
                TwoOp::Cmp,
                true,
                Src::Constant(Gen::Zero),
                Dst::Indexed(4, 3),
            ),
        ),
        (
            [0xc232, 0, 0],
            1,
            two(TwoOp::Bic, false, Src::Constant(Gen::Eight), Dst::Reg(2)),
        ),
        (
            [0xd032, 16, 0],
            2,
            two(TwoOp::Bis, false, Src::Immediate(16), Dst::Reg(2)),
        ),
        (
            [0x8321, 0, 0],
            1,
            two(TwoOp::Sub, false, Src::Constant(Gen::Two), Dst::Reg(1)),
        ),
        ([0x1005, 0, 0], 1, one(OneOp::Rrc, false, Src::Reg(5))),
        ([0x1045, 0, 0], 1, one(OneOp::Rrc, true, Src::Reg(5))),
        ([0x1025, 0, 0], 1, one(OneOp::Rrc, false, Src::Indirect(5))),
        ([0x1021, 0, 0], 1, one(OneOp::Rrc, false, Src::Indirect(1))),
        ([0x1085, 0, 0], 1, one(OneOp::Swpb, false, Src::Reg(5))),
        ([0x1105, 0, 0], 1, one(OneOp::Rra, false, Src::Reg(5))),
        (
            [0x1111, 4, 0],
            2,
            one(OneOp::Rra, false, Src::Indexed(1, 4)),
        ),
        (
            [0x1152, 0x2000, 0],
            2,
            one(OneOp::Rra, true, Src::Absolute(0x2000)),
        ),
        ([0x1185, 0, 0], 1, one(OneOp::Sxt, false, Src::Reg(5))),
        ([0x1205, 0, 0], 1, one(OneOp::Push, false, Src::Reg(5))),
        ([0x1202, 0, 0], 1, one(OneOp::Push, false, Src::Reg(2))),
        (
            [0x1203, 0, 0],
            1,
            one(OneOp::Push, false, Src::Constant(Gen::Zero)),
        ),
        (
            [0x1222, 0, 0],
            1,
            one(OneOp::Push, false, Src::Constant(Gen::Four)),
        ),
        (
            [0x1230, 0x1234, 0],
            2,
            one(OneOp::Push, false, Src::Immediate(0x1234)),
        ),
        ([0x1285, 0, 0], 1, one(OneOp::Call, false, Src::Reg(5))),
        (
            [0x1292, 0x2000, 0],
            2,
            one(OneOp::Call, false, Src::Absolute(0x2000)),
        ),
        (
            [0x1295, 2, 0],
            2,
            one(OneOp::Call, false, Src::Indexed(5, 2)),
        ),
        (
            [0x12b5, 0, 0],
            1,
            one(OneOp::Call, false, Src::Increment(5)),
        ),
        (
            [0x12b0, 0x4400, 0],
            2,
            one(OneOp::Call, false, Src::Immediate(0x4400)),
        ),
        ([0x2000, 0, 0], 1, jump(Cond::Nz, 0)),
        ([0x2401, 0, 0], 1, jump(Cond::Z, 1)),
        ([0x2802, 0, 0], 1, jump(Cond::Nc, 2)),
        ([0x2c03, 0, 0], 1, jump(Cond::C, 3)),
        ([0x33fe, 0, 0], 1, jump(Cond::N, -2)),
        ([0x35ff, 0, 0], 1, jump(Cond::Ge, 511)),
        ([0x3a00, 0, 0], 1, jump(Cond::Less, -512)),
        ([0x3fff, 0, 0], 1, jump(Cond::Always, -1)),
    ] {
        check_row(&rt, words, len, instr);
    }
}

#[test]
fn first_words_outside_the_table_are_refused(rt: HostRuntime) {
    for first in [
        // no format, DADD, RETI, and no operator
        0x0000, 0x0fff, 0x1400, 0x1fff, 0xa506, 0xac0d, 0x1300, 0x1380,
        // R0 as a source, and as the base of a destination; R3 as the base of a destination
        0x400c, 0x401c, 0x402c, 0x1200, 0x1210, 0x12a0, 0x4c80, 0x4c83,
        // R0 as the destination of another operator or of a byte
        0x5c00, 0x9c00, 0x4c40,
        // bytes to R1 and R2, and R2 as the destination of another operator
        0x4c41, 0x9c41, 0xdc42, 0x5c02, 0x9c02, 0xfc02, 0xec02,
        // the destination's register or base is raised by the source
        0x4535, 0x55b5, 0x4131,
        // operands that cannot be changed in place
        0x1003, 0x1013, 0x1023, 0x1033, 0x1022, 0x1032, 0x1030, 0x1035, 0x1000, 0x1001, 0x1002,
        0x10b5, 0x1101, 0x1182, 0x11a2,
        // byte forms that there are not
        0x10c5, 0x11c5, 0x1245, 0x12c5,
        // SP as the operand of PUSH and CALL
        0x1201, 0x1211, 0x1221, 0x1231, 0x1281, 0x1291, 0x12a1, 0x12b1,
    ] {
        assert_eq!(rt; decode(&[first, 2, 4]), None, "{first:x}");
    }
}

#[test]
fn operands_that_have_no_fields_are_invalid(rt: HostRuntime) {
    for src in [
        Src::Reg(0),
        Src::Reg(3),
        Src::Reg(16),
        Src::Indexed(0, 2),
        Src::Indexed(2, 2),
        Src::Indexed(3, 2),
        Src::Indexed(16, 2),
        Src::Indirect(0),
        Src::Indirect(2),
        Src::Increment(0),
        Src::Increment(3),
        Src::Increment(255),
    ] {
        let copied = two(TwoOp::Mov, false, src, Dst::Reg(12));
        assert!(rt; !valid(&copied), "{src:?}");
        assert!(rt; !valid(&one(OneOp::Push, false, src)), "{src:?}");
    }
    for dst in [
        Dst::Reg(16),
        Dst::Indexed(0, 2),
        Dst::Indexed(2, 2),
        Dst::Indexed(3, 2),
        Dst::Indexed(16, 2),
    ] {
        assert!(rt;
            !valid(&two(TwoOp::Mov, false, Src::Reg(12), dst)),
            "{dst:?}"
        );
    }
    for offset in [512, -513, i16::MAX, i16::MIN] {
        assert!(rt; !valid(&jump(Cond::Always, offset)), "{offset}");
    }
}

// 36,588 first words of two operands, 348 of one operand and 8,192 jumps, and their sum: from a list, made apart from
// this program, of each operator with each of its operands.
#[test]
fn every_first_word_of_the_table_encodes_back(rt: HostRuntime) {
    let mut count: u32 = 0;
    let mut sum: u32 = 0;
    for first in 0..=u16::MAX {
        let words = [first, 0x1234, 0x5678];
        if let Some((instr, len)) = decode(&words) {
            let code = encode(&instr);
            count = count.wrapping_add(1);
            sum = sum.wrapping_add(first as u32);
            assert_eq!(rt; code.len, len);
            assert_eq!(rt; code.words[0], first);
            assert!(rt; len < 2 || code.words[1] == 0x1234);
            assert!(rt; len < 3 || code.words[2] == 0x5678);
        }
    }
    assert_eq!(rt; count, 45128);
    assert_eq!(rt; sum, 1596142036);
}
