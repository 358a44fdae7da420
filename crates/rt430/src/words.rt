ghost use Rattle.std.specs.Prelude.{◌≡◌, ◌≤◌, length};
ghost use Rattle.rt430.specs.Routines.{Computes, Returns, size, total_size};

/// The operators of C that have a helper routine (C99 6.5.5 and 6.5.7).
#[derive(Clone, Copy, Debug, PartialEq, Eq)]
pub enum Helper {
    /// `*` modulo 2^16, of unsigned and of signed operands.
    Mul16,
    /// `/` of unsigned operands.
    Udiv16,
    /// `%` of unsigned operands.
    Umod16,
    /// `/` of signed operands, rounded toward zero.
    Sdiv16,
    /// `%` of signed operands, with the sign of the left one.
    Smod16,
    /// `<<` modulo 2^16.
    Shl,
    /// `>>` of an unsigned left operand.
    Shr,
    /// `>>` of a signed left operand, whose sign bit is copied.
    Sar,
}

/// The words of an operator's routine, to be placed at any even address of the code range. It takes its operands in R12
/// and R13 and answers in R12, within 400 instructions. From the call to the return SP is never above the return word. R3 to
/// R10 and all of SR but C, Z, N and V stay, and more with some of them; of the other registers nothing is told, nor which
/// answer a divisor of 0 or a count of 16 or more has.
pub fn routine(which: Helper) -> &'static [u16]
    ensures value { Computes which result.now }
    ensures always { Returns which result.now }
    ensures words { length result.now ≡ size which }
    ensures together { total_size ≤ 508 }
{
    match which {
        Helper::Mul16 => &MULTIPLICATION,
        Helper::Udiv16 => &DIVISION,
        Helper::Umod16 => &REMAINDER,
        Helper::Sdiv16 => &SIGNED_DIVISION,
        Helper::Smod16 => &SIGNED_REMAINDER,
        Helper::Shl => &LEFT_SHIFT,
        Helper::Shr => &RIGHT_SHIFT,
        Helper::Sar => &SIGNED_RIGHT_SHIFT,
    }
}

/// R12 times R13, modulo 2^16, bit by bit from the lowest of R12 on, until none is left.
static MULTIPLICATION: [u16; 11] = [
    0xee0e, // XOR R14,R14: the sum, and no carry
    0x100c, // RRC R12
    0x2801, // again: JNC on
    0x5d0e, // ADD R13,R14
    0x5d0d, // on: ADD R13,R13
    0x110c, // RRA R12
    0x23fb, // JNZ again
    0x2801, // JNC done
    0x5d0e, // ADD R13,R14: the highest bit
    0x4e0c, // done: MOV R14,R12
    0x4130, // RET
];

/// R12 divided by R13.
static DIVISION: [u16; 13] = [
    0x430e, // MOV #0,R14
    0x403f, 16, // MOV #16,R15
    0x5c0c, // again: ADD R12,R12
    0x6e0e, // ADDC R14,R14
    0x2c02, // JC take: 17 bits
    0x9d0e, // CMP R13,R14
    0x2802, // JNC on
    0x8d0e, // take: SUB R13,R14
    0x531c, // ADD #1,R12
    0x831f, // on: SUB #1,R15
    0x23f7, // JNZ again
    0x4130, // RET
];

/// The remainder of R12 divided by R13.
static REMAINDER: [u16; 14] = [
    0x430e, // MOV #0,R14
    0x403f, 16, // MOV #16,R15
    0x5c0c, // again: ADD R12,R12
    0x6e0e, // ADDC R14,R14
    0x2c02, // JC take
    0x9d0e, // CMP R13,R14
    0x2802, // JNC on
    0x8d0e, // take: SUB R13,R14
    0x531c, // ADD #1,R12
    0x831f, // on: SUB #1,R15
    0x23f7, // JNZ again
    0x4e0c, // MOV R14,R12: the remainder
    0x4130, // RET
];

/// R12 divided by R13, both signed: their magnitudes are divided, and the sign of R11 is that of the quotient.
static SIGNED_DIVISION: [u16; 27] = [
    0x4c0b, // MOV R12,R11
    0xed0b, // XOR R13,R11: negative where one operand is
    0x930c, // CMP #0,R12
    0x3402, // JGE next
    0xe33c, // XOR #-1,R12
    0x531c, // ADD #1,R12
    0x930d, // next: CMP #0,R13
    0x3402, // JGE divide
    0xe33d, // XOR #-1,R13
    0x531d, // ADD #1,R13
    0x430e, // divide: MOV #0,R14
    0x403f, 16, // MOV #16,R15
    0x5c0c, // again: ADD R12,R12
    0x6e0e, // ADDC R14,R14
    0x2c02, // JC take
    0x9d0e, // CMP R13,R14
    0x2802, // JNC on
    0x8d0e, // take: SUB R13,R14
    0x531c, // ADD #1,R12
    0x831f, // on: SUB #1,R15
    0x23f7, // JNZ again
    0x930b, // CMP #0,R11
    0x3402, // JGE done
    0xe33c, // XOR #-1,R12
    0x531c, // ADD #1,R12
    0x4130, // done: RET
];

/// The remainder of R12 divided by R13, both signed: that of the magnitudes, with the sign of R12.
static SIGNED_REMAINDER: [u16; 27] = [
    0x4c0b, // MOV R12,R11: the dividend's sign
    0x930c, // CMP #0,R12
    0x3402, // JGE next
    0xe33c, // XOR #-1,R12
    0x531c, // ADD #1,R12
    0x930d, // next: CMP #0,R13
    0x3402, // JGE divide
    0xe33d, // XOR #-1,R13
    0x531d, // ADD #1,R13
    0x430e, // divide: MOV #0,R14
    0x403f, 16, // MOV #16,R15
    0x5c0c, // again: ADD R12,R12
    0x6e0e, // ADDC R14,R14
    0x2c02, // JC take
    0x9d0e, // CMP R13,R14
    0x2802, // JNC on
    0x8d0e, // take: SUB R13,R14
    0x531c, // ADD #1,R12
    0x831f, // on: SUB #1,R15
    0x23f7, // JNZ again
    0x4e0c, // MOV R14,R12
    0x930b, // CMP #0,R11
    0x3402, // JGE done
    0xe33c, // XOR #-1,R12
    0x531c, // ADD #1,R12
    0x4130, // done: RET
];

/// R12 times 2 to the power of R13, modulo 2^16.
static LEFT_SHIFT: [u16; 7] = [
    0xf03d, 15, // AND #15,R13
    0x2403, // JZ done
    0x5c0c, // again: ADD R12,R12
    0x831d, // SUB #1,R13
    0x23fd, // JNZ again
    0x4130, // done: RET
];

/// An unsigned R12 shifted to the right by R13 places.
static RIGHT_SHIFT: [u16; 8] = [
    0xf03d, 15, // AND #15,R13
    0x2404, // JZ done
    0x530c, // again: ADD #0,R12
    0x100c, // RRC R12
    0x831d, // SUB #1,R13
    0x23fc, // JNZ again
    0x4130, // done: RET
];

/// A signed R12 shifted to the right by R13 places.
static SIGNED_RIGHT_SHIFT: [u16; 7] = [
    0xf03d, 15, // AND #15,R13
    0x2403, // JZ done
    0x110c, // again: RRA R12
    0x831d, // SUB #1,R13
    0x23fd, // JNZ again
    0x4130, // done: RET
];
