ghost use Rattle.std.specs.Prelude.{◌<◌, ◌^◌, [], nat_lt};

use base16::{NoMemory, Regs};
use core430::{Denied, Memory, PlainMemory, Stepped, execute, fetch, step};
use std::alloc::Global;
use std::test::Fail;

/// Where the instruction stands.
const START: u16 = 0x8000;

/// Where the stack pointer is.
const TOP: u16 = 0x2ffe;

fn put_all(memory: &mut PlainMemory, words: &[(u16, u16)]) {
    for (address, word) in words {
        let _ = memory.put(*address / 2 * 2, *word);
    }
}

/// A memory with an instruction of three words and a few words of data.
fn board(alloc: Global, code: [u16; 3]) -> Result<PlainMemory, NoMemory> {
    let mut memory = PlainMemory::new(alloc)?;
    put_all(
        &mut memory,
        &[
            (START, code[0]),
            (START + 2, code[1]),
            (START + 4, code[2]),
            (0x3ffe, 0x7777),
            (0x4000, 0x1234),
            (0x4002, 0xabcd),
            (TOP, 0x9002),
        ],
    );
    Ok(memory)
}

/// Registers at the start, with a status, R12 and R13.
fn registers(status: u16, r12: u16, r13: u16) -> Regs {
    Regs {
        r: [
            START, TOP, status, 0x3333, 0x4444, 0, 0, 0, 0, 0, 0, 0, r12, r13, 0, 0xffff,
        ],
    }
}

/// First word, status, R12 and R13 before; status and R13 after.
const TWO_REGISTERS: [(u16, u16, u16, u16, u16, u16); 24] = [
    // MOV
    (0x4c0d, 0x0107, 0x1234, 0x5678, 0x0107, 0x1234),
    (0x4c4d, 0x0000, 0x12f4, 0x5678, 0x0000, 0x00f4),
    // ADD
    (0x5c0d, 0x0000, 0x7fff, 0x0001, 0x0104, 0x8000),
    (0x5c0d, 0x0000, 0x0001, 0xffff, 0x0003, 0x0000),
    (0x5c0d, 0x0000, 0x8000, 0x8000, 0x0103, 0x0000),
    (0x5c0d, 0xfee8, 0x0001, 0x0002, 0xfee8, 0x0003),
    (0x5c4d, 0x0000, 0x1280, 0x3480, 0x0103, 0x0000),
    (0x5c4d, 0x0000, 0x0001, 0xff7f, 0x0104, 0x0080),
    (0x5c4d, 0x0000, 0xff01, 0xff01, 0x0000, 0x0002),
    // ADDC
    (0x6c0d, 0x0001, 0x7fff, 0x0000, 0x0104, 0x8000),
    (0x6c0d, 0x0000, 0x7fff, 0x0000, 0x0000, 0x7fff),
    (0x6c0d, 0x0001, 0xffff, 0x0000, 0x0003, 0x0000),
    (0x6c0d, 0x0001, 0x8000, 0xffff, 0x0005, 0x8000),
    (0x6c4d, 0x0001, 0x007f, 0x0000, 0x0104, 0x0080),
    // SUBC
    (0x7c0d, 0x0000, 0x0001, 0x0001, 0x0004, 0xffff),
    (0x7c0d, 0x0001, 0x0001, 0x0001, 0x0003, 0x0000),
    (0x7c0d, 0x0000, 0x0000, 0x8000, 0x0101, 0x7fff),
    (0x7c0d, 0x0000, 0xffff, 0xffff, 0x0004, 0xffff),
    (0x7c4d, 0x0000, 0x0000, 0x1280, 0x0101, 0x007f),
    // SUB
    (0x8c0d, 0x0000, 0x0001, 0x8000, 0x0101, 0x7fff),
    (0x8c0d, 0x0000, 0x0001, 0x0000, 0x0004, 0xffff),
    (0x8c0d, 0x0000, 0x8000, 0x7fff, 0x0104, 0xffff),
    (0x8c0d, 0x0000, 0x0005, 0x0005, 0x0003, 0x0000),
    (0x8c4d, 0x0000, 0xff01, 0x1280, 0x0101, 0x007f),
];

#[test]
fn operators_of_two_registers(rt: HostRuntime) -> Result<(), Fail> {
    for (code, status, r12, r13, status_after, r13_after) in TWO_REGISTERS {
        let mut memory = board(rt.alloc(), [code, 0, 0])?;
        let mut regs = registers(status, r12, r13);
        assert_eq!(rt; step(&mut regs, &mut memory), Stepped::Next);
        let found = [regs.r[0], regs.r[2], regs.r[3], regs.r[12], regs.r[13]];
        assert_eq!(rt;
            found,
            [START + 2, status_after, 0x3333, r12, r13_after],
            "{code}"
        );
    }
    Ok(())
}

/// First word, status, R12 and R13 before; status and R13 after.
const BITS_AND_COMPARISONS: [(u16, u16, u16, u16, u16, u16); 18] = [
    // CMP
    (0x9c0d, 0x0000, 0x0001, 0x8000, 0x0101, 0x8000),
    (0x9c4d, 0x0000, 0x0012, 0x3412, 0x0003, 0x3412),
    // BIT
    (0xbc0d, 0x0001, 0x0f00, 0x00f0, 0x0002, 0x00f0),
    (0xbc0d, 0x0100, 0x8000, 0xc000, 0x0005, 0xc000),
    (0xbc4d, 0x0000, 0xff80, 0xff80, 0x0005, 0xff80),
    // BIC
    (0xcc0d, 0x0107, 0x00ff, 0x1234, 0x0107, 0x1200),
    (0xcc4d, 0x0000, 0x000f, 0x12ff, 0x0000, 0x00f0),
    // BIS
    (0xdc0d, 0x0107, 0x00f0, 0x1204, 0x0107, 0x12f4),
    (0xdc4d, 0x0000, 0x0f01, 0x1280, 0x0000, 0x0081),
    // XOR
    (0xec0d, 0x0000, 0x8001, 0x8000, 0x0101, 0x0001),
    (0xec0d, 0x0000, 0xffff, 0xffff, 0x0102, 0x0000),
    (0xec0d, 0x0000, 0x0f0f, 0x00ff, 0x0001, 0x0ff0),
    (0xec4d, 0x0000, 0x0080, 0xffff, 0x0101, 0x007f),
    (0xec4d, 0x0000, 0x8001, 0x8001, 0x0002, 0x0000),
    // AND
    (0xfc0d, 0x0000, 0x8f00, 0xffff, 0x0005, 0x8f00),
    (0xfc4d, 0x0000, 0xff0f, 0x12f0, 0x0002, 0x0000),
    // MOV #0,R3 and BIS #8,SR
    (0x4303, 0x0000, 0x0000, 0x0000, 0x0000, 0x0000),
    (0xd232, 0x0001, 0x0000, 0x0000, 0x0009, 0x0000),
];

#[test]
fn operators_of_bits_and_comparisons(rt: HostRuntime) -> Result<(), Fail> {
    for (code, status, r12, r13, status_after, r13_after) in BITS_AND_COMPARISONS {
        let mut memory = board(rt.alloc(), [code, 0, 0])?;
        let mut regs = registers(status, r12, r13);
        assert_eq!(rt; step(&mut regs, &mut memory), Stepped::Next);
        let found = [regs.r[0], regs.r[2], regs.r[3], regs.r[12], regs.r[13]];
        assert_eq!(rt;
            found,
            [START + 2, status_after, 0x3333, r12, r13_after],
            "{code}"
        );
    }
    Ok(())
}

/// First word, status and R13 before; status and R13 after.
const ONE_REGISTER: [(u16, u16, u16, u16, u16); 14] = [
    // RRC
    (0x100d, 0x0001, 0x0002, 0x0004, 0x8001),
    (0x100d, 0x0000, 0x0001, 0x0003, 0x0000),
    (0x100d, 0x0001, 0x0001, 0x0005, 0x8000),
    (0x100d, 0x0100, 0x0004, 0x0000, 0x0002),
    (0x104d, 0x0001, 0xff01, 0x0005, 0x0080),
    // SWPB
    (0x108d, 0x0107, 0x1234, 0x0107, 0x3412),
    // RRA
    (0x110d, 0x0000, 0x8001, 0x0005, 0xc000),
    (0x110d, 0x0000, 0x0001, 0x0003, 0x0000),
    (0x114d, 0x0000, 0xff80, 0x0004, 0x00c0),
    (0x114d, 0x0001, 0x8002, 0x0000, 0x0001),
    // SXT
    (0x118d, 0x0100, 0x1280, 0x0005, 0xff80),
    (0x118d, 0x0000, 0xff7f, 0x0001, 0x007f),
    (0x118d, 0x0000, 0xff00, 0x0002, 0x0000),
    // MOV #-1,R13
    (0x433d, 0x0000, 0x0000, 0x0000, 0xffff),
];

#[test]
fn operators_of_one_register(rt: HostRuntime) -> Result<(), Fail> {
    for (code, status, r13, status_after, r13_after) in ONE_REGISTER {
        let mut memory = board(rt.alloc(), [code, 0, 0])?;
        let mut regs = registers(status, 0, r13);
        assert_eq!(rt; step(&mut regs, &mut memory), Stepped::Next);
        let found = [regs.r[0], regs.r[2], regs.r[13]];
        assert_eq!(rt; found, [START + 2, status_after, r13_after], "{code}");
    }
    Ok(())
}

/// The first two words, R12 before and after, R13 after, the bytes of the instruction.
const SOURCES: [(u16, u16, u16, u16, u16, u16); 22] = [
    // R12, 2(R12), -2(R12), the index passing the end, &4002
    (0x4c0d, 0x0000, 0x4000, 0x4000, 0x4000, 2),
    (0x4c1d, 0x0002, 0x4000, 0x4000, 0xabcd, 4),
    (0x4c1d, 0xfffe, 0x4000, 0x4000, 0x7777, 4),
    (0x4c1d, 0x8000, 0xc000, 0xc000, 0x1234, 4),
    (0x421d, 0x4002, 0x4000, 0x4000, 0xabcd, 4),
    // @R12, @R12+, @R12+ of a byte
    (0x4c2d, 0x0000, 0x4000, 0x4000, 0x1234, 2),
    (0x4c3d, 0x0000, 0x4000, 0x4002, 0x1234, 2),
    (0x4c7d, 0x0000, 0x4000, 0x4001, 0x0034, 2),
    // #5678, #5678 of a byte, #0, #1, #2, #4, #8, #-1 of a byte
    (0x403d, 0x5678, 0x4000, 0x4000, 0x5678, 4),
    (0x407d, 0x5678, 0x4000, 0x4000, 0x0078, 4),
    (0x430d, 0x0000, 0x4000, 0x4000, 0x0000, 2),
    (0x431d, 0x0000, 0x4000, 0x4000, 0x0001, 2),
    (0x432d, 0x0000, 0x4000, 0x4000, 0x0002, 2),
    (0x422d, 0x0000, 0x4000, 0x4000, 0x0004, 2),
    (0x423d, 0x0000, 0x4000, 0x4000, 0x0008, 2),
    (0x437d, 0x0000, 0x4000, 0x4000, 0x00ff, 2),
    // bytes at 0(R12), 1(R12), 3(R12), at @R12 with R12 odd, and of SP and SR
    (0x4c5d, 0x0000, 0x4000, 0x4000, 0x0034, 4),
    (0x4c5d, 0x0001, 0x4000, 0x4000, 0x0012, 4),
    (0x4c5d, 0x0003, 0x4000, 0x4000, 0x00ab, 4),
    (0x4c6d, 0x0000, 0x4001, 0x4001, 0x0012, 2),
    (0x410d, 0x0000, 0x4000, 0x4000, 0x2ffe, 2),
    (0x420d, 0x0000, 0x4000, 0x4000, 0x0107, 2),
];

#[test]
fn sources(rt: HostRuntime) -> Result<(), Fail> {
    for (first, second, r12, r12_after, r13_after, size) in SOURCES {
        let mut memory = board(rt.alloc(), [first, second, 0])?;
        let mut regs = registers(0x0107, r12, 0x5555);
        assert_eq!(rt; step(&mut regs, &mut memory), Stepped::Next);
        let found = [regs.r[0], regs.r[2], regs.r[12], regs.r[13]];
        assert_eq!(rt;
            found,
            [START.wrapping_add(size), 0x0107, r12_after, r13_after],
            "{first}"
        );
    }
    Ok(())
}

/// The three words, the words at 4000 and 4002 afterwards, the status afterwards, the bytes of the instruction.
const DESTINATIONS: [([u16; 3], u16, u16, u16, u16); 12] = [
    // MOV R12,2(R13) and MOV R12,&4000; of bytes to 0(R13), 1(R13) and &4003
    ([0x4c8d, 0x0002, 0], 0x1234, 0x1155, 0x0000, 4),
    ([0x4c82, 0x4000, 0], 0x1155, 0xabcd, 0x0000, 4),
    ([0x4ccd, 0x0000, 0], 0x1255, 0xabcd, 0x0000, 4),
    ([0x4ccd, 0x0001, 0], 0x5534, 0xabcd, 0x0000, 4),
    ([0x4cc2, 0x4003, 0], 0x1234, 0x55cd, 0x0000, 4),
    // ADD #1234,&4002 and ADD.B R12,&4003
    ([0x50b2, 0x1234, 0x4002], 0x1234, 0xbe01, 0x0004, 6),
    ([0x5cc2, 0x4003, 0], 0x1234, 0x00cd, 0x0003, 4),
    // CMP R12,0(R13)
    ([0x9c8d, 0x0000, 0], 0x1234, 0xabcd, 0x0001, 4),
    // RRA &4002, RRC.B @R13, SWPB 2(R13), SXT @R13
    ([0x1112, 0x4002, 0], 0x1234, 0xd5e6, 0x0005, 4),
    ([0x106d, 0, 0], 0x121a, 0xabcd, 0x0000, 2),
    ([0x109d, 0x0002, 0], 0x1234, 0xcdab, 0x0000, 4),
    ([0x11ad, 0, 0], 0x0034, 0xabcd, 0x0001, 2),
];

#[test]
fn destinations_in_memory(rt: HostRuntime) -> Result<(), Fail> {
    for (code, first, second, status, size) in DESTINATIONS {
        let mut memory = board(rt.alloc(), code)?;
        let mut regs = registers(0, 0x1155, 0x4000);
        assert_eq!(rt; step(&mut regs, &mut memory), Stepped::Next);
        let found = [
            memory.get(0x4000),
            memory.get(0x4002),
            memory.get(0x3ffe),
            regs.r[0],
            regs.r[2],
            regs.r[13],
        ];
        assert_eq!(rt;
            found,
            [
                first,
                second,
                0x7777,
                START.wrapping_add(size),
                status,
                0x4000
            ],
            "{code:?}"
        );
    }
    Ok(())
}

/// The word, the status, PC afterwards.
const JUMPS: [(u16, u16, u16); 22] = [
    (0x2002, 0x0000, 0x8006),
    (0x2002, 0x0002, 0x8002),
    (0x2402, 0x0002, 0x8006),
    (0x2402, 0x0000, 0x8002),
    (0x2802, 0x0000, 0x8006),
    (0x2802, 0x0001, 0x8002),
    (0x2c02, 0x0001, 0x8006),
    (0x2c02, 0x0000, 0x8002),
    (0x3002, 0x0004, 0x8006),
    (0x3002, 0x0100, 0x8002),
    (0x3402, 0x0000, 0x8006),
    (0x3402, 0x0104, 0x8006),
    (0x3402, 0x0004, 0x8002),
    (0x3402, 0x0100, 0x8002),
    (0x3802, 0x0004, 0x8006),
    (0x3802, 0x0100, 0x8006),
    (0x3802, 0x0000, 0x8002),
    (0x3802, 0x0104, 0x8002),
    (0x3c02, 0x0000, 0x8006),
    (0x3fff, 0x0000, 0x8000),
    (0x3e00, 0x0000, 0x7c02),
    (0x3dff, 0x0000, 0x8400),
];

#[test]
fn jumps(rt: HostRuntime) -> Result<(), Fail> {
    for (code, status, pc) in JUMPS {
        let mut memory = board(rt.alloc(), [code, 0, 0])?;
        let mut regs = registers(status, 1, 2);
        assert_eq!(rt; step(&mut regs, &mut memory), Stepped::Next);
        assert_eq!(rt; [regs.r[0], regs.r[2]], [pc, status], "{code} at {status}");
    }
    Ok(())
}

/// The first two words, the answer, PC, SP, R12 and the word at 2FFC afterwards.
const STACK_AND_SERVICES: [(u16, u16, Stepped, [u16; 4]); 15] = [
    // PUSH R13, PUSH #5678, PUSH @R12+, PUSH SR
    (0x120d, 0, Stepped::Next, [0x8002, 0x2ffc, 0x4000, 0x9000]),
    (
        0x1230,
        0x5678,
        Stepped::Next,
        [0x8004, 0x2ffc, 0x4000, 0x5678],
    ),
    (0x123c, 0, Stepped::Next, [0x8002, 0x2ffc, 0x4002, 0x1234]),
    (0x1202, 0, Stepped::Next, [0x8002, 0x2ffc, 0x4000, 0x0003]),
    // CALL #9000, CALL R13, CALL @R12, CALL 2(R12)
    (
        0x12b0,
        0x9000,
        Stepped::Next,
        [0x9000, 0x2ffc, 0x4000, 0x8004],
    ),
    (0x128d, 0, Stepped::Next, [0x9000, 0x2ffc, 0x4000, 0x8002]),
    (0x12ac, 0, Stepped::Next, [0x1234, 0x2ffc, 0x4000, 0x8002]),
    (
        0x129c,
        0x0002,
        Stepped::Next,
        [0xabcd, 0x2ffc, 0x4000, 0x8004],
    ),
    // MOV @SP+,PC and MOV.B @SP+,R13
    (0x4130, 0, Stepped::Next, [0x9002, 0x3000, 0x4000, 0]),
    (0x417d, 0, Stepped::Next, [0x8002, 0x3000, 0x4000, 0]),
    // MOV #FF00,PC and so on, CALL #FF04
    (
        0x4030,
        0xff00,
        Stepped::Service { n: 0 },
        [0xff00, 0x2ffe, 0x4000, 0],
    ),
    (
        0x4030,
        0xff3e,
        Stepped::Service { n: 31 },
        [0xff3e, 0x2ffe, 0x4000, 0],
    ),
    (0x4030, 0xff40, Stepped::Next, [0xff40, 0x2ffe, 0x4000, 0]),
    (0x4030, 0xff01, Stepped::Next, [0xff01, 0x2ffe, 0x4000, 0]),
    (
        0x12b0,
        0xff04,
        Stepped::Service { n: 2 },
        [0xff04, 0x2ffc, 0x4000, 0x8004],
    ),
];

#[test]
fn the_stack_and_services(rt: HostRuntime) -> Result<(), Fail> {
    for (first, second, answer, after) in STACK_AND_SERVICES {
        let mut memory = board(rt.alloc(), [first, second, 0])?;
        let mut regs = registers(3, 0x4000, 0x9000);
        assert_eq!(rt; step(&mut regs, &mut memory), answer);
        let found = [regs.r[0], regs.r[1], regs.r[12], memory.get(0x2ffc)];
        assert_eq!(rt; found, after, "{first} {second}");
    }
    Ok(())
}

/// The first two words, PC, SP, R12 and R13, the address that is answered.
const REFUSED: [(u16, u16, [u16; 4], u16); 15] = [
    // PC odd
    (0x4303, 0, [0x8001, 0x2ffe, 0, 0], 0x8001),
    // DADD, RETI, operator 7 of one operand, MOV PC,R13, ADD #0,PC, MOV.B to SP, ADD R12,SR, MOV @R12+,R12
    (0xa506, 0, [0x8000, 0x2ffe, 0, 0], 0x8000),
    (0x1300, 0, [0x8000, 0x2ffe, 0, 0], 0x8000),
    (0x138d, 0, [0x8000, 0x2ffe, 0, 0], 0x8000),
    (0x400d, 0, [0x8000, 0x2ffe, 0, 0], 0x8000),
    (0x5300, 0, [0x8000, 0x2ffe, 0, 0], 0x8000),
    (0x4c41, 0, [0x8000, 0x2ffe, 0, 0], 0x8000),
    (0x5c02, 0, [0x8000, 0x2ffe, 0, 0], 0x8000),
    (0x4c3c, 0, [0x8000, 0x2ffe, 0, 0], 0x8000),
    // MOV @R12,R13; MOV R12,1(R13); MOV @R12,1(R13); PUSH R13
    (0x4c2d, 0, [0x8000, 0x2ffe, 0x4001, 0], 0x4001),
    (0x4c8d, 1, [0x8000, 0x2ffe, 0, 0x4000], 0x4001),
    (0x4cad, 1, [0x8000, 0x2ffe, 0x4003, 0x4000], 0x4003),
    (0x120d, 0, [0x8000, 0x2fff, 0, 0], 0x2ffd),
    // BIS #16,SR and MOV #16,SR
    (0xd032, 0x0010, [0x8000, 0x2ffe, 0, 0], 0x8000),
    (0x4032, 0x0010, [0x8000, 0x2ffe, 0, 0], 0x8000),
];

#[test]
fn what_is_refused(rt: HostRuntime) -> Result<(), Fail> {
    for (first, second, [pc, sp, r12, r13], address) in REFUSED {
        let mut memory = board(rt.alloc(), [first, second, 0])?;
        let mut regs = registers(1, r12, r13);
        regs.r[0] = pc;
        regs.r[1] = sp;
        let before = regs;
        assert_eq!(rt;
            step(&mut regs, &mut memory),
            Stepped::Wild { address },
            "{first} {second}"
        );
        assert_eq!(rt; regs, before, "{first} {second}");
        assert_eq!(rt;
            [memory.get(0x4000), memory.get(0x4002), memory.get(0x2ffc)],
            [0x1234, 0xabcd, 0],
            "{first}"
        );
    }
    Ok(())
}

/// A memory that lets nothing below 4000 be written.
#[derive(Drop)]
struct Guarded {
    plain: PlainMemory,
}

impl Memory for Guarded {
    ghost use Rattle.base16.specs.Memory.{words_of};

    ghost words = { λ g. words_of g.plain };

    ghost denied = { λ g a. nat_lt a 16384 };

    ghost lender = { λ g. 0 };

    ghost aside = { λ g. [] };

    fn get(&self, address: u16) -> u16 {
        self.plain.get(address)
    }

    fn put(&mut self, address: u16, word: u16) -> Result<(), Denied> {
        if address < 0x4000 {
            Err(Denied)
        } else {
            self.plain.put(address, word)
        }
    }
}

/// The first two words, SP, what is answered.
const DENIED: [(u16, u16, u16, Stepped); 6] = [
    // MOV R12,&3FFE and MOV.B R12,&3FFF; MOV R12,&4000
    (0x4c82, 0x3ffe, 0x5000, Stepped::Wild { address: 0x3ffe }),
    (0x4cc2, 0x3fff, 0x5000, Stepped::Wild { address: 0x3ffe }),
    (0x4c82, 0x4000, 0x5000, Stepped::Next),
    // PUSH R12 and CALL #9000
    (0x120c, 0, 0x4000, Stepped::Wild { address: 0x3ffe }),
    (0x12b0, 0x9000, 0x4000, Stepped::Wild { address: 0x3ffe }),
    (0x120c, 0, 0x4002, Stepped::Next),
];

#[test]
fn a_denied_write_changes_nothing(rt: HostRuntime) -> Result<(), Fail> {
    for (first, second, sp, answer) in DENIED {
        let mut memory = Guarded {
            plain: board(rt.alloc(), [first, second, 0])?,
        };
        let mut regs = registers(1, 0x1111, 0x2222);
        regs.r[1] = sp;
        let before = regs;
        assert_eq!(rt; step(&mut regs, &mut memory), answer, "{first} {second}");
        let goes = answer == Stepped::Next;
        assert_eq!(rt; goes || regs == before, true);
        let found = [memory.get(0x3ffe), memory.get(0x4000)];
        assert_eq!(rt;
            found,
            [0x7777, if goes { 0x1111 } else { 0x1234 }],
            "{first}"
        );
    }
    Ok(())
}

#[test]
fn a_plain_memory_keeps_each_word(rt: HostRuntime) -> Result<(), Fail> {
    let mut memory = PlainMemory::new(rt.alloc())?;
    assert_eq!(rt; memory.put(0, 7), Ok(()));
    assert_eq!(rt; memory.put(0xfffe, 8), Ok(()));
    for (address, word) in [(0, 7), (2, 0), (0xfffc, 0), (0xfffe, 8)] {
        assert_eq!(rt; memory.get(address), word, "at {address}");
    }
    Ok(())
}

/// The words of an instruction, how many it takes, and PC, R12, R13 and the word at 4000 after it.
const DECODED: [([u16; 3], u8, [u16; 4]); 5] = [
    // MOV R12,R13; MOV #3,R12; MOV #5,&4000; JMP to itself; RRA R13
    ([0x4c0d, 0, 0], 1, [0x8002, 0x1111, 0x1111, 0x1234]),
    ([0x403c, 3, 0], 2, [0x8004, 3, 0x2222, 0x1234]),
    ([0x40b2, 5, 0x4000], 3, [0x8006, 0x1111, 0x2222, 5]),
    ([0x3fff, 0, 0], 1, [0x8000, 0x1111, 0x2222, 0x1234]),
    ([0x110d, 0, 0], 1, [0x8002, 0x1111, 0x1111, 0x1234]),
];

#[test]
fn an_instruction_decoded_beforehand_needs_its_words_no_more(rt: HostRuntime) -> Result<(), Fail> {
    for (code, size, [pc, r12, r13, word]) in DECODED {
        let mut memory = board(rt.alloc(), code)?;
        let ready = fetch(START, &memory);
        put_all(&mut memory, &[(START, 0), (START + 2, 0), (START + 4, 0)]);
        assert_eq!(rt; fetch(START, &memory), None);
        let mut regs = registers(0, 0x1111, 0x2222);
        if let Some(ready) = ready {
            assert_eq!(rt; ready.len, size);
            assert_eq!(rt; execute(ready, &mut regs, &mut memory), Stepped::Next);
        }
        let found = regs.r;
        assert_eq!(rt;
            [found[0], found[12], found[13], memory.get(0x4000)],
            [pc, r12, r13, word]
        );
    }
    Ok(())
}
