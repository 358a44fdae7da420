use base16::{NoMemory, Regs};
use core430::{Memory, PlainMemory};
use rt430::{Helper, routine};
use run430::run;
use std::alloc::Global;
use std::test::Fail;

/// Where the routine stands, its return word and where that leads.
const START: u16 = 0x8000;

const STACK: u16 = 0x3000;

const BACK: u16 = 0x9000;

/// What a call of a routine came to.
#[derive(Clone, Copy)]
struct Called {
    /// R12 at the return, and 0xdead where it did not come back with what it keeps within 400 steps, or SP rose before.
    answer: u16,
    /// The steps up to the return.
    steps: u16,
}

/// A call of these words with two arguments. R3 to R11, R14 and R15 hold their numbers, and SR bits 3 and 6.
fn call(alloc: Global, words: &[u16], x: u16, y: u16) -> Result<Called, NoMemory> {
    let mut memory = PlainMemory::new(alloc)?;
    let mut address = START;
    for word in words {
        let _ = memory.put(address / 2 * 2, *word);
        address = address.wrapping_add(2);
    }
    let _ = memory.put(STACK, BACK);
    let mut regs = Regs {
        r: [
            START, STACK, 0x48, 3, 4, 5, 6, 7, 8, 9, 10, 11, x, y, 14, 15,
        ],
    };
    let mut steps = 0u16;
    let mut steady = true;
    for _ in 0..400 {
        if regs.r[0] != BACK {
            let _ = run(1, &mut regs, &mut memory);
            steps = steps.saturating_add(1);
            steady = steady && (regs.r[0] == BACK || regs.r[1] <= STACK);
        }
    }
    let back = regs.r[0] == BACK && regs.r[1] == STACK + 2;
    let temporaries = regs.r[4] == 4 && regs.r[5] == 5 && regs.r[6] == 6 && regs.r[7] == 7;
    let others = regs.r[3] == 3 && regs.r[8] == 8 && regs.r[9] == 9 && regs.r[10] == 10;
    let kept = temporaries && others && regs.r[2] & 0xfef8 == 0x48;
    let answer = if back && kept && steady {
        regs.r[12]
    } else {
        0xdead
    };
    Ok(Called { answer, steps })
}

/// R12 after such a call.
fn answer(alloc: Global, words: &[u16], x: u16, y: u16) -> Result<u16, NoMemory> {
    Ok(call(alloc, words, x, y)?.answer)
}

/// Factors and product modulo 65536, worked by hand.
const PRODUCTS: [(u16, u16, u16); 8] = [
    (0, 0, 0),
    (1, 65535, 65535),
    (65535, 65535, 1),
    (300, 300, 24464),
    (32767, 2, 65534),
    (32768, 2, 0),
    (32769, 3, 32771),
    (12345, 6789, 55197),
];

/// Multipliers, and the steps that their products take, counted by hand along the routine: 2 to begin, 4 or 5 for each
/// further bit, 3 or 4 to end.
const PRODUCT_STEPS: [(u16, u16); 6] = [
    (0, 9),
    (1, 10),
    (2, 10),
    (3, 11),
    (32768, 66),
    (65535, 81),
];

/// Number, divisor, quotient and remainder.
const QUOTIENTS: [(u16, u16, u16, u16); 10] = [
    (0, 1, 0, 0),
    (7, 2, 3, 1),
    (65535, 1, 65535, 0),
    (65535, 65535, 1, 0),
    (65534, 65535, 0, 65534),
    (32768, 32769, 0, 32768),
    (65535, 32768, 1, 32767),
    (65535, 40000, 1, 25535),
    (50000, 7, 7142, 6),
    (1000, 10, 100, 0),
];

/// Left and right operand, and their quotient and remainder as signed numbers. All are words: 65535 is -1, and 32768 is
/// -32768.
const SIGNED_QUOTIENTS: [(u16, u16, u16, u16); 24] = [
    (0, 1, 0, 0),
    (0, 65535, 0, 0),
    (1, 65535, 65535, 0),
    (65535, 1, 65535, 0),
    (65535, 65535, 1, 0),
    (7, 2, 3, 1),
    (65529, 2, 65533, 65535), // -7 / 2 is -3, and -1 is left
    (7, 65534, 65533, 1), // 7 / -2 is -3, and 1 is left
    (65529, 65534, 3, 65535), // -7 / -2 is 3, and -1 is left
    (32767, 1, 32767, 0),
    (32767, 65535, 32769, 0),
    (32767, 32767, 1, 0),
    (32767, 32768, 0, 32767),
    (32768, 1, 32768, 0),
    (32768, 2, 49152, 0),
    (32768, 32767, 65535, 65535),
    (32768, 32768, 1, 0),
    (32769, 32768, 0, 32769),
    (65535, 32768, 0, 65535),
    (32768, 3, 54614, 65534), // -32768 / 3 is -10922, and -2 is left
    (32768, 65533, 10922, 65534),
    (1024, 65528, 65408, 0), // 1024 / -8 is -128
    (1023, 65528, 65409, 7), // 1023 / -8 is -127, and 7 are left
    (64512, 255, 65532, 65532), // -1024 / 255 is -4, and -4 is left
];

/// Value, count, and the value shifted to the left, to the right and to the right as a signed number.
const SHIFTED: [(u16, u16, u16, u16, u16); 8] = [
    (1, 15, 32768, 0, 0),
    (32768, 15, 0, 1, 65535),
    (65535, 4, 65520, 4095, 65535),
    (0x1234, 0, 0x1234, 0x1234, 0x1234),
    (65528, 2, 65504, 16382, 65534),
    (65529, 1, 65522, 32764, 65532),
    (32767, 14, 49152, 1, 1),
    (0xff00, 8, 0, 0xff, 0xffff),
];

#[test]
fn products_are_those_worked_by_hand(rt: HostRuntime) -> Result<(), Fail> {
    for (x, y, product) in PRODUCTS {
        assert_eq!(rt;
            answer(rt.alloc(), routine(Helper::Mul16), x, y)?,
            product,
            "{x} * {y}"
        );
    }
    Ok(())
}

#[test]
fn a_product_ends_with_the_highest_bit_of_its_multiplier(rt: HostRuntime) -> Result<(), Fail> {
    for (x, steps) in PRODUCT_STEPS {
        assert_eq!(rt;
            call(rt.alloc(), routine(Helper::Mul16), x, 54321)?.steps,
            steps,
            "{x} * 54321"
        );
    }
    Ok(())
}

#[test]
fn quotients_are_those_worked_by_hand(rt: HostRuntime) -> Result<(), Fail> {
    for (x, y, quotient, rest) in QUOTIENTS {
        assert_eq!(rt;
            answer(rt.alloc(), routine(Helper::Udiv16), x, y)?,
            quotient,
            "{x} / {y}"
        );
        assert_eq!(rt;
            answer(rt.alloc(), routine(Helper::Umod16), x, y)?,
            rest,
            "{x} % {y}"
        );
    }
    Ok(())
}

#[test]
fn signed_quotients_are_those_worked_by_hand(rt: HostRuntime) -> Result<(), Fail> {
    for (x, y, quotient, rest) in SIGNED_QUOTIENTS {
        assert_eq!(rt;
            answer(rt.alloc(), routine(Helper::Sdiv16), x, y)?,
            quotient,
            "{x} / {y}"
        );
        assert_eq!(rt;
            answer(rt.alloc(), routine(Helper::Smod16), x, y)?,
            rest,
            "{x} % {y}"
        );
    }
    Ok(())
}

#[test]
fn shifts_are_those_worked_by_hand(rt: HostRuntime) -> Result<(), Fail> {
    for (x, count, left, right, signed_right) in SHIFTED {
        assert_eq!(rt;
            answer(rt.alloc(), routine(Helper::Shl), x, count)?,
            left,
            "{x} << {count}"
        );
        assert_eq!(rt;
            answer(rt.alloc(), routine(Helper::Shr), x, count)?,
            right,
            "{x} >> {count}"
        );
        assert_eq!(rt;
            answer(rt.alloc(), routine(Helper::Sar), x, count)?,
            signed_right,
            "{x} >> {count}"
        );
    }
    Ok(())
}
