use base16::{NoMemory, Regs};
use core430::{Memory, PlainMemory, Stepped};
use run430::run;
use std::alloc::Global;
use std::test::Fail;

/// Where the code stands.
const START: u16 = 0x8000;

/// MOV #3,R12; ADD R12,R12; PUSH R12; CALL #FF04; a word outside the table.
const CODE: [u16; 7] = [0x403c, 3, 0x5c0c, 0x120c, 0x12b0, 0xff04, 0x0000];

fn board(alloc: Global, code: &[u16]) -> Result<PlainMemory, NoMemory> {
    let mut memory = PlainMemory::new(alloc)?;
    let mut address = START;
    for word in code {
        let _ = memory.put(address / 2 * 2, *word);
        address = address.wrapping_add(2);
    }
    Ok(memory)
}

fn registers(pc: u16) -> Regs {
    Regs {
        r: [pc, 0x3000, 0, 0, 0, 0, 0, 0, 0, 0, 0, 0, 1, 0, 0, 0],
    }
}

/// Where the run begins and how many steps it may make; what it comes to, PC, SP and R12 then.
const RUNS: [(u16, u32, Stepped, u16, u16, u16); 8] = [
    (START, 0, Stepped::Next, START, 0x3000, 1),
    (START, 1, Stepped::Next, 0x8004, 0x3000, 3),
    (START, 2, Stepped::Next, 0x8006, 0x3000, 6),
    (START, 3, Stepped::Next, 0x8008, 0x2ffe, 6),
    (START, 4, Stepped::Service { n: 2 }, 0xff04, 0x2ffc, 6),
    (START, 9, Stepped::Service { n: 2 }, 0xff04, 0x2ffc, 6),
    (
        0x800c,
        1,
        Stepped::Wild { address: 0x800c },
        0x800c,
        0x3000,
        1,
    ),
    (
        0x800c,
        7,
        Stepped::Wild { address: 0x800c },
        0x800c,
        0x3000,
        1,
    ),
];

#[test]
fn a_run_stops_where_a_step_does(rt: HostRuntime) -> Result<(), Fail> {
    for (pc, steps, answer, to, stack, value) in RUNS {
        let mut memory = board(rt.alloc(), &CODE)?;
        let mut regs = registers(pc);
        assert_eq!(rt;
            run(steps, &mut regs, &mut memory),
            answer,
            "{steps} from {pc}"
        );
        assert_eq!(rt;
            [regs.r[0], regs.r[1], regs.r[12]],
            [to, stack, value],
            "{steps} from {pc}"
        );
    }
    Ok(())
}
