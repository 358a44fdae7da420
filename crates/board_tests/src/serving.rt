use base16::Regs;
use board_map::{SEGMENT_AT, Work, gate, slot_word, well_formed};
use fram::Fram;
use services::{Served, serve};
use std::process::Abort;
use undo_log::room;
use world::{TraceWorld, World};

/// Serves where the board allows it.
pub fn serves<R: Abort>(
    rt: &R,
    fram: &mut Fram,
    world: &mut TraceWorld,
    regs: &mut Regs,
    work: &mut Work,
    n: u16,
) -> Served {
    assert!(rt; n < 32);
    assert!(rt; well_formed(fram));
    assert!(rt; room(fram) >= 8);
    assert!(rt; slot_word(fram, gate(fram), SEGMENT_AT) == work.segment);
    assert!(rt; !work.block_open);
    assert!(rt; work.block_length == 0);
    assert!(rt; work.marks < u32::MAX);
    assert!(rt; work.commits < u32::MAX);
    assert!(rt; world.given() < world.spent());
    serve(fram, world, regs, work, n)
}

/// PC at the entry of service n, SP, 5 in R12, and R13 to R15.
pub fn registers(n: u16, sp: u16, [r13, r14, r15]: [u16; 3]) -> Regs {
    let pc = 0xff00 + 2 * (n % 32);
    Regs {
        r: [pc, sp, 0, 0, 0, 0, 0, 0, 0, 0, 0, 0, 5, r13, r14, r15],
    }
}
