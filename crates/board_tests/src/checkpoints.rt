ghost use Rattle.std.specs.Prelude.{◌≡◌, ◌^◌, ◌-◌, ◌<◌, ◌≤◌};

use crate::support::{Board, START, difference, memory, set, world_with};
use base16::{Regs, Words};
use board_map::{Work, block_entry, is_loggable, recovered_word, slot_word, well_formed};
use ckpt::commit;
use fram::Fram;
use std::process::Abort;
use std::test::Fail;
use world::{Off, TraceWorld, World};

/// Commits where the board allows it: the block log has at most one entry.
fn commits<R: Abort>(
    rt: &R,
    fram: &mut Fram,
    world: &mut TraceWorld,
    regs: &Regs,
    work: &mut Work,
) -> Result<(), Off> {
    assert!(rt; well_formed(fram));
    assert!(rt; is_loggable(block_entry(fram, 0).0));
    assert!(rt; work.segment < 32);
    assert!(rt; work.block_length <= 1);
    assert!(rt; work.commits < u32::MAX);
    commit(fram, world, regs, work)
}

const REGISTERS: [u16; 16] = [
    0x8010, 0x21f0, 1, 0, 4, 5, 6, 7, 8, 9, 10, 11, 12, 13, 14, 15,
];

/// Segment 1 works in an open block with one entry; 65,538 marks and 131,071 commits.
const WORK: Work = Work {
    segment: 1,
    block_open: true,
    block_length: 1,
    marks: 0x10002,
    commits: 0x1ffff,
    since: 0,
};

/// Slot 1 is current, its working segment is 0, and the undo log has the old word 7 of 4000; R15 is 5, three marks and
/// four commits were made.
const CURRENT: [(u16, u16); 14] = [
    (0x1000, 1),
    (0x1002, 0x5443),
    (0x1004, 1),
    (0x1010, 9),
    (0x1012, 1),
    (0x1400, 0x4000),
    (0x1402, 7),
    (0x1240, 11),
    (0x133e, 12),
    (0x1340, 0x8000),
    (0x1342, 0x2100),
    (0x135e, 5),
    (0x1366, 3),
    (0x136a, 4),
];

/// The words of the segments, the block log, an output length, data and code.
const STANDING: [(u16, u16); 13] = [
    (0x1800, 0x4000),
    (0x1802, 7),
    (0x1804, 99),
    (0x1a00, 2),
    (0x2000, 21),
    (0x20fe, 22),
    (0x2100, 23),
    (0x21fe, 24),
    (0x2200, 25),
    (0x4000, 8),
    (0x4002, 31),
    (0x8000, 41),
    (0xf000, 51),
];

/// The last 27 writes of the commit: registers, state words with a clock of 70,000 ms, count, gate. The first 128 are the
/// words of segment 1, from 1100 on.
const LAST_WRITES: [(u16, u16); 27] = [
    (0x1200, 0x8010),
    (0x1202, 0x21f0),
    (0x1204, 1),
    (0x1206, 0),
    (0x1208, 4),
    (0x120a, 5),
    (0x120c, 6),
    (0x120e, 7),
    (0x1210, 8),
    (0x1212, 9),
    (0x1214, 10),
    (0x1216, 11),
    (0x1218, 12),
    (0x121a, 13),
    (0x121c, 14),
    (0x121e, 15),
    (0x1220, 1),
    (0x1222, 1),
    (0x1224, 1),
    (0x1226, 2),
    (0x1228, 1),
    (0x122a, 0),
    (0x122c, 2),
    (0x122e, 4464),
    (0x1230, 1),
    (0x1010, 0),
    (0x1000, 0),
];

/// Addresses on both sides of each border of what lives, with the words to which they recover before the commit and after.
const PLACES: [(u16, u16, u16); 14] = [
    (0x1000, 0, 0),
    (0x1800, 0, 0x4000),
    (0x1802, 0, 7),
    (0x1804, 0, 0),
    (0x1a00, 2, 2),
    (0x2000, 11, 21),
    (0x20fe, 12, 22),
    (0x2100, 0, 23),
    (0x21fe, 0, 24),
    (0x2200, 0, 0),
    (0x4000, 7, 8),
    (0x4002, 31, 31),
    (0x8000, 41, 41),
    (0xf000, 0, 0),
];

/// The memory in which so many writes of the commit were made, at most 155.
fn after<R: Abort + AllocGlobal>(rt: &R, writes: usize) -> Result<Fram, Fail> {
    let mut fram = memory(rt, &CURRENT)?;
    set(rt, &mut fram, &STANDING);
    if writes >= 1 {
        fram.poke(0x1100, 23);
    }
    if writes >= 128 {
        assert!(rt; writes <= 155);
        fram.poke(0x11fe, 24);
        set(rt, &mut fram, &LAST_WRITES[..writes - 128]);
    }
    Ok(fram)
}

/// The memory before a commit, the one after its first writes, one a tick, and a world with so many ticks left.
fn board_with<R: Abort + AllocGlobal>(rt: &R, ticks: usize) -> Result<Board, Fail> {
    assert!(rt; ticks <= 155);
    let fram = after(rt, 0)?;
    let expected = after(rt, ticks)?;
    let world = world_with(rt, ticks as u32)?;
    Ok(Board {
        fram,
        expected,
        world,
    })
}

#[test]
fn a_commit_cut_at_every_tick_leaves_one_of_two_states(rt: HostRuntime) -> Result<(), Fail> {
    for ticks in 0..156usize {
        let mut board = board_with(&rt, ticks)?;
        let mut work = WORK;
        let result = commits(
            &rt,
            &mut board.fram,
            &mut board.world,
            &Regs { r: REGISTERS },
            &mut work,
        );
        assert_eq!(rt; result.is_ok(), ticks == 155, "with {ticks}");
        assert_eq!(rt;
            [work.commits, work.since],
            if ticks == 155 {
                [0x20000, 400]
            } else {
                [0x1ffff, 0]
            }
        );
        assert_eq!(rt;
            difference(&board.fram, &board.expected),
            None,
            "with {ticks}"
        );
        assert!(rt; well_formed(&board.fram));
        for (address, before, behind) in PLACES {
            let word = if ticks == 155 { behind } else { before };
            assert_eq!(rt;
                recovered_word(&board.fram, address),
                word,
                "at {address} with {ticks}"
            );
        }
    }
    Ok(())
}

#[test]
fn a_commit_from_the_start_needs_155_ticks(rt: HostRuntime) -> Result<(), Fail> {
    for (ticks, number) in [(154, 0), (155, 1)] {
        let mut fram = memory(&rt, &START)?;
        fram.poke(0x1800, 0x4000);
        fram.poke(0x20fe, 0x8004);
        let mut world = world_with(&rt, ticks)?;
        let mut work = Work {
            segment: 0,
            block_open: false,
            block_length: 0,
            marks: 1,
            commits: 0,
            since: 0,
        };
        let result = commits(
            &rt,
            &mut fram,
            &mut world,
            &Regs { r: REGISTERS },
            &mut work,
        );
        assert_eq!(rt; result.is_ok(), number == 1, "with {ticks}");
        assert_eq!(rt; work.commits, number, "with {ticks}");
        // the gate, and the commit number in the slot that it names
        let slot = fram.word(0x1000);
        assert!(rt; slot < 2);
        assert_eq!(rt;
            [slot, slot_word(&fram, slot, 149)],
            [number as u16, number as u16],
            "with {ticks}"
        );
        assert!(rt; well_formed(&fram));
        assert_eq!(rt;
            recovered_word(&fram, 0x20fe),
            if number == 1 { 0x8004 } else { 0 }
        );
    }
    Ok(())
}
