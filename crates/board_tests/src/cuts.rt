use crate::serving::{registers, serves};
use crate::support::{difference, memory, set};
use base16::{EndKind, Regs, Words};
use board_map::{DATA, DATA_END, OUTPUTS, OUTPUTS_END, SEGMENTS, Work, well_formed};
use boot::boot;
use fram::Fram;
use services::{Committed, Served};
use std::process::Abort;
use std::test::Fail;
use world::{Off, TraceWorld, World, parse_trace};

/// A service, what it finds and what it comes to.
#[derive(Clone, Copy)]
struct Row {
    n: u16,
    /// The working segment, 0 or 1; SP; and R13 to R15.
    segment: u16,
    sp: u16,
    arguments: [u16; 3],
    /// How many entries of the undo log are valid.
    entries: u16,
    /// The ticks since the last commit; the period is 100.
    since: u32,
    /// What it writes before its commit, one word a tick.
    writes: &'static [(u16, u16)],
    /// How many entries there are just before its commit, if it makes one.
    log: Option<u16>,
    /// The working segment, PC, SP and R12 after it.
    after: [u16; 4],
    /// Whether the run is over.
    ends: bool,
}

/// A row for a service in segment 0 with one valid entry, that goes on there at 8010 and commits nothing.
const PLAIN: Row = Row {
    n: 3,
    segment: 0,
    sp: 0x20f0,
    arguments: [7, 0x4000, 0],
    entries: 1,
    since: 0,
    writes: &[],
    log: None,
    after: [0, 0x8010, 0x20f2, 5],
    ends: false,
};

/// The control words and the slot: PC 8004, SP 20F8, 15 in R15, five marks and two commits.
const SLOT: [(u16, u16); 7] = [
    (0x1002, 0x5443),
    (0x1004, 1),
    (0x1200, 0x8004),
    (0x1202, 0x20f8),
    (0x121e, 15),
    (0x1226, 5),
    (0x122a, 2),
];

/// The words that lived at the last commit, outside the working segment.
const LIVED: [(u16, u16); 7] = [
    (0x1a00, 1),
    (0x1a02, 50),
    (0x4000, 9),
    (0x4002, 31),
    (0x4004, 0x1234),
    (0x7ffe, 5),
    (0x8000, 41),
];

/// The slot's copy of segment 0, the words of segment 0 at the last commit, and those that instructions wrote since then.
const SEGMENT_0: [&[(u16, u16)]; 3] = [
    &[(0x1110, 21), (0x11fe, 22)],
    &[(0x2010, 21), (0x20fe, 22)],
    &[
        (0x2010, 0x1234),
        (0x20f0, 0x8010),
        (0x20f2, 0x8020),
        (0x20fe, 0x8004),
    ],
];

/// The same where segment 1 works.
const SEGMENT_1: [&[(u16, u16)]; 3] = [
    &[(0x1110, 21), (0x11fe, 0x20f2)],
    &[
        (0x20f2, 0x8020),
        (0x20f8, 77),
        (0x2110, 21),
        (0x21fe, 0x20f2),
    ],
    &[(0x2110, 0x1234), (0x210c, 0x8010)],
];

/// The memory at the last commit, as a boot leaves it where this segment works.
fn last<R: Abort + AllocGlobal>(rt: &R, segment: u16) -> Result<Fram, Fail> {
    let mut fram = memory(rt, &SLOT)?;
    let [copy, lived, _] = if segment == 0 { SEGMENT_0 } else { SEGMENT_1 };
    set(rt, &mut fram, &[(0x1220, segment % 32)]);
    set(rt, &mut fram, &LIVED);
    set(rt, &mut fram, copy);
    set(rt, &mut fram, lived);
    Ok(fram)
}

/// What was written since then: the words of the working segment, and stores at 4002 with their entries.
fn since<R: Abort>(rt: &R, fram: &mut Fram, segment: u16, entries: u16) {
    let [_, _, written] = if segment == 0 { SEGMENT_0 } else { SEGMENT_1 };
    set(rt, fram, written);
    for index in 0..256u16 {
        if index < entries {
            let old = if index == 0 { 31 } else { 32 };
            set(
                rt,
                fram,
                &[
                    (0x1400 + 4 * index, 0x4002),
                    (0x1402 + 4 * index, old),
                    (0x4002, 32),
                    (0x1010, index + 1),
                ],
            );
        }
    }
}

/// The k-th word that a commit into slot 1 writes at 70,000 ms, with six marks, as the third commit.
fn commit_write(fram: &Fram, regs: &Regs, segment: u16, k: u16) -> (u16, u16) {
    let segment = segment % 32;
    let state = [segment, 0, 0, 6, 0, 3, 0, 4464, 1];
    if k < 128 {
        (0x1240 + 2 * k, fram.word(0x2000 + 256 * segment + 2 * k))
    } else if k < 144 {
        (0x1240 + 2 * k, regs.r[usize::from(k - 128)])
    } else if k < 153 {
        (0x1240 + 2 * k, state[usize::from(k - 144)])
    } else if k == 153 {
        (0x1012, 0)
    } else {
        (0x1000, 1)
    }
}

/// The k-th word that a service writes, its commit behind its stores.
fn write_of(fram: &Fram, row: &Row, k: u32) -> Option<(u16, u16)> {
    let mut left = k;
    for write in row.writes {
        if left == 0 {
            return Some(*write);
        }
        left -= 1;
    }
    if row.log.is_none() || left >= 155 {
        return None;
    }
    let regs = left_registers(row);
    Some(commit_write(fram, &regs, row.after[0], left as u16))
}

/// The first address below the code that lives where a segment works and at which two memories differ.
fn live_difference(left: &Fram, right: &Fram, segment: u16) -> Option<u16> {
    let top = SEGMENTS + 256 * (segment % 32 + 1);
    for index in OUTPUTS / 2..DATA_END / 2 {
        let at = 2 * index;
        let live = at < OUTPUTS_END || at >= SEGMENTS && at < top || at >= DATA;
        if live && left.word(at) != right.word(at) {
            return Some(at);
        }
    }
    None
}

/// The memory of the board, the one that is expected, and the one at the last commit.
#[derive(Drop)]
struct Board {
    fram: Fram,
    expected: Fram,
    last: Fram,
}

/// The board before a row, at the last commit.
fn board_before<R: Abort + AllocGlobal>(rt: &R, row: &Row) -> Result<Board, Fail> {
    let lived = last(rt, row.segment)?;
    let fram = last(rt, row.segment)?;
    let mut expected = last(rt, row.segment)?;
    since(rt, &mut expected, row.segment, row.entries);
    Ok(Board {
        fram,
        expected,
        last: lived,
    })
}

/// A world at 70,000 ms with a period of 100 and so many of 400 ticks left, and then a cycle of 400.
fn world_with<R: Abort + AllocGlobal>(rt: &R, ticks: u32) -> Result<TraceWorld, Fail> {
    let trace = parse_trace(
        rt.alloc(),
        b"tics-trace 1\nstart 70000\nperiod 100\nsense 3 77 78\ncycle 400 0\ncycle 400 0\n",
    )?;
    let mut world = TraceWorld::new(rt.alloc(), trace)?;
    world.wake();
    for _ in ticks..400 {
        assert!(rt; world.tick().is_ok());
    }
    Ok(world)
}

/// The registers after a service.
fn left_registers(row: &Row) -> Regs {
    let mut regs = registers(row.n, row.sp, row.arguments);
    regs.r[0] = row.after[1];
    regs.r[1] = row.after[2];
    regs.r[12] = row.after[3];
    regs
}

/// How many ticks a service takes, its commit counted.
fn cost(row: &Row) -> u32 {
    let mut ticks: u32 = if row.log.is_some() { 155 } else { 0 };
    for _ in row.writes {
        ticks = ticks.saturating_add(1);
    }
    ticks
}

fn answer(row: &Row) -> Served {
    let committed = row.log.map(|log| Committed { words: 155, log });
    if row.ends {
        Served::End {
            kind: EndKind::Done,
            committed,
        }
    } else {
        Served::Done { committed }
    }
}

/// Boots where the board allows it.
fn boots<R: Abort>(rt: &R, fram: &mut Fram, world: &mut TraceWorld) -> Result<(Regs, Work), Off> {
    assert!(rt; well_formed(fram));
    boot(fram, world)
}

/// A boot in the next power cycle finds the last commit, or the one that the service made.
fn boots_as<R: Abort>(
    rt: &R,
    board: &mut Board,
    world: &mut TraceWorld,
    row: &Row,
    committed: bool,
) {
    world.wake();
    let booted = boots(rt, &mut board.fram, world);
    let mut slot = [0; 16];
    slot[0] = 0x8004;
    slot[1] = 0x20f8;
    slot[15] = 15;
    let [segment, marks, commits] = if committed {
        [row.after[0], 6, 3]
    } else {
        [row.segment, 5, 2]
    };
    let regs = if committed {
        left_registers(row)
    } else {
        Regs { r: slot }
    };
    let work = Work {
        segment,
        block_open: false,
        block_length: 0,
        marks: u32::from(marks),
        commits: u32::from(commits),
        since: world.spent(),
    };
    assert_eq!(rt; booted, Ok((regs, work)));
    let difference = if committed {
        live_difference(&board.fram, &board.expected, segment)
    } else {
        live_difference(&board.fram, &board.last, segment)
    };
    assert_eq!(rt; difference, None);
}

/// What stands before a service, as an attempt finds it that began at the last commit.
fn work_of(row: &Row, spent: u32) -> Work {
    Work {
        segment: row.segment,
        block_open: false,
        block_length: 0,
        marks: 5,
        commits: 2,
        since: spent.saturating_sub(row.since),
    }
}

/// An attempt comes to a service with so many ticks left: it makes so many writes, and is `Off` where these are not all. A
/// boot finds the last commit then. The attempt before had one tick less.
fn cut<R: Abort + AllocGlobal>(
    rt: &R,
    board: &mut Board,
    row: &Row,
    ticks: u32,
) -> Result<(), Fail> {
    let mut world = world_with(rt, ticks)?;
    since(rt, &mut board.fram, row.segment, row.entries);
    if ticks > 0 {
        if let Some(write) = write_of(&board.expected, row, ticks - 1) {
            set(rt, &mut board.expected, &[write]);
        }
    }
    let mut regs = registers(row.n, row.sp, row.arguments);
    let mut work = work_of(row, world.spent());
    let served = serves(rt, &mut board.fram, &mut world, &mut regs, &mut work, row.n);
    let whole = ticks == cost(row);
    let at = [u32::from(row.n), u32::from(row.arguments[1]), ticks];
    let expected = if whole { answer(row) } else { Served::Off };
    assert_eq!(rt; served, expected, "{at:?}");
    assert_eq!(rt; world.spent(), 400, "{at:?}");
    assert_eq!(rt; difference(&board.fram, &board.expected), None, "{at:?}");
    if whole {
        assert_eq!(rt; regs, left_registers(row), "{at:?}");
        let marks = if row.n == 0 { 5 } else { 6 };
        assert_eq!(rt;
            [u32::from(work.segment), work.marks],
            [u32::from(row.after[0]), marks],
            "{at:?}"
        );
    }
    boots_as(rt, board, &mut world, row, whole && row.log.is_some());
    Ok(())
}

fn cut_at_each_tick<R: Abort + AllocGlobal>(rt: &R, row: &Row) -> Result<(), Fail> {
    let mut board = board_before(rt, row)?;
    for ticks in 0..=cost(row) {
        cut(rt, &mut board, row, ticks)?;
    }
    Ok(())
}

fn cut_everywhere<R: Abort + AllocGlobal>(rt: &R, rows: &[Row]) -> Result<(), Fail> {
    for row in rows {
        cut_at_each_tick(rt, row)?;
    }
    Ok(())
}

/// A word at 4000, where 9 stood, through the undo log; and with the commit of the period.
const STORES: [Row; 12] = [
    Row {
        n: 4,
        writes: &[(0x1404, 0x4000), (0x1406, 9), (0x1010, 2), (0x4000, 7)],
        ..PLAIN
    },
    Row {
        n: 4,
        since: 96,
        writes: &[(0x1404, 0x4000), (0x1406, 9), (0x1010, 2), (0x4000, 7)],
        log: Some(2),
        ..PLAIN
    },
    Row {
        n: 4,
        since: 95,
        writes: &[(0x1404, 0x4000), (0x1406, 9), (0x1010, 2), (0x4000, 7)],
        ..PLAIN
    },
    // the undo log has room for eight entries after it, and for seven
    Row {
        n: 4,
        entries: 247,
        writes: &[(0x17dc, 0x4000), (0x17de, 9), (0x1010, 248), (0x4000, 7)],
        ..PLAIN
    },
    Row {
        n: 4,
        entries: 248,
        writes: &[(0x17e0, 0x4000), (0x17e2, 9), (0x1010, 249), (0x4000, 7)],
        log: Some(249),
        ..PLAIN
    },
    // in the working segment, straight
    Row {
        n: 4,
        arguments: [7, 0x2010, 0],
        writes: &[(0x2010, 7)],
        ..PLAIN
    },
    Row {
        n: 4,
        arguments: [7, 0x20fe, 0],
        since: 99,
        writes: &[(0x20fe, 7)],
        log: Some(1),
        ..PLAIN
    },
    // in an older segment
    Row {
        n: 4,
        segment: 1,
        sp: 0x210c,
        arguments: [7, 0x20f8, 0],
        writes: &[(0x1404, 0x20f8), (0x1406, 77), (0x1010, 2), (0x20f8, 7)],
        after: [1, 0x8010, 0x210e, 5],
        ..PLAIN
    },
    Row {
        n: 4,
        segment: 1,
        sp: 0x210c,
        arguments: [7, 0x20f8, 0],
        since: 100,
        writes: &[(0x1404, 0x20f8), (0x1406, 77), (0x1010, 2), (0x20f8, 7)],
        log: Some(2),
        after: [1, 0x8010, 0x210e, 5],
        ..PLAIN
    },
    // the last word of the data, and the first of the stack from segment 1
    Row {
        n: 4,
        arguments: [0xffff, 0x7ffe, 0],
        writes: &[(0x1404, 0x7ffe), (0x1406, 5), (0x1010, 2), (0x7ffe, 0xffff)],
        ..PLAIN
    },
    Row {
        n: 4,
        segment: 1,
        sp: 0x210c,
        arguments: [7, 0x2000, 0],
        writes: &[(0x1404, 0x2000), (0x1406, 0), (0x1010, 2), (0x2000, 7)],
        after: [1, 0x8010, 0x210e, 5],
        ..PLAIN
    },
    // twice the same word: the entry has the word before this store
    Row {
        n: 4,
        arguments: [7, 0x4002, 0],
        writes: &[(0x1404, 0x4002), (0x1406, 32), (0x1010, 2), (0x4002, 7)],
        ..PLAIN
    },
];

#[test]
fn a_word_stored_is_cut_at_every_tick(rt: HostRuntime) -> Result<(), Fail> {
    cut_everywhere(&rt, &STORES)
}

/// The low byte of 0507 at 4004 and 4005, where 1234 stood, and in the working segment.
const BYTES: [Row; 5] = [
    Row {
        n: 5,
        arguments: [0x507, 0x4004, 0],
        writes: &[
            (0x1404, 0x4004),
            (0x1406, 0x1234),
            (0x1010, 2),
            (0x4004, 0x1207),
        ],
        ..PLAIN
    },
    Row {
        n: 5,
        arguments: [0x507, 0x4005, 0],
        writes: &[
            (0x1404, 0x4004),
            (0x1406, 0x1234),
            (0x1010, 2),
            (0x4004, 0x734),
        ],
        ..PLAIN
    },
    Row {
        n: 5,
        arguments: [0x507, 0x4005, 0],
        since: 99,
        writes: &[
            (0x1404, 0x4004),
            (0x1406, 0x1234),
            (0x1010, 2),
            (0x4004, 0x734),
        ],
        log: Some(2),
        ..PLAIN
    },
    Row {
        n: 5,
        arguments: [0x507, 0x2010, 0],
        writes: &[(0x2010, 0x1207)],
        ..PLAIN
    },
    Row {
        n: 5,
        arguments: [0x507, 0x2011, 0],
        since: 99,
        writes: &[(0x2010, 0x734)],
        log: Some(1),
        ..PLAIN
    },
];

#[test]
fn a_byte_stored_is_cut_at_every_tick(rt: HostRuntime) -> Result<(), Fail> {
    cut_everywhere(&rt, &BYTES)
}

/// A second output behind 50, and with the commit of the period.
const OUTPUT: [(u16, u16); 8] = [
    (0x1404, 0x1a04),
    (0x1406, 0),
    (0x1010, 2),
    (0x1a04, 7),
    (0x1408, 0x1a00),
    (0x140a, 1),
    (0x1010, 3),
    (0x1a00, 2),
];

#[test]
fn an_output_is_cut_at_every_tick(rt: HostRuntime) -> Result<(), Fail> {
    let rows = [
        Row {
            n: 9,
            writes: &OUTPUT,
            ..PLAIN
        },
        Row {
            n: 9,
            since: 92,
            writes: &OUTPUT,
            log: Some(3),
            ..PLAIN
        },
    ];
    cut_everywhere(&rt, &rows)
}

/// A frame of 238 bytes fits below 20F2, one of 240 goes to segment 1; one is left to segment 0, one within segment 0, and
/// that of the outermost main.
const FRAMES: [Row; 6] = [
    Row {
        n: 1,
        arguments: [7, 0, 238],
        after: [0, 0x8010, 0x2004, 5],
        ..PLAIN
    },
    Row {
        n: 1,
        arguments: [7, 0, 4],
        since: 100,
        log: Some(1),
        after: [0, 0x8010, 0x20ee, 5],
        ..PLAIN
    },
    Row {
        n: 1,
        arguments: [7, 0, 240],
        writes: &[(0x21fe, 0x20f2)],
        log: Some(1),
        after: [1, 0x8010, 0x210e, 5],
        ..PLAIN
    },
    Row {
        n: 2,
        segment: 1,
        sp: 0x210c,
        arguments: [7, 0, 240],
        log: Some(1),
        after: [0, 0x8020, 0x20f4, 5],
        ..PLAIN
    },
    Row {
        n: 2,
        arguments: [7, 0, 10],
        after: [0, 0, 0x20fe, 5],
        ..PLAIN
    },
    Row {
        n: 2,
        arguments: [7, 0, 12],
        log: Some(1),
        after: [0, 0x8004, 0x2100, 5],
        ends: true,
        ..PLAIN
    },
];

#[test]
fn a_frame_made_or_left_is_cut_at_every_tick(rt: HostRuntime) -> Result<(), Fail> {
    cut_everywhere(&rt, &FRAMES)
}

/// The end, a turn, a reading and a checkpoint, which store nothing.
const OTHERS: [Row; 8] = [
    Row {
        n: 0,
        since: 300,
        ends: true,
        ..PLAIN
    },
    Row { since: 99, ..PLAIN },
    Row {
        since: 100,
        log: Some(1),
        ..PLAIN
    },
    Row {
        entries: 248,
        ..PLAIN
    },
    Row {
        n: 8,
        arguments: [7, 0, 3],
        after: [0, 0x8010, 0x20f2, 77],
        ..PLAIN
    },
    Row {
        n: 8,
        arguments: [7, 0, 15],
        since: 101,
        log: Some(1),
        after: [0, 0x8010, 0x20f2, 0],
        ..PLAIN
    },
    Row {
        n: 14,
        log: Some(1),
        ..PLAIN
    },
    Row {
        n: 14,
        entries: 0,
        log: Some(0),
        ..PLAIN
    },
];

#[test]
fn a_service_that_stores_nothing_is_cut_at_every_tick(rt: HostRuntime) -> Result<(), Fail> {
    cut_everywhere(&rt, &OTHERS)
}

/// The clock in the slot that a checkpoint writes, where a tick is a millisecond, is that as the commit began.
#[test]
fn a_commit_has_the_clock_as_it_began(rt: HostRuntime) -> Result<(), Fail> {
    // the service and its arguments; its ticks before the commit
    let table = [
        (14, [0, 0, 0], 0),
        (4, [7, 0x4000, 0], 4),
        (9, [7, 0, 0], 8),
    ];
    for (n, arguments, ticks) in table {
        assert_eq!(rt; clock_of(&rt, n, arguments)?, 210 + ticks, "service {n}");
    }
    Ok(())
}

/// The low word of the clock that a service writes that is reached after 200 ticks, at 210 ms.
fn clock_of<R: Abort + AllocGlobal>(rt: &R, n: u16, arguments: [u16; 3]) -> Result<u16, Fail> {
    let trace = parse_trace(
        rt.alloc(),
        b"tics-trace 1\nstart 10\nrate 1\nperiod 100\ncycle 400 0\n",
    )?;
    let mut world = TraceWorld::new(rt.alloc(), trace)?;
    let mut fram = last(rt, 0)?;
    since(rt, &mut fram, 0, 1);
    world.wake();
    for _ in 0..200 {
        assert!(rt; world.tick().is_ok());
    }
    let mut regs = registers(n, 0x20f0, arguments);
    let mut work = work_of(&PLAIN, 0);
    let served = serves(rt, &mut fram, &mut world, &mut regs, &mut work, n);
    assert!(rt; matches!(served, Served::Done { committed: Some(_) }));
    // the clock stands behind the slot's 151 other words
    Ok(fram.word(0x1240 + 302))
}
