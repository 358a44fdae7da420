use crate::support::{Board, START, difference, memory, set, world_with};
use base16::Regs;
use board_map::{SEGMENT_AT, Work, gate, recovered_word, slot_word, undo_entry, well_formed};
use boot::boot;
use fram::Fram;
use std::process::Abort;
use std::test::Fail;
use undo_log::{room, store};
use world::{Off, TraceWorld, World};

/// Boots where the board allows it.
fn boots<R: Abort>(rt: &R, fram: &mut Fram, world: &mut TraceWorld) -> Result<(Regs, Work), Off> {
    assert!(rt; well_formed(fram));
    boot(fram, world)
}

/// Stores a word at 4000.
fn stores<R: Abort>(rt: &R, fram: &mut Fram, world: &mut TraceWorld, word: u16) -> Result<(), Off> {
    assert!(rt; well_formed(fram));
    assert!(rt; room(fram) > 0);
    assert!(rt; slot_word(fram, gate(fram), SEGMENT_AT) == 0);
    store(fram, world, 0x4000, word)
}

#[test]
fn two_stores_are_taken_back_in_131_ticks(rt: HostRuntime) -> Result<(), Fail> {
    for ticks in [131, 130] {
        let mut fram = memory(&rt, &START)?;
        let mut world = world_with(&rt, 8 + ticks)?;
        assert!(rt; stores(&rt, &mut fram, &mut world, 2).is_ok());
        assert!(rt; stores(&rt, &mut fram, &mut world, 3).is_ok());
        assert_eq!(rt; fram.get(0x4000), 3);
        // the first entry has the recovered word
        assert_eq!(rt; undo_entry(&fram, 0), (0x4000, 0));
        let booted = boots(&rt, &mut fram, &mut world).is_ok();
        assert_eq!(rt; booted, ticks == 131);
        assert_eq!(rt; world.spent(), 400);
        assert_eq!(rt; fram.get(0x4000), 0);
        assert_eq!(rt; undo_entry(&fram, 0), (0x4000, 0));
        assert!(rt; well_formed(&fram));
        assert_eq!(rt; room(&fram), if booted { 256 } else { 254 });
    }
    Ok(())
}

/// Slot 1 is current, segment 2 works and three entries are valid, one for a word above the working segment; words of the
/// other slot. R0, R1 and R15 are not 0.
const CURRENT: [(u16, u16); 18] = [
    (0x1000, 1),
    (0x1002, 0x5443),
    (0x1004, 1),
    (0x1010, 7),
    (0x1012, 3),
    (0x1100, 55),
    (0x1220, 5),
    (0x1240, 11),
    (0x133e, 12),
    (0x1340, 0x8004),
    (0x1342, 0x22f0),
    (0x135e, 15),
    (0x1400, 0x4000),
    (0x1402, 1),
    (0x1404, 0x4000),
    (0x1406, 2),
    (0x1408, 0x2302),
    (0x140a, 3),
];

/// The state words of slot 1, the block log, and words of the segments, the data and the code.
const STANDING: [(u16, u16); 19] = [
    (0x1360, 2),
    (0x1362, 1),
    (0x1364, 1),
    (0x1366, 3),
    (0x1368, 1),
    (0x136a, 4),
    (0x136c, 2),
    (0x136e, 9),
    (0x1800, 0x4002),
    (0x1804, 77),
    (0x21fe, 7),
    (0x2200, 99),
    (0x2202, 98),
    (0x22fe, 97),
    (0x2300, 96),
    (0x2302, 95),
    (0x4000, 5),
    (0x4002, 6),
    (0xf000, 8),
];

fn standing<R: Abort + AllocGlobal>(rt: &R) -> Result<Fram, Fail> {
    let mut fram = memory(rt, &CURRENT)?;
    set(rt, &mut fram, &STANDING);
    Ok(fram)
}

/// The memory in which so many writes of the boot were made: the old words from the last entry to the first, the 128 words
/// of segment 2, the count.
fn after<R: Abort + AllocGlobal>(rt: &R, writes: u32) -> Result<Fram, Fail> {
    let table = [
        (1, (0x2302, 3)),
        (2, (0x4000, 2)),
        (3, (0x4000, 1)),
        (4, (0x2200, 11)),
        (5, (0x2202, 0)),
        (131, (0x22fe, 12)),
        (132, (0x1012, 0)),
    ];
    let mut fram = standing(rt)?;
    for (number, write) in table {
        if writes >= number {
            set(rt, &mut fram, &[write]);
        }
    }
    Ok(fram)
}

/// Addresses of each range that lives, a dead one, and the words to which they recover.
const PLACES: [(u16, u16); 8] = [
    (0x1800, 0x4002),
    (0x21fe, 7),
    (0x2200, 11),
    (0x2202, 0),
    (0x22fe, 12),
    (0x2302, 0),
    (0x4000, 1),
    (0x4002, 6),
];

/// The memory before a boot, the one after its first writes, one a tick, and a world with so many ticks left.
fn board_with<R: Abort + AllocGlobal>(rt: &R, ticks: u32) -> Result<Board, Fail> {
    let fram = standing(rt)?;
    let expected = after(rt, ticks)?;
    let world = world_with(rt, ticks)?;
    Ok(Board {
        fram,
        expected,
        world,
    })
}

/// A boot that is cut after so many ticks is followed by one that leaves the same memory as one that was not cut.
fn boots_twice<R: Abort + AllocGlobal>(rt: &R, ticks: u32, restored: &Fram) -> Result<(), Fail> {
    let mut board = board_with(rt, ticks)?;
    let booted = boots(rt, &mut board.fram, &mut board.world);
    assert_eq!(rt; booted.is_ok(), ticks == 132, "with {ticks}");
    assert_eq!(rt;
        difference(&board.fram, &board.expected),
        None,
        "with {ticks}"
    );
    assert!(rt; well_formed(&board.fram));
    for (address, word) in PLACES {
        assert_eq!(rt;
            recovered_word(&board.fram, address),
            word,
            "at {address} with {ticks}"
        );
    }
    assert!(rt; board.world.wake());
    assert!(rt; boots(rt, &mut board.fram, &mut board.world).is_ok());
    assert_eq!(rt;
        difference(&board.fram, restored),
        None,
        "after a cut at {ticks}"
    );
    Ok(())
}

#[test]
fn a_boot_cut_at_every_tick_begins_again(rt: HostRuntime) -> Result<(), Fail> {
    let restored = after(&rt, 132)?;
    for ticks in 0..133u32 {
        boots_twice(&rt, ticks, &restored)?;
    }
    Ok(())
}

#[test]
fn registers_and_work_are_those_of_the_current_slot(rt: HostRuntime) -> Result<(), Fail> {
    let mut fram = standing(&rt)?;
    let mut world = world_with(&rt, 132)?;
    let mut r = [0; 16];
    r[0] = 0x8004;
    r[1] = 0x22f0;
    r[15] = 15;
    let work = Work {
        segment: 2,
        block_open: true,
        block_length: 1,
        marks: 65539,
        commits: 131076,
        since: 400,
    };
    assert_eq!(rt; boots(&rt, &mut fram, &mut world), Ok((Regs { r }, work)));
    Ok(())
}
