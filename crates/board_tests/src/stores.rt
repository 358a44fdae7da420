ghost use Rattle.std.specs.Prelude.{◌≡◌, ◌<◌, ◌≤◌};
ghost use Rattle.base16.specs.Memory.{words_of};
ghost use Rattle.board_map.specs.Map.{count_of, segment_of};
ghost use Rattle.board_map.specs.WellFormed.{IsWellFormed};

use crate::support::{START, board_of, difference};
use board_map::{
    SEGMENT_AT, Work, count, gate, is_loggable, recovered_word, slot_word, well_formed,
};
use fram::Fram;
use std::process::Abort;
use std::test::Fail;
use undo_log::{put, rollback, room, store};
use world::{Off, TraceWorld, World};

/// A work state in this segment.
fn work_in(segment: u16) -> Work
    ensures { result.segment ≡ segment }
{
    Work {
        segment,
        block_open: false,
        block_length: 0,
        marks: 0,
        commits: 0,
        since: 0,
    }
}

/// Puts a word where the board allows it.
fn puts<R: Abort>(
    rt: &R,
    fram: &mut Fram,
    world: &mut TraceWorld,
    segment: u16,
    (address, word): (u16, u16),
) -> Result<(), Off> {
    assert!(rt; well_formed(fram));
    assert!(rt; room(fram) > 0);
    assert!(rt; is_loggable(address));
    assert!(rt; slot_word(fram, gate(fram), SEGMENT_AT) == segment);
    put(fram, world, &work_in(segment), address, word)
}

/// Stores a word at 4000.
fn stores<R: Abort>(rt: &R, fram: &mut Fram, world: &mut TraceWorld, word: u16) -> Result<(), Off> {
    assert!(rt; well_formed(fram));
    assert!(rt; room(fram) > 0);
    assert!(rt; slot_word(fram, gate(fram), SEGMENT_AT) == 0);
    store(fram, world, 0x4000, word)
}

fn rolls_back<R: Abort>(rt: &R, fram: &mut Fram, world: &mut TraceWorld) -> Result<(), Off> {
    assert!(rt; well_formed(fram));
    rollback(fram, world)
}

fn recovers<R: Abort>(rt: &R, fram: &Fram, address: u16) -> u16 {
    assert!(rt; well_formed(fram));
    recovered_word(fram, address)
}

/// The writes of two stores at 4000, where 9 stood, one a tick.
const TWO_STORES: [(u16, u16); 8] = [
    (0x1400, 0x4000),
    (0x1402, 9),
    (0x1010, 1),
    (0x4000, 2),
    (0x1404, 0x4000),
    (0x1406, 2),
    (0x1010, 2),
    (0x4000, 3),
];

#[test]
fn stores_cut_at_every_tick_made_the_writes_before(rt: HostRuntime) -> Result<(), Fail> {
    for ticks in 0..9usize {
        let mut board = board_of(
            &rt,
            &START,
            &[(0x4000, 9)],
            &TWO_STORES[..ticks],
            ticks as u32,
        )?;
        let first = stores(&rt, &mut board.fram, &mut board.world, 2);
        let second = stores(&rt, &mut board.fram, &mut board.world, 3);
        assert_eq!(rt;
            [first.is_ok(), second.is_ok()],
            [ticks >= 4, ticks == 8],
            "{ticks} ticks"
        );
        assert_eq!(rt;
            difference(&board.fram, &board.expected),
            None,
            "{ticks} ticks"
        );
        assert_eq!(rt; recovers(&rt, &board.fram, 0x4000), 9, "{ticks} ticks");
        board.world.wake();
        assert!(rt; rolls_back(&rt, &mut board.fram, &mut board.world).is_ok());
        assert_eq!(rt; board.fram.get(0x4000), 9, "{ticks} ticks");
    }
    Ok(())
}

#[test]
fn puts_outside_the_working_segment_are_logged(rt: HostRuntime) -> Result<(), Fail> {
    // the segment, the address, the writes: the first and the last word of segment 1, and the words beside them
    let table: [(u16, &[(u16, u16)]); 4] = [
        (0x2100, &[(0x2100, 7)]),
        (0x21fe, &[(0x21fe, 7)]),
        (
            0x20fe,
            &[(0x1400, 0x20fe), (0x1402, 5), (0x1010, 1), (0x20fe, 7)],
        ),
        (
            0x2200,
            &[(0x1400, 0x2200), (0x1402, 6), (0x1010, 1), (0x2200, 7)],
        ),
    ];
    let standing = [(0x1220, 1), (0x20fe, 5), (0x2200, 6)];
    for (address, writes) in table {
        for ticks in 0..5 {
            let ticks = writes.len().min(ticks);
            let mut board = board_of(&rt, &START, &standing, &writes[..ticks], ticks as u32)?;
            let result = puts(&rt, &mut board.fram, &mut board.world, 1, (address, 7));
            assert_eq!(rt;
                result.is_ok(),
                ticks == writes.len(),
                "{address} with {ticks}"
            );
            assert_eq!(rt;
                difference(&board.fram, &board.expected),
                None,
                "{address} with {ticks}"
            );
        }
    }
    Ok(())
}

/// 5 at 4000 and 6 at 4002, and three valid entries: 1 for 4000, 2 for 4002 and 3 for 4000.
const LOGGED: [(u16, u16); 9] = [
    (0x4000, 5),
    (0x4002, 6),
    (0x1010, 3),
    (0x1400, 0x4000),
    (0x1402, 1),
    (0x1404, 0x4002),
    (0x1406, 2),
    (0x1408, 0x4000),
    (0x140a, 3),
];

/// What a rollback writes, one word a tick.
const BACK: [(u16, u16); 3] = [(0x4000, 3), (0x4002, 2), (0x4000, 1)];

#[test]
fn a_rollback_cut_at_every_tick_begins_again(rt: HostRuntime) -> Result<(), Fail> {
    for ticks in 0..4usize {
        let mut board = board_of(&rt, &START, &LOGGED, &BACK[..ticks], ticks as u32)?;
        assert_eq!(rt;
            rolls_back(&rt, &mut board.fram, &mut board.world).is_ok(),
            ticks == 3,
            "{ticks} ticks"
        );
        assert_eq!(rt;
            difference(&board.fram, &board.expected),
            None,
            "{ticks} ticks"
        );
        assert_eq!(rt;
            [
                recovers(&rt, &board.fram, 0x4000),
                recovers(&rt, &board.fram, 0x4002)
            ],
            [1, 2],
            "{ticks} ticks"
        );
        assert_eq!(rt; count(&board.fram, 0), 3);
        board.world.wake();
        assert!(rt; rolls_back(&rt, &mut board.fram, &mut board.world).is_ok());
        assert_eq!(rt;
            [board.fram.get(0x4000), board.fram.get(0x4002)],
            [1, 2],
            "{ticks} ticks"
        );
    }
    Ok(())
}
