ghost use Rattle.std.specs.Prelude.{IfOk};
ghost use Rattle.display.specs.Display.{AreInData};

use crate::{is_playable, play};
use base16::{EndKind, Kind, Name, Reading, Scalar, Sequence, Symbols};
use board_map::well_formed;
use fram::Fram;
use std::process::Abort;
use std::test::Fail;
use world::{History, Record, Shown, Trace, TraceWorld, parse_trace};

/// A board with these code words, as a load leaves it.
fn board<R: Abort + AllocGlobal>(rt: &R, code: &[u16]) -> Result<Fram, Fail> {
    let mut fram = Fram::blank(rt.alloc())?;
    fram.poke(0x1002, 0x5443);
    fram.poke(0x1004, 1);
    fram.poke(0x1200, 0x8000);
    fram.poke(0x1202, 0x2100);
    let mut address = 0x8000u16;
    for word in code {
        assert!(rt; address < 0x9000);
        assert!(rt; address % 2 == 0);
        fram.poke(address, *word);
        address += 2;
    }
    Ok(fram)
}

/// The scalar `count` of two bytes at 4000.
#[tactic(auto, using(crate::proofs::Placed::two_bytes_placed))]
fn symbols<R: AllocGlobal>(rt: &R) -> Result<Symbols, Fail>
    ensures { IfOk result (λ symbols. AreInData symbols.scalars) }
{
    let mut scalars = Vec::new(rt.alloc());
    scalars.push(Scalar {
        name: Name::new(rt.alloc(), b"count")?,
        address: 0x4000,
        kind: Kind::Int,
        stamp: None,
    })?;
    Ok(Symbols {
        scalars: Sequence::from_vec(scalars),
        functions: Sequence::new(rt.alloc()),
    })
}

/// Plays a board through the cycles of a trace, into an empty history.
fn played<R: Abort + AllocGlobal>(
    rt: &R,
    fram: &mut Fram,
    world: &mut TraceWorld,
    book: &mut History,
) -> Result<EndKind, Fail> {
    assert!(rt; well_formed(fram));
    assert!(rt; is_playable(fram));
    assert!(rt; book.records.len() == 0);
    let symbols = symbols(rt)?;
    Ok(play(rt.alloc(), fram, world, book, &symbols)?)
}

/// Enters main, stores 7 at 4000, takes a reading of channel 3, asks for a checkpoint and leaves main.
const SENSES: [u16; 24] = [
    0x12b0, 0x8008, 0x12b0, 0xff00, 0x403f, 4, 0x12b0, 0xff02, 0x403d, 7, 0x403e, 0x4000, 0x12b0,
    0xff08, 0x403f, 3, 0x12b0, 0xff10, 0x12b0, 0xff1c, 0x403f, 4, 0x12b0, 0xff04,
];

/// A reading of channel 3.
fn is_read(entry: Option<&Record>, expected: u16) -> bool {
    match entry {
        Some(
            Record::Read {
                reading: Reading::Sense { channel, value },
            },
        ) => *channel == 3 && *value == expected,
        _ => false,
    }
}

#[test]
fn a_reading_that_was_lost_is_taken_again(rt: HostRuntime) -> Result<(), Fail> {
    let mut fram = board(&rt, &SENSES)?;
    let trace = parse_trace(
        rt.alloc(),
        b"tics-trace 1\nperiod 4000000\nsense 3 11 12 13\ncycle 200 5\ncycle 145 5\ncycle 2000 5\n",
    )?;
    let mut world = TraceWorld::new(rt.alloc(), trace)?;
    let mut book = History::new(rt.alloc());
    let ended = played(&rt, &mut fram, &mut world, &mut book)?;
    assert_eq!(&rt; ended, EndKind::Done);
    assert_eq!(&rt; fram.get(0x4000), 7);
    let records = book.records.as_slice();
    assert_eq!(&rt; records.len(), 11);
    assert!(&rt; matches!(records.get(0), Some(Record::On { cycle: 1 })));
    assert!(&rt; is_read(records.get(1), 11));
    assert!(&rt; matches!(records.get(2), Some(Record::Off)));
    assert!(&rt; matches!(records.get(3), Some(Record::On { cycle: 2 })));
    assert!(&rt; is_read(records.get(4), 12));
    assert!(&rt; matches!(records.get(5), Some(Record::Off)));
    assert!(&rt; matches!(records.get(6), Some(Record::On { cycle: 3 })));
    assert!(&rt; is_read(records.get(7), 13));
    assert!(&rt;
        matches!(
            records.get(8),
            Some(Record::Commit {
                number: 1,
                marks: 4,
                instrs: 9,
                pc: 0x8028,
                sp: 0x20fa,
                words: 155,
                log: 1,
                ..
            })
        )
    );
    assert!(&rt;
        matches!(
            records.get(9),
            Some(Record::Commit {
                number: 2,
                marks: 5,
                instrs: 11,
                pc: 0x8004,
                sp: 0x2100,
                words: 155,
                log: 0,
                ..
            })
        )
    );
    assert!(&rt;
        matches!(
            records.get(10),
            Some(Record::End {
                kind: EndKind::Done
            })
        )
    );
    Ok(())
}

#[test]
fn a_write_outside_the_working_segment_ends_the_run(rt: HostRuntime) -> Result<(), Fail> {
    // MOV #5,&0x1000; and MOV #0x1000,R14, CALL #0xFF08
    for code in [
        &[0x40b2u16, 5, 0x1000, 0x4303],
        &[0x403e, 0x1000, 0x12b0, 0xff08],
    ] {
        let mut fram = board(&rt, code)?;
        let trace = parse_trace(rt.alloc(), b"tics-trace 1\ncycle 200 0\n")?;
        let mut world = TraceWorld::new(rt.alloc(), trace)?;
        let mut book = History::new(rt.alloc());
        let ended = played(&rt, &mut fram, &mut world, &mut book)?;
        assert_eq!(&rt; ended, EndKind::Wild { address: 0x1000 });
        let records = book.records.as_slice();
        assert_eq!(&rt; records.len(), 2);
        assert!(&rt; matches!(records.get(0), Some(Record::On { cycle: 1 })));
        assert!(&rt;
            matches!(
                records.get(1),
                Some(Record::End {
                    kind: EndKind::Wild { address: 0x1000 }
                })
            )
        );
        // the control area and the slots are as the load left them
        let loaded = board(&rt, code)?;
        for index in 0..0x200u16 {
            assert_eq!(&rt;
                fram.get(0x1000 + 2 * index),
                loaded.get(0x1000 + 2 * index)
            );
        }
    }
    Ok(())
}

#[test]
fn no_cycle_ends_for_want_of_power(rt: HostRuntime) -> Result<(), Fail> {
    let mut fram = board(&rt, &SENSES)?;
    let trace = parse_trace(rt.alloc(), b"tics-trace 1\n")?;
    let mut world = TraceWorld::new(rt.alloc(), trace)?;
    let mut book = History::new(rt.alloc());
    let ended = played(&rt, &mut fram, &mut world, &mut book)?;
    assert_eq!(&rt; ended, EndKind::Power);
    assert_eq!(&rt; book.records.len(), 1);
    Ok(())
}

/// Enters main, stores 7 at 4000, emits 40, asks for a checkpoint, stores 8 at 4000, asks again and leaves main.
const SHOWS: [u16; 32] = [
    0x12b0, 0x8008, 0x12b0, 0xff00, 0x403f, 4, 0x12b0, 0xff02, 0x403d, 7, 0x403e, 0x4000, 0x12b0,
    0xff08, 0x403d, 40, 0x12b0, 0xff12, 0x12b0, 0xff1c, 0x403d, 8, 0x403e, 0x4000, 0x12b0, 0xff08,
    0x12b0, 0xff1c, 0x403f, 4, 0x12b0, 0xff04,
];

/// What the three commits of `SHOWS` change.
const CHANGES: [&[Shown]; 3] = [
    &[
        Shown::Value { scalar: 0, word: 7 },
        Shown::Outs { length: 1 },
        Shown::Out { index: 0, word: 40 },
    ],
    &[Shown::Value { scalar: 0, word: 8 }],
    &[],
];

/// Whether the commits of a history change just that.
fn are_shown(records: &[Record], changes: &[&[Shown]; 3]) -> bool {
    let mut commits = 0;
    for entry in records {
        if let Record::Commit { sets, .. } = entry {
            if commits >= 3 || sets.as_slice() != changes[commits] {
                return false;
            }
            commits += 1;
        }
    }
    commits == 3
}

/// Plays `SHOWS` through a trace to its end, and looks at what its commits change.
fn shows<R: Abort + AllocGlobal>(rt: &R, trace: Trace) -> Result<(), Fail> {
    let mut fram = board(rt, &SHOWS)?;
    let mut world = TraceWorld::new(rt.alloc(), trace)?;
    let mut book = History::new(rt.alloc());
    let ended = played(rt, &mut fram, &mut world, &mut book)?;
    assert_eq!(rt; ended, EndKind::Done);
    assert!(rt; are_shown(book.records.as_slice(), &CHANGES));
    Ok(())
}

#[test]
fn each_change_is_shown_once_wherever_power_fails(rt: HostRuntime) -> Result<(), Fail> {
    let alloc = rt.alloc();
    // in the boot, before the first commit, in it and behind it, in the second and in the third, and not at all
    shows(
        &rt,
        parse_trace(alloc, b"tics-trace 1\ncycle 100 5\ncycle 2000 0\n")?,
    )?;
    shows(
        &rt,
        parse_trace(alloc, b"tics-trace 1\ncycle 140 5\ncycle 2000 0\n")?,
    )?;
    shows(
        &rt,
        parse_trace(alloc, b"tics-trace 1\ncycle 200 5\ncycle 2000 0\n")?,
    )?;
    shows(
        &rt,
        parse_trace(alloc, b"tics-trace 1\ncycle 311 5\ncycle 2000 0\n")?,
    )?;
    shows(
        &rt,
        parse_trace(alloc, b"tics-trace 1\ncycle 400 5\ncycle 2000 0\n")?,
    )?;
    shows(
        &rt,
        parse_trace(alloc, b"tics-trace 1\ncycle 550 5\ncycle 2000 0\n")?,
    )?;
    shows(&rt, parse_trace(alloc, b"tics-trace 1\ncycle 2000 0\n")?)
}
