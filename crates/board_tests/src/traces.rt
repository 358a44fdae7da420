use base16::Reading;
use std::process::Abort;
use std::test::Fail;
use world::{Off, Trace, TraceErr, TraceWorld, World, parse_readings, parse_trace};

/// The first text of a trace.
const HEAD: &[u8] = b"tics-trace 1\n";

/// Reads a trace that is no longer than a few million bytes.
#[tactic(auto, using(world::proofs::TextLemmas::few_lines))]
fn trace_of<R: Abort + AllocGlobal>(rt: &R, text: &[u8]) -> Result<Trace, TraceErr> {
    assert!(rt; text.len() < 4_000_000);
    parse_trace(rt.alloc(), text)
}

/// How many readings a readings file has.
#[tactic(auto, using(world::proofs::TextLemmas::few_lines))]
fn readings_in<R: Abort + AllocGlobal>(rt: &R, text: &[u8]) -> Result<usize, TraceErr> {
    assert!(rt; text.len() < 4_000_000);
    Ok(parse_readings(rt.alloc(), text)?.len())
}

/// Whether a trace is read.
fn outcome<R: Abort + AllocGlobal>(rt: &R, text: &[u8]) -> Result<(), TraceErr> {
    match trace_of(rt, text) {
        Ok(_) => Ok(()),
        Err(e) => Err(e),
    }
}

#[test]
fn the_first_bad_line_of_a_trace_is_named(rt: HostRuntime) {
    let rows: [(&[u8], u32); 33] = [
        (b"", 1),
        (b"\n\n# nothing\n", 1),
        (b"tics-trace 2", 1),
        (b"tics-trace 01", 1),
        (b"tics-trace", 1),
        (b"tics-trace 1 1", 1),
        (b"\n# first\ncycle 1 1\ntics-trace 1", 3),
        (b"tics-trace 1\r", 1),
        (b"tics-trace 1\rcycle 1 1", 1),
        (b" tics-trace 1", 1),
        (b"tics-trace 1 \n", 1),
        (b"tics-trace 1\nrate 1000\nrate 1000", 3),
        (b"tics-trace 1\nstart 1\nstart 1", 3),
        (b"tics-trace 1\nperiod 2\n\nperiod 2", 4),
        (b"tics-trace 1\ntics-trace 1", 2),
        (b"tics-trace 1\nrate 4000000\nperiod 4000000\ncycle 10\n", 4),
        (b"tics-trace 1\ncycle 00000000001 0", 2),
        (b"tics-trace 1\ncycle 4000001 0", 2),
        (b"tics-trace 1\ncycle 1 2147483648", 2),
        (b"tics-trace 1\ncycle 1 0 0", 2),
        (b"tics-trace 1\ncycle 1 0 10001", 2),
        (b"tics-trace 1\ncycle 1 0 1 1", 2),
        (b"tics-trace 1\nstart 2147483648", 2),
        (b"tics-trace 1\nrate 0", 2),
        (b"tics-trace 1\nrate 4000001", 2),
        (b"tics-trace 1\nperiod 0", 2),
        (b"tics-trace 1\nsense 16 1", 2),
        (b"tics-trace 1\nsense 0", 2),
        (b"tics-trace 1\nsense 0 65536", 2),
        (b"tics-trace 1\nsense 0 -1", 2),
        (b"tics-trace 1\ncycle x 0\ncycle x 0", 2),
        (b"tics-trace 1\ncycle\t1 0", 2),
        (b"tics-trace 1\ncycle 4000000 0\ncycle 4000000 0\n\xff", 4),
    ];
    for (text, line) in rows {
        assert_eq!(rt;
            outcome(&rt, text),
            Err(TraceErr::BadLine { line }),
            "{text:?}"
        );
    }
}

#[test]
fn traces_are_read_and_their_totals_tested(rt: HostRuntime) {
    let rows: [(&[u8], bool); 13] = [
        (b"tics-trace 1", true),
        (b"\r\n# a\r\ntics-trace   1\r\n\r\n", true),
        (
            b"tics-trace 1\nrate 4000000\nperiod 4000000\ncycle 100000 0\n",
            true,
        ),
        (b"tics-trace 1\ncycle 0010 0 0002\n", true),
        (b"tics-trace 1\ncycle 4000000 0\n", true),
        (b"tics-trace 1\ncycle 4000000 0\ncycle 4000000 0\n", false),
        (b"tics-trace 1\ncycle 4000000 0\ncycle 1 0", false),
        (b"tics-trace 1\ncycle 1 0 10000", true),
        (b"tics-trace 1\ncycle 1 0 10000\ncycle 0 0", false),
        (b"tics-trace 1\nstart 2147483647\ncycle 999 0", true),
        (b"tics-trace 1\nstart 2147483647\ncycle 1000 0", false),
        (b"tics-trace 1\nstart 2147483646\ncycle 0 1", true),
        (b"tics-trace 1\nstart 2147483646\ncycle 0 1 2", false),
    ];
    for (text, read) in rows {
        let want = if read { Ok(()) } else { Err(TraceErr::TooLong) };
        assert_eq!(rt; outcome(&rt, text), want, "{text:?}");
    }
}

/// The first line of a trace, and behind it `count` times the same piece.
fn repeated<R: AllocGlobal>(
    rt: &R,
    front: &[u8],
    piece: &[u8],
    count: u32,
) -> Result<Vec<u8>, Fail> {
    let mut text = Vec::from_slice(rt.alloc(), front)?;
    for _ in 0..count {
        text.extend_from_slice(piece)?;
    }
    Ok(text)
}

#[test]
fn long_files_are_refused(rt: HostRuntime) -> Result<(), Fail> {
    let rows: [(&[u8], &[u8], u32, bool); 4] = [
        (HEAD, b"\n", 1_048_563, true),
        (HEAD, b"\n", 1_048_564, false),
        (b"tics-trace 1\nsense 7", b" 1", 65_536, true),
        (b"tics-trace 1\nsense 7", b" 1", 65_537, false),
    ];
    for (front, piece, count, read) in rows {
        let text = repeated(&rt, front, piece, count)?;
        let want = if read { Ok(()) } else { Err(TraceErr::TooLong) };
        assert_eq!(rt; outcome(&rt, text.as_slice()), want, "{count}");
    }
    Ok(())
}

#[test]
fn readings_files_are_read_or_refused(rt: HostRuntime) -> Result<(), Fail> {
    let rows: [(&[u8], Result<usize, TraceErr>); 12] = [
        (b"clock 5", Ok(1)),
        (b"", Ok(0)),
        (b"# none\r\n\n", Ok(0)),
        (b"sense 15 65535\nclock 5\nclock 5\r\n", Ok(3)),
        (
            b"clock 6\nsense 0 1\nclock 5",
            Err(TraceErr::BadLine { line: 3 }),
        ),
        (b"sense 16 0", Err(TraceErr::BadLine { line: 1 })),
        (b"sense 0 65536", Err(TraceErr::BadLine { line: 1 })),
        (b"sense 0 1 2", Err(TraceErr::BadLine { line: 1 })),
        (b"clock 2147483648", Err(TraceErr::BadLine { line: 1 })),
        (b"clock", Err(TraceErr::BadLine { line: 1 })),
        (b"\ntics-trace 1", Err(TraceErr::BadLine { line: 2 })),
        (b"clock 1 \nclock 0", Err(TraceErr::BadLine { line: 1 })),
    ];
    for (text, want) in rows {
        assert_eq!(rt; readings_in(&rt, text), want, "{text:?}");
    }
    let most = repeated(&rt, b"", b"clock 1\n", 65_536)?;
    assert_eq!(rt; readings_in(&rt, most.as_slice()), Ok(65_536));
    let more = repeated(&rt, b"", b"clock 1\n", 65_537)?;
    assert_eq!(rt; readings_in(&rt, more.as_slice()), Err(TraceErr::TooLong));
    Ok(())
}

/// What one call on a world answered.
#[derive(Clone, Copy)]
enum Call {
    Wake(bool),
    Tick(bool),
    Sense(u8, u16),
    Now(u32),
}

/// Makes one call and compares its answer.
fn make_call<R: Abort>(rt: &R, world: &mut TraceWorld, call: Call) {
    match call {
        Call::Wake(want) => assert_eq!(rt; world.wake(), want),
        Call::Tick(want) => assert_eq!(rt; world.tick() == Ok(()), want),
        Call::Sense(channel, want) => {
            assert!(rt; channel < 16 && world.given() < world.spent());
            assert_eq!(rt; world.sense(channel), want);
        }
        Call::Now(want) => {
            assert!(rt; world.given() < world.spent());
            assert_eq!(rt; world.now(), want);
        }
    }
}

#[test]
fn a_trace_is_played_cycle_by_cycle(rt: HostRuntime) -> Result<(), Fail> {
    let text =
        b"tics-trace 1\nstart 7\nrate 2\nperiod 5\nsense 3 10 20\ncycle 3 100\ncycle 2 9\nsense 3 30\n";
    let mut world = TraceWorld::new(rt.alloc(), trace_of(&rt, text)?)?;
    assert_eq!(rt; world.clock(), 7);
    assert_eq!(rt; world.period(), 5);
    assert_eq!(rt; world.tick(), Err(Off));
    let calls = [
        Call::Wake(true),
        Call::Tick(true),
        Call::Now(7),
        Call::Tick(true),
        Call::Sense(3, 10),
        Call::Tick(true),
        Call::Sense(3, 20),
        Call::Tick(false),
        Call::Wake(true),
        Call::Tick(true),
        Call::Sense(3, 30),
        Call::Tick(true),
        Call::Now(109),
        Call::Tick(false),
        Call::Wake(false),
        Call::Tick(false),
    ];
    for c in calls {
        make_call(&rt, &mut world, c);
    }
    assert_eq!(rt; world.spent(), 5);
    assert_eq!(rt; world.given(), 5);
    assert!(rt; world.given() > 4);
    assert_eq!(rt; world.reading(4), Reading::Clock { ms: 109 });
    Ok(())
}

#[test]
fn the_last_value_repeats_and_no_value_is_0(rt: HostRuntime) -> Result<(), Fail> {
    let text = b"tics-trace 1\nsense 2 4\nsense 2 5\ncycle 9 0\n";
    let mut world = TraceWorld::new(rt.alloc(), trace_of(&rt, text)?)?;
    let calls = [
        Call::Wake(true),
        Call::Tick(true),
        Call::Sense(2, 4),
        Call::Tick(true),
        Call::Sense(2, 5),
        Call::Tick(true),
        Call::Sense(2, 5),
        Call::Tick(true),
        Call::Sense(1, 0),
    ];
    for c in calls {
        make_call(&rt, &mut world, c);
    }
    Ok(())
}
