use crate::serving::{registers, serves};
use crate::support::{board_of, difference};
use base16::EndKind;
use board_map::Work;
use services::Served;
use std::process::Abort;
use std::test::Fail;
use world::World;

/// A service as it is found: its number, the working segment, SP, and R13 to R15.
#[derive(Clone, Copy)]
struct Call {
    n: u16,
    segment: u16,
    sp: u16,
    arguments: [u16; 3],
}

/// A service is refused so, and changes nothing.
fn refuses<R: Abort + AllocGlobal>(
    rt: &R,
    call: Call,
    words: &[(u16, u16)],
    kind: EndKind,
) -> Result<(), Fail> {
    let control = [(0x1002, 0x5443), (0x1004, 1), (0x1220, call.segment % 32)];
    let mut board = board_of(rt, &control, words, &[], 300)?;
    let found = registers(call.n, call.sp, call.arguments);
    let mut regs = found;
    let work = Work {
        segment: call.segment,
        block_open: false,
        block_length: 0,
        marks: 6,
        commits: 2,
        since: 0,
    };
    let mut after = work;
    let served = serves(
        rt,
        &mut board.fram,
        &mut board.world,
        &mut regs,
        &mut after,
        call.n,
    );
    let expected = Served::End {
        kind,
        committed: None,
    };
    let row = [call.n, call.segment, call.sp];
    assert_eq!(rt; served, expected, "{row:?}");
    assert_eq!(rt; regs, found, "{row:?}");
    assert_eq!(rt; after, work, "{row:?}");
    assert_eq!(rt;
        [board.world.spent(), board.world.given()],
        [100, 0],
        "{row:?}"
    );
    assert_eq!(rt; difference(&board.fram, &board.expected), None, "{row:?}");
    Ok(())
}

fn wild(address: u16) -> EndKind {
    EndKind::Wild { address }
}

/// The services that the board has.
const BUILT: [u16; 9] = [0, 1, 2, 3, 4, 5, 8, 9, 14];

/// The numbers of no service, and of services that are not built; where SP is wrong too.
#[test]
fn a_number_with_no_service_is_refused_first(rt: HostRuntime) -> Result<(), Fail> {
    let table = [
        (6, 0xff0c),
        (7, 0xff0e),
        (10, 0xff14),
        (11, 0xff16),
        (12, 0xff18),
        (13, 0xff1a),
        (15, 0xff1e),
        (16, 0xff20),
        (31, 0xff3e),
    ];
    for (n, address) in table {
        for sp in [0x20f0, 0x20f1] {
            let call = Call {
                n,
                segment: 0,
                sp,
                arguments: [7, 0x4000, 4],
            };
            refuses(&rt, call, &[], wild(address))?;
        }
    }
    Ok(())
}

/// SP at an odd address, or outside the working segment; all else that a service finds is wrong too.
#[test]
fn a_wrong_stack_pointer_is_refused_next(rt: HostRuntime) -> Result<(), Fail> {
    let table = [
        (0, 0x20f1),
        (0, 0x1ffe),
        (0, 0x2100),
        (0, 0),
        (1, 0x20fe),
        (1, 0x2200),
        (31, 0x3efe),
        (31, 0x4000),
        (31, 0xfffe),
    ];
    for (segment, sp) in table {
        for n in BUILT {
            let call = Call {
                n,
                segment,
                sp,
                arguments: [7, 0x1fff, 17],
            };
            refuses(&rt, call, &[(0x1a00, 256)], wild(sp))?;
        }
    }
    Ok(())
}

/// The bytes of a frame are odd, below 4 or above 240, for `enter` and `leave`.
#[test]
fn a_wrong_frame_is_refused(rt: HostRuntime) -> Result<(), Fail> {
    for n in [1, 2] {
        for bytes in [0, 1, 2, 3, 5, 239, 241, 242, 0x8000, 0xfffe, 0xffff] {
            for (segment, sp) in [(0, 0x20f0), (1, 0x2180), (31, 0x3f04)] {
                let call = Call {
                    n,
                    segment,
                    sp,
                    arguments: [0, 0, bytes],
                };
                refuses(&rt, call, &[], wild(sp))?;
            }
        }
    }
    Ok(())
}

/// No return word was pushed before `enter`; the frame that `leave` is to leave ends above the last word; the word behind it
/// in a segment above 0 is no link word.
#[test]
fn a_frame_that_was_not_entered_is_refused(rt: HostRuntime) -> Result<(), Fail> {
    let table: [(u16, u16, u16, u16, &[(u16, u16)]); 12] = [
        (1, 0, 0x20fe, 4, &[]),
        (1, 1, 0x21fe, 240, &[]),
        (1, 31, 0x3ffe, 4, &[]),
        (2, 0, 0x20f0, 14, &[]),
        (2, 0, 0x20fe, 4, &[]),
        (2, 0, 0x20f0, 240, &[]),
        (2, 1, 0x2110, 238, &[]),
        (2, 1, 0x210c, 240, &[(0x21fe, 0x20f3)]),
        (2, 1, 0x210c, 240, &[(0x21fe, 0x2100)]),
        (2, 1, 0x210c, 240, &[(0x21fe, 0x1ffe)]),
        (2, 1, 0x210c, 240, &[(0x21fe, 0)]),
        // the segment below is 1, and not 0
        (2, 2, 0x220c, 240, &[(0x22fe, 0x20f2)]),
    ];
    for (n, segment, sp, bytes, words) in table {
        let call = Call {
            n,
            segment,
            sp,
            arguments: [0, 0, bytes],
        };
        refuses(&rt, call, words, wild(sp))?;
    }
    Ok(())
}

/// A word is stored at an odd address, a word or a byte outside the data and the segments up to the working one; a channel
/// is above 15.
#[test]
fn a_wrong_argument_is_refused(rt: HostRuntime) -> Result<(), Fail> {
    for (n, segment, address) in [
        (4, 0, 0x4001),
        (4, 0, 0x2001),
        (4, 0, 0x2100),
        (4, 0, 0x3ffe),
        (4, 0, 0x1ffe),
        (4, 0, 0x1a00),
        (4, 0, 0x1000),
        (4, 0, 0x8000),
        (4, 0, 0xfffe),
        (4, 1, 0x2200),
        (4, 1, 0x20ff),
        (5, 0, 0x2100),
        (5, 0, 0x3fff),
        (5, 0, 0x1fff),
        (5, 0, 0x1c01),
        (5, 0, 0x8000),
        (5, 0, 0xffff),
        (5, 1, 0x2201),
    ] {
        let call = Call {
            n,
            segment,
            sp: if segment == 0 { 0x20f0 } else { 0x21f0 },
            arguments: [7, address, 3],
        };
        refuses(&rt, call, &[], wild(address))?;
    }
    for channel in [16, 17, 0x8000, 0xffff] {
        let call = Call {
            n: 8,
            segment: 0,
            sp: 0x20f0,
            arguments: [7, 0x4000, channel],
        };
        refuses(&rt, call, &[], wild(0xff10))?;
    }
    Ok(())
}

/// In the last segment a frame has no place where fewer than four bytes stay free below it; 256 outputs are there.
#[test]
fn what_has_no_place_is_refused_last(rt: HostRuntime) -> Result<(), Fail> {
    for bytes in [16, 18, 240] {
        let call = Call {
            n: 1,
            segment: 31,
            sp: 0x3f10,
            arguments: [0, 0, bytes],
        };
        refuses(&rt, call, &[], EndKind::StackFull)?;
    }
    for length in [256, 257, 0xffff] {
        let call = Call {
            n: 9,
            segment: 0,
            sp: 0x20f0,
            arguments: [7, 0, 0],
        };
        refuses(&rt, call, &[(0x1a00, length)], EndKind::OutputFull)?;
    }
    Ok(())
}
