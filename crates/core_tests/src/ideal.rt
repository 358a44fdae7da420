ghost use Rattle.std.specs.Prelude.{◌≤◌, length, IfOk};
ghost use Rattle.ideal430.specs.Loaded.{IsLoadable};

use base16::{EndKind, Image, NoMemory, Reading, Sequence, Symbols};
use ideal430::{IdealEnd, IdealState, ideal_run};
use std::alloc::Global;
use std::test::Fail;

/// An image of these words of code, and one word of data.
fn image(alloc: Global, code: &[u16]) -> Result<Image, NoMemory>
    requires { length code.now ≤ 16 }
    ensures { IfOk result (λ image. IsLoadable image.code image.globals) }
{
    let mut globals = Sequence::new(alloc);
    globals.push(0x5678)?;
    Ok(Image {
        code: Sequence::from_vec(Vec::from_slice(alloc, code)?),
        tables: 0,
        globals,
        symbols: Symbols {
            scalars: Sequence::new(alloc),
            functions: Sequence::new(alloc),
        },
    })
}

/// The readings of each run: a sensor, the clock, the sensor again.
const READINGS: [Reading; 3] = [
    Reading::Sense {
        channel: 3,
        value: 77,
    },
    Reading::Clock { ms: 5 },
    Reading::Sense {
        channel: 3,
        value: 78,
    },
];

const DONE: IdealEnd = IdealEnd::Ended(EndKind::Done);

fn word(state: &IdealState, address: u16) -> Option<u16> {
    state.words.as_slice().get(address as usize / 2).copied()
}

/// Code and number of instructions; PC, SP and R12, the marks, and how the run stands then; an address and its word.
#[test]
fn each_service_has_its_effect(rt: HostRuntime) -> Result<(), Fail> {
    for (code, instrs, registers, marks, end, address, found) in [
        // nothing yet: the words of the loaded image
        (
            [0x12b0, 0xff00].as_slice(),
            0,
            [0x8000, 0x2100, 0],
            0,
            IdealEnd::Running,
            0x1002,
            0x5443,
        ),
        (
            &[0x12b0, 0xff00],
            0,
            [0x8000, 0x2100, 0],
            0,
            IdealEnd::Running,
            0x1004,
            1,
        ),
        (
            &[0x12b0, 0xff00],
            0,
            [0x8000, 0x2100, 0],
            0,
            IdealEnd::Running,
            0x1200,
            0x8000,
        ),
        (
            &[0x12b0, 0xff00],
            0,
            [0x8000, 0x2100, 0],
            0,
            IdealEnd::Running,
            0x1202,
            0x2100,
        ),
        (
            &[0x12b0, 0xff00],
            0,
            [0x8000, 0x2100, 0],
            0,
            IdealEnd::Running,
            0x4000,
            0x5678,
        ),
        (
            &[0x12b0, 0xff00],
            0,
            [0x8000, 0x2100, 0],
            0,
            IdealEnd::Running,
            0x8002,
            0xff00,
        ),
        // halt: no mark
        (
            &[0x12b0, 0xff00],
            5,
            [0x8004, 0x2100, 0],
            0,
            DONE,
            0x20fe,
            0x8004,
        ),
        // enter with 6 bytes, below a pushed word
        (
            &[0x403f, 6, 0x1230, 0x8010, 0x12b0, 0xff02],
            3,
            [0x800c, 0x20f8, 0],
            1,
            IdealEnd::Running,
            0x20fe,
            0x8010,
        ),
        // enter with 240 bytes: four bytes stay free, or the frame goes to the next segment, below the link word
        (
            &[0x4031, 0x20f6, 0x403f, 0xf0, 0x1230, 0x8020, 0x12b0, 0xff02],
            4,
            [0x8010, 0x2004, 0],
            1,
            IdealEnd::Running,
            0x20f4,
            0x8020,
        ),
        (
            &[0x4031, 0x20f4, 0x403f, 0xf0, 0x1230, 0x8020, 0x12b0, 0xff02],
            4,
            [0x8010, 0x210e, 0],
            1,
            IdealEnd::Running,
            0x21fe,
            0x20f2,
        ),
        // 33 frames of 240 bytes have no place
        (
            &[0x403f, 0xf0, 0x1230, 1, 0x12b0, 0xff02, 0x3ffb],
            1000,
            [0xff02, 0x3f0a, 0],
            32,
            IdealEnd::Ended(EndKind::StackFull),
            0x3ffe,
            0x3e0c,
        ),
        // leave: to the return word below another one
        (
            &[
                0x403f, 6, 0x1230, 0x1111, 0x1230, 0x8014, 0x12b0, 0xff02, 0x12b0, 0xff04,
            ],
            5,
            [0x8014, 0x20fe, 0],
            2,
            IdealEnd::Running,
            0x20fc,
            0x8014,
        ),
        // of the outermost frame
        (
            &[0x403f, 6, 0x1230, 0x8004, 0x12b0, 0xff02, 0x12b0, 0xff04],
            9,
            [0x8004, 0x2100, 0],
            2,
            DONE,
            0x20fe,
            0x8004,
        ),
        // by the link word, after which a turn finds segment 0
        (
            &[
                0x4031, 0x20f4, 0x403f, 0xf0, 0x1230, 0x8014, 0x12b0, 0xff02, 0x12b0, 0xff04,
                0x12b0, 0xff06,
            ],
            6,
            [0x8018, 0x20f4, 0],
            3,
            IdealEnd::Running,
            0x20f2,
            0x8018,
        ),
        // turn
        (
            &[0x12b0, 0xff06],
            1,
            [0x8004, 0x2100, 0],
            1,
            IdealEnd::Running,
            0x20fe,
            0x8004,
        ),
        // stores of a word, to the data and to the stack, and of a byte, at an odd and at an even address
        (
            &[0x403e, 0x4000, 0x403d, 0x1234, 0x12b0, 0xff08],
            3,
            [0x800c, 0x2100, 0],
            1,
            IdealEnd::Running,
            0x4000,
            0x1234,
        ),
        (
            &[0x403e, 0x2000, 0x403d, 0x1234, 0x12b0, 0xff08],
            3,
            [0x800c, 0x2100, 0],
            1,
            IdealEnd::Running,
            0x2000,
            0x1234,
        ),
        (
            &[0x403e, 0x4001, 0x403d, 0xab12, 0x12b0, 0xff0a],
            3,
            [0x800c, 0x2100, 0],
            1,
            IdealEnd::Running,
            0x4000,
            0x1278,
        ),
        (
            &[0x403e, 0x4000, 0x403d, 0xab12, 0x12b0, 0xff0a],
            3,
            [0x800c, 0x2100, 0],
            1,
            IdealEnd::Running,
            0x4000,
            0x5612,
        ),
        // sense; the clock comes next; another channel
        (
            &[0x403f, 3, 0x12b0, 0xff10],
            2,
            [0x8008, 0x2100, 77],
            1,
            IdealEnd::Running,
            0x20fe,
            0x8008,
        ),
        (
            &[0x403f, 3, 0x12b0, 0xff10, 0x12b0, 0xff10],
            9,
            [0xff10, 0x20fe, 77],
            1,
            IdealEnd::NeedsReading,
            0x20fe,
            0x800c,
        ),
        (
            &[0x403f, 2, 0x12b0, 0xff10],
            9,
            [0xff10, 0x20fe, 0],
            0,
            IdealEnd::NeedsReading,
            0x20fe,
            0x8008,
        ),
        // emit: the word, the length, the second word, the last one that there may be, and one too many
        (
            &[0x403d, 77, 0x12b0, 0xff12],
            2,
            [0x8008, 0x2100, 0],
            1,
            IdealEnd::Running,
            0x1a02,
            77,
        ),
        (
            &[0x403d, 77, 0x12b0, 0xff12],
            2,
            [0x8008, 0x2100, 0],
            1,
            IdealEnd::Running,
            0x1a00,
            1,
        ),
        (
            &[0x403d, 77, 0x12b0, 0xff12, 0x12b0, 0xff12],
            3,
            [0x800c, 0x2100, 0],
            2,
            IdealEnd::Running,
            0x1a04,
            77,
        ),
        (
            &[0x40b2, 255, 0x1a00, 0x403d, 77, 0x12b0, 0xff12],
            3,
            [0x800e, 0x2100, 0],
            1,
            IdealEnd::Running,
            0x1c00,
            77,
        ),
        (
            &[0x40b2, 256, 0x1a00, 0x12b0, 0xff12],
            9,
            [0xff12, 0x20fe, 0],
            0,
            IdealEnd::Ended(EndKind::OutputFull),
            0x1a00,
            256,
        ),
        (
            &[0x40b2, 0xffff, 0x1a00, 0x12b0, 0xff12],
            9,
            [0xff12, 0x20fe, 0],
            0,
            IdealEnd::Ended(EndKind::OutputFull),
            0x1a00,
            0xffff,
        ),
        // checkpoint
        (
            &[0x12b0, 0xff1c],
            1,
            [0x8004, 0x2100, 0],
            1,
            IdealEnd::Running,
            0x20fe,
            0x8004,
        ),
        // no write of an instruction is refused
        (
            &[0x40b2, 5, 0x1000],
            1,
            [0x8006, 0x2100, 0],
            0,
            IdealEnd::Running,
            0x1000,
            5,
        ),
    ] {
        assert!(rt; code.len() <= 16);
        let board = image(rt.alloc(), code)?;
        let state = ideal_run(rt.alloc(), &board, &READINGS, instrs)?;
        let regs = state.regs;
        assert_eq!(rt;
            [regs.r[0], regs.r[1], regs.r[12]],
            registers,
            "registers after {code:?}"
        );
        assert_eq!(rt; state.services, marks, "marks of {code:?}");
        assert_eq!(rt; state.end, end, "end of {code:?}");
        assert_eq!(rt; word(&state, address), Some(found), "word of {code:?}");
    }
    Ok(())
}

/// Code, the marks before, and the address of the access for which the run ends.
#[test]
fn each_cause_of_wild_has_its_address(rt: HostRuntime) -> Result<(), Fail> {
    for (code, marks, address) in [
        // no service: above the last, and those that are not there yet, before any other cause
        ([0x12b0, 0xff1e].as_slice(), 0, 0xff1e),
        (&[0x12b0, 0xff3e], 0, 0xff3e),
        (&[0x12b0, 0xff0c], 0, 0xff0c),
        (&[0x12b0, 0xff0e], 0, 0xff0e),
        (&[0x12b0, 0xff14], 0, 0xff14),
        (&[0x12b0, 0xff16], 0, 0xff16),
        (&[0x12b0, 0xff18], 0, 0xff18),
        (&[0x12b0, 0xff1a], 0, 0xff1a),
        (&[0x4031, 0x3000, 0x12b0, 0xff0c], 0, 0xff0c),
        // SP odd, above the segment, at its top, below it; halt asks it too
        (&[0x4031, 0x2051, 0x4030, 0xff06], 0, 0x2051),
        (&[0x4031, 0x3000, 0x12b0, 0xff06], 0, 0x2ffe),
        (&[0x4030, 0xff00], 0, 0x2100),
        (&[0x4031, 0x2000, 0x12b0, 0xff1c], 0, 0x1ffe),
        // frames of 5, 2 and 242 bytes
        (&[0x403f, 5, 0x1230, 1, 0x12b0, 0xff02], 0, 0x20fc),
        (&[0x403f, 2, 0x1230, 1, 0x12b0, 0xff02], 0, 0x20fc),
        (&[0x403f, 242, 0x1230, 1, 0x12b0, 0xff02], 0, 0x20fc),
        (&[0x4031, 0x2050, 0x403f, 5, 0x12b0, 0xff04], 0, 0x204e),
        (&[0x4031, 0x2050, 0x403f, 2, 0x12b0, 0xff04], 0, 0x204e),
        (&[0x4031, 0x2006, 0x403f, 242, 0x12b0, 0xff04], 0, 0x2004),
        // enter with nothing pushed
        (&[0x403f, 6, 0x12b0, 0xff02], 0, 0x20fe),
        // leave past the segment's last word
        (&[0x403f, 6, 0x12b0, 0xff04], 0, 0x20fe),
        (&[0x4031, 0x20fa, 0x403f, 6, 0x12b0, 0xff04], 0, 0x20f8),
        // a link word that is odd, and one outside the segment below
        (
            &[
                0x4031, 0x20f4, 0x403f, 0xf0, 0x1230, 0x8014, 0x12b0, 0xff02, 0x40b2, 0x2051,
                0x21fe, 0x12b0, 0xff04,
            ],
            1,
            0x210c,
        ),
        (
            &[
                0x4031, 0x20f4, 0x403f, 0xf0, 0x1230, 0x8014, 0x12b0, 0xff02, 0x40b2, 0x2100,
                0x21fe, 0x12b0, 0xff04,
            ],
            1,
            0x210c,
        ),
        // stores of words: odd, behind the data, above the working segment, the outputs
        (&[0x403e, 0x4001, 0x12b0, 0xff08], 0, 0x4001),
        (&[0x403e, 0x8000, 0x12b0, 0xff08], 0, 0x8000),
        (&[0x403e, 0x2100, 0x12b0, 0xff08], 0, 0x2100),
        (&[0x403e, 0x1a00, 0x12b0, 0xff08], 0, 0x1a00),
        // of bytes
        (&[0x403e, 0x8000, 0x12b0, 0xff0a], 0, 0x8000),
        (&[0x403e, 0x1fff, 0x12b0, 0xff0a], 0, 0x1fff),
        // a channel above 15
        (&[0x403f, 16, 0x12b0, 0xff10], 0, 0xff10),
        // SP before the channel, before a place, before the number of outputs
        (&[0x4031, 0x3000, 0x403f, 16, 0x12b0, 0xff10], 0, 0x2ffe),
        (&[0x4031, 0x3000, 0x403e, 0x8000, 0x12b0, 0xff08], 0, 0x2ffe),
        (
            &[0x4031, 0x3000, 0x40b2, 256, 0x1a00, 0x12b0, 0xff12],
            0,
            0x2ffe,
        ),
        // the core's own
        (&[0x40b2, 1, 0x4001], 0, 0x4001),
        (&[0], 0, 0x8000),
    ] {
        assert!(rt; code.len() <= 16);
        let board = image(rt.alloc(), code)?;
        let state = ideal_run(rt.alloc(), &board, &READINGS, 100)?;
        assert_eq!(rt;
            state.end,
            IdealEnd::Ended(EndKind::Wild { address }),
            "end of {code:?}"
        );
        assert_eq!(rt; state.services, marks, "marks of {code:?}");
    }
    Ok(())
}
