use crate::support::{memory, set};
use board_map::{recovered_word, well_formed};
use fram::Fram;
use std::test::Fail;

/// Slot 1 is current, segment 2 works (2200-22FF), the undo log has 2 entries, the block log has 1.
const BASE: [(u16, u16); 10] = [
    (0x1000, 1),
    (0x1002, 0x5443),
    (0x1004, 1),
    (0x1012, 2),
    (0x1360, 2),
    (0x1362, 1),
    (0x1364, 1),
    (0x1400, 0x4000),
    (0x1404, 0x1a00),
    (0x1800, 0x7ffe),
];

#[test]
fn what_is_changed_decides_whether_a_memory_is_well_formed(rt: HostRuntime) -> Result<(), Fail> {
    let table = [
        (0xfffe, 7, true),
        // the working segment of the other slot, and the other count
        (0x1220, 77, true),
        (0x1010, 257, true),
        (0x1002, 0x5442, false),
        (0x1004, 0, false),
        (0x1004, 2, false),
        (0x1000, 2, false),
        (0x1000, 0xffff, false),
        // one entry more has address 0
        (0x1012, 3, false),
        (0x1012, 257, false),
        (0x1012, 0, true),
        (0x1360, 31, true),
        (0x1360, 32, false),
        (0x1362, 0, true),
        (0x1362, 2, false),
        (0x1364, 0, true),
        (0x1364, 2, false),
        (0x1364, 129, false),
        (0x1400, 0x4001, false),
        (0x1400, 0x19fe, false),
        (0x1400, 0x1a00, true),
        (0x1400, 0x1c00, true),
        (0x1400, 0x1c02, false),
        (0x1400, 0x1ffe, false),
        (0x1400, 0x2000, true),
        (0x1400, 0x21fe, true),
        (0x1400, 0x2200, false),
        (0x1400, 0x22fe, false),
        (0x1400, 0x2300, true),
        (0x1400, 0x3ffe, true),
        (0x1400, 0x7ffe, true),
        (0x1400, 0x8000, false),
        (0x1400, 0xfffe, false),
        // the third entry is not valid
        (0x1408, 1, true),
        (0x1800, 0x2200, true),
        (0x1800, 0x7fff, false),
        (0x1800, 0x8000, false),
        (0x1800, 0x1000, false),
    ];
    for (address, word, expected) in table {
        let mut fram = memory(&rt, &BASE)?;
        set(&rt, &mut fram, &[(address, word)]);
        assert_eq!(rt; well_formed(&fram), expected, "with {word} at {address}");
    }
    Ok(())
}

#[test]
fn memories_without_form_are_refused(rt: HostRuntime) -> Result<(), Fail> {
    let mut fram = Fram::blank(rt.alloc())?;
    assert_eq!(rt; well_formed(&fram), false);
    let mut state: u32 = 12345;
    for index in 0..32768u16 {
        state = state.wrapping_mul(1103515245).wrapping_add(12345);
        fram.poke(2 * index, (state / 65536) as u16);
    }
    assert_eq!(rt; well_formed(&fram), false);
    Ok(())
}

/// Slot 0 is current, segment 1 works, the block log has 1 entry, and the undo log has 3: 1 for 4000, 2 for 2004 and 3
/// for 4000.
const ENTERED: [(u16, u16); 13] = [
    (0x1002, 0x5443),
    (0x1004, 1),
    (0x1010, 3),
    (0x1012, 1),
    (0x1220, 1),
    (0x1224, 1),
    (0x1400, 0x4000),
    (0x1402, 1),
    (0x1404, 0x2004),
    (0x1406, 2),
    (0x1408, 0x4000),
    (0x140a, 3),
    (0x1800, 0x4000),
];

/// Words that stand: the slot's copies of 2100 and 21FE, the block log, the outputs, the segments, data and code.
const STANDING: [(u16, u16); 14] = [
    (0x1100, 11),
    (0x11fe, 12),
    (0x1802, 13),
    (0x1804, 14),
    (0x1a00, 15),
    (0x1c02, 16),
    (0x2000, 17),
    (0x2004, 18),
    (0x2100, 19),
    (0x21fe, 20),
    (0x2200, 21),
    (0x4000, 22),
    (0x8000, 23),
    (0xf000, 24),
];

#[test]
fn words_recover_from_the_first_entry_or_the_copy(rt: HostRuntime) -> Result<(), Fail> {
    let mut fram = memory(&rt, &ENTERED)?;
    set(&rt, &mut fram, &STANDING);
    let table = [
        // the first of two entries, and the only one
        (0x4000, 1),
        (0x2004, 2),
        // the slot's copy stands for the working segment
        (0x2100, 11),
        (0x21fe, 12),
        // words without an entry stand
        (0x1800, 0x4000),
        (0x1802, 13),
        (0x1a00, 15),
        (0x2000, 17),
        (0x8000, 23),
        // nothing else lives: control words, logs, block entries past the length, segments above the working one
        (0x1002, 0),
        (0x1400, 0),
        (0x1804, 0),
        (0x1c02, 0),
        (0x2200, 0),
        (0x4001, 0),
        (0xf000, 0),
    ];
    for (address, word) in table {
        assert!(rt; well_formed(&fram));
        assert_eq!(rt; recovered_word(&fram, address), word, "at {address}");
    }
    // the gate before the other count is cleared takes the store at 4000 back, and after it does not
    for (count, word) in [(1, 1), (0, 22)] {
        set(&rt, &mut fram, &[(0x1012, count), (0x1000, 1)]);
        assert!(rt; well_formed(&fram));
        assert_eq!(rt; recovered_word(&fram, 0x4000), word, "with {count}");
    }
    Ok(())
}
