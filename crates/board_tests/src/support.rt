// What the tests of the board share.
ghost use Rattle.std.specs.Prelude.{IfOk};
ghost use Rattle.base16.specs.Memory.{words_of};
ghost use Rattle.board_map.specs.WellFormed.{IsWellFormed};

use base16::Words;
use board_map::well_formed;
use fram::Fram;
use std::process::Abort;
use std::test::Fail;
use world::{TraceWorld, World, parse_trace};

/// The control words and registers that a load leaves: slot 0 is current, the program counter is 8000, the stack pointer
/// 2100.
pub const START: [(u16, u16); 4] = [
    (0x1002, 0x5443),
    (0x1004, 1),
    (0x1200, 0x8000),
    (0x1202, 0x2100),
];

/// Sets words by their byte addresses.
pub fn set<R: Abort>(rt: &R, fram: &mut Fram, words: &[(u16, u16)]) {
    for (address, word) in words {
        assert!(rt; *address % 2 == 0);
        fram.poke(*address, *word);
    }
}

/// A memory that is 0 but for these words.
pub fn memory<R: Abort + AllocGlobal>(rt: &R, words: &[(u16, u16)]) -> Result<Fram, Fail>
    ensures { IfOk result (λ fram. IsWellFormed (words_of fram.words)) }
{
    let mut fram = Fram::blank(rt.alloc())?;
    set(rt, &mut fram, words);
    assert!(rt; well_formed(&fram));
    Ok(fram)
}

/// A memory, the one that it is to become, and a world.
#[derive(Drop)]
pub struct Board {
    pub fram: Fram,
    pub expected: Fram,
    pub world: TraceWorld,
}

/// A memory in which these words stand and, over them, some more; the same with some writes; and so many ticks left.
pub fn board_of<R: Abort + AllocGlobal>(
    rt: &R,
    words: &[(u16, u16)],
    more: &[(u16, u16)],
    writes: &[(u16, u16)],
    ticks: u32,
) -> Result<Board, Fail> {
    let mut fram = memory(rt, words)?;
    set(rt, &mut fram, more);
    let mut expected = memory(rt, words)?;
    set(rt, &mut expected, more);
    set(rt, &mut expected, writes);
    let world = world_with(rt, ticks)?;
    Ok(Board {
        fram,
        expected,
        world,
    })
}

/// The first address at which two memories differ.
pub fn difference(left: &Fram, right: &Fram) -> Option<u16> {
    for index in 0..32768u16 {
        if left.word(2 * index) != right.word(2 * index) {
            return Some(2 * index);
        }
    }
    None
}

/// A world at 70,000 ms with so many ticks left, at most 400, before a power cycle of 400.
pub fn world_with<R: Abort + AllocGlobal>(rt: &R, ticks: u32) -> Result<TraceWorld, Fail> {
    let trace = parse_trace(
        rt.alloc(),
        b"tics-trace 1\nstart 70000\ncycle 400 0\ncycle 400 0\n",
    )?;
    let mut world = TraceWorld::new(rt.alloc(), trace)?;
    world.wake();
    for _ in ticks..400 {
        assert!(rt; world.tick().is_ok());
    }
    Ok(world)
}
