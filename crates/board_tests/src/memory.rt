use base16::Words;
use fram::Fram;
use std::test::Fail;
use world::{Off, TraceWorld, World, parse_trace};

#[test]
fn a_word_set_is_read_back_alone(rt: HostRuntime) -> Result<(), Fail> {
    let mut fram = Fram::blank(rt.alloc())?;
    fram.poke(0x4000, 7);
    fram.poke(0xfffe, 8);
    for (address, word) in [(0, 0), (0x3ffe, 0), (0x4000, 7), (0x4002, 0), (0xfffe, 8)] {
        assert_eq!(rt; fram.get(address), word, "at {address}");
        assert_eq!(rt; fram.word(address), word, "at {address}");
    }
    Ok(())
}

#[test]
fn a_write_spends_a_tick_or_changes_nothing(rt: HostRuntime) -> Result<(), Fail> {
    let trace = parse_trace(rt.alloc(), b"tics-trace 1\ncycle 1 0\n")?;
    let mut world = TraceWorld::new(rt.alloc(), trace)?;
    let mut fram = Fram::blank(rt.alloc())?;
    assert_eq!(rt; fram.write(&mut world, 0x4000, 6), Err(Off));
    assert!(rt; world.wake());
    assert_eq!(rt; fram.write(&mut world, 0x4000, 7), Ok(()));
    assert_eq!(rt; fram.write(&mut world, 0x4000, 8), Err(Off));
    assert_eq!(rt; fram.get(0x4000), 7);
    assert_eq!(rt; world.spent(), 1);
    Ok(())
}
