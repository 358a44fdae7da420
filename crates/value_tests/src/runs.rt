//! What is done to a run: stores, marks, readings, outputs, calls, stamps and blocks.

ghost use Rattle.std.specs.Prelude.{◌≡◌, IfOk};

use base16::{EndKind, Kind, NoMemory, Reading, Sequence};
use c_run::{Halt, Run, Timed, fresh_object};
use c_values::{Location, State, Value};
use core_tree::Slot;
use std::alloc::Global;
use std::test::Fail;

fn place(object: u64) -> Location {
    Location {
        object: Some(object),
        offset: 0,
    }
}

/// Two `int`, objects 0 and 1, both undefined; one stamp, which is none.
fn two_globals(alloc: Global) -> Result<State, NoMemory>
    ensures { IfOk result (λ s. s.marks ≡ 0) }
{
    let slots = [Slot {
        offset: 0,
        kind: Kind::Int,
    }];
    let mut globals = Sequence::new(alloc);
    globals.push(fresh_object(alloc, 0, &slots)?)?;
    globals.push(fresh_object(alloc, 1, &slots)?)?;
    let mut stamps = Sequence::new(alloc);
    stamps.push(None)?;
    Ok(State {
        globals,
        calls: Sequence::new(alloc),
        stamps,
        outputs: Sequence::new(alloc),
        block: None,
        marks: 0,
    })
}

#[test]
fn stores_readings_and_outputs_are_marks(rt: HostRuntime) -> Result<(), Fail> {
    let a = rt.alloc();
    let readings = [
        Reading::Sense {
            channel: 3,
            value: 500,
        },
        Reading::Clock { ms: 1 },
    ];
    let mut run = Run::new(two_globals(a)?, 3, 2);
    let stored = run.store(a, 7, place(0), Kind::Int, Value::Int(70000), true);
    assert_eq!(rt; stored, Ok(Value::Int(4464)));
    let missing = run.store(a, 7, place(0), Kind::Int, Value::Undefined, true);
    assert_eq!(rt; missing, Err(Halt::Broken { rule: 11, node: 7 }));
    assert_eq!(rt; run.load(8, place(0), Kind::Int), Ok(Value::Int(4464)));
    assert_eq!(rt;
        run.load(8, place(1), Kind::Int),
        Err(Halt::Broken { rule: 8, node: 8 })
    );
    assert_eq!(rt;
        run.store(a, 7, place(1), Kind::Int, Value::Int(1), false),
        Ok(Value::Int(1))
    );
    assert_eq!(rt; run.sense(&readings, 3), Ok(Value::Int(500)));
    assert_eq!(rt; run.sense(&readings, 3), Err(Halt::NeedsReading));
    assert_eq!(rt; run.emit(9, Value::Int(-1)), Ok(Value::Undefined));
    assert_eq!(rt; (run.used(), run.left()), (1, 0));
    assert_eq!(rt; run.mark(), Err(Halt::Live));
    let state = run.into_state();
    assert_eq!(rt;
        (state.marks, state.outputs.as_slice()),
        (3, [65535].as_slice())
    );
    Ok(())
}

#[test]
fn a_call_has_its_objects_until_it_returns(rt: HostRuntime) -> Result<(), Fail> {
    let a = rt.alloc();
    let mut slots = Sequence::new(a);
    slots.push(Slot {
        offset: 0,
        kind: Kind::Char,
    })?;
    let objects = [slots];
    let mut run = Run::new(two_globals(a)?, 10, 2);
    let first = run.enter(a, 0, 6, &objects)?;
    assert_eq!(rt; first, 2);
    run.put_params(a, first, &[Kind::Char], &[Value::Int(300)]);
    assert_eq!(rt; run.load(1, place(2), Kind::Char), Ok(Value::Int(44)));
    run.clear(a, 2);
    assert_eq!(rt;
        run.load(1, place(2), Kind::Char),
        Err(Halt::Broken { rule: 8, node: 1 })
    );
    run.put(a, 2, Value::Int(5));
    assert_eq!(rt;
        run.enter(a, 1, 250, &objects),
        Err(Halt::Ended(EndKind::StackFull))
    );
    assert_eq!(rt; run.enter(a, 1, 240, &objects), Ok(3));
    let calls = run.state().calls.as_slice();
    assert_eq!(rt; calls.iter().map(|c| c.frame).max(), Some(0x20f8));
    assert_eq!(rt; calls.iter().map(|c| c.frame).min(), Some(0x2006));
    assert_eq!(rt; run.leave(), Ok(()));
    assert_eq!(rt;
        run.load(1, place(3), Kind::Char),
        Err(Halt::Broken { rule: 6, node: 1 })
    );
    assert_eq!(rt; run.load(1, place(2), Kind::Char), Ok(Value::Int(5)));
    let state = run.finish();
    assert_eq!(rt; (state.marks, state.calls.len()), (4, 0));
    Ok(())
}

#[test]
fn a_block_is_undone_where_a_scalar_expires(rt: HostRuntime) -> Result<(), Fail> {
    let a = rt.alloc();
    let readings = [100, 150, 151, 151, 200, 201, 202].map(|ms| Reading::Clock { ms });
    let names = [Timed {
        stamp: 0,
        lifetime: 100,
    }];
    let mut run = Run::new(two_globals(a)?, 20, 2);
    assert!(rt;
        run.store(a, 1, place(0), Kind::Int, Value::Int(7), true)
            .is_ok()
    );
    assert_eq!(rt;
        run.stamped(a, &readings, 1, place(1), Kind::Int, 0, Value::Int(5)),
        Ok(())
    );
    assert_eq!(rt;
        run.timely(&readings, 1, place(1), Kind::Int, 0, 50),
        Ok(true)
    );
    assert_eq!(rt;
        run.timely(&readings, 1, place(1), Kind::Int, 0, 50),
        Ok(false)
    );
    assert_eq!(rt; run.open_block(a, &readings, &names), Ok(true));
    assert!(rt;
        run.store(a, 1, place(0), Kind::Int, Value::Int(9), true)
            .is_ok()
    );
    assert!(rt; run.emit(1, Value::Int(1)).is_ok());
    assert_eq!(rt;
        run.state().block.as_ref().map(|saved| saved.words),
        Some(3)
    );
    assert_eq!(rt; run.check_block(&readings, &names), Ok(true));
    assert_eq!(rt; run.close_block(&readings, &names), Ok(false));
    assert_eq!(rt; run.load(1, place(0), Kind::Int), Ok(Value::Int(7)));
    assert_eq!(rt; run.open_block(a, &readings, &names), Ok(false));
    let state = run.into_state();
    assert_eq!(rt; state.marks, 10);
    assert_eq!(rt; state.stamps.as_slice(), [Some(100)].as_slice());
    assert!(rt; state.block.is_none());
    assert_eq!(rt; state.outputs.len(), 0);
    Ok(())
}

#[test]
fn blocks_and_outputs_are_full(rt: HostRuntime) -> Result<(), Fail> {
    let a = rt.alloc();
    let mut run = Run::new(two_globals(a)?, 1000, 2);
    assert!(rt;
        run.open_block(
            a,
            &[Reading::Clock { ms: 0 }, Reading::Clock { ms: 1 }],
            &[]
        )?
    );
    for _i in 0..128 {
        assert!(rt;
            run.store(a, 1, place(0), Kind::Int, Value::Int(7), true)
                .is_ok()
        );
    }
    let stored = run.store(a, 1, place(0), Kind::Int, Value::Int(7), true);
    assert_eq!(rt; stored, Err(Halt::Ended(EndKind::BlockFull)));
    assert_eq!(rt;
        run.close_block(&[Reading::Clock { ms: 0 }, Reading::Clock { ms: 1 }], &[]),
        Ok(true)
    );
    for i in 0..256 {
        assert!(rt; run.emit(1, Value::Int(i)).is_ok());
    }
    assert_eq!(rt;
        run.emit(1, Value::Int(0)),
        Err(Halt::Ended(EndKind::OutputFull))
    );
    Ok(())
}
