ghost use Rattle.std.specs.Prelude.{◌≡◌, ◌+◌, ◌<◌, ◌≤◌, ◌-◌, ◌^◌, length, drop, ℕ, List, Some, None, true, IfOk};
ghost use Rattle.base16.specs.Memory.{words_of};
ghost use Rattle.base16.specs.declared.reading.Reading.{Reading as Given};
ghost use Rattle.ideal430.specs.Service.{is_built, stores_in, refusal_of, own_ask, service_at as service_at_number};
ghost use Rattle.ideal430.specs.Ideal.{Ideal, stopped, next, served, did, run as run_of};
ghost use Rattle.ideal430.specs.Loaded.{IsLoadable, loaded, start_of, ideal};
ghost use Rattle.ideal430.specs.Shown.{AreEven, stores_shown, effect_shown};
ghost use Rattle.ideal430.specs.At.{IsAt, IsStateOf, effect_here, sensed_value};
ghost use Rattle.core430.specs.Registers.{view_of};
ghost use Rattle.ideal430.specs.declared.service.Ask.TheVariants as AskName;
ghost use Rattle.ideal430.specs.declared.state.IdealEnd.TheVariants.{Running};

use crate::deed::{Deed, Stores, deed_of, refusal};
use crate::memory::{Ram, load, make};
use crate::service::{Ask, Service, ask_of, service_at};
use crate::state::{IdealEnd, IdealState};
use base16::board::{CODE, FIRST_STACK_POINTER, SERVICES};
use base16::{EndKind, Image, NoMemory, Reading, Regs};
use core430::{Stepped, step};
use std::alloc::Global;

/// The machine: the core, the working segment, the marks that were made, the readings that were taken, and how it stands.
/// No block is ever open on it, since no service is built that opens one.
#[derive(Drop)]
pub struct Machine {
    regs: Regs,
    memory: Ram,
    segment: u16,
    marks: u32,
    taken: usize,
    end: IdealEnd,
}

/// The start, over a memory into which an image was loaded.
fn start(alloc: Global, image: &Image) -> Result<Machine, NoMemory>
    requires { IsLoadable image.now.code image.now.globals }
    ensures is { IfOk result (λ machine. (readings : List Given)
        → IsAt (start_of (loaded image.now.code image.now.globals) readings) machine readings) }
    ensures fresh { IfOk result (λ machine. machine.marks ≡ 0) }
    ensures small { IfOk result (λ machine. machine.segment < 32) }
{
    let memory = load(alloc, image)?;
    Ok(Machine {
        regs: Regs {
            r: [
                CODE,
                FIRST_STACK_POINTER,
                0,
                0,
                0,
                0,
                0,
                0,
                0,
                0,
                0,
                0,
                0,
                0,
                0,
                0,
            ],
        },
        memory,
        segment: 0,
        marks: 0,
        taken: 0,
        end: IdealEnd::Running,
    })
}

/// Makes the stores of a service.
fn make_all(memory: &mut Ram, stores: Stores)
    requires { AreEven (stores_shown stores) }
    ensures { words_of memory.new ≡ stores_in (words_of memory.old) (stores_shown stores) }
{
    match stores {
        Stores::NoStore => {}
        Stores::One(store) => make(memory, store),
        Stores::Two(first, second) => {
            make(memory, first);
            make(memory, second);
        }
    }
}

/// Does what a service does.
fn perform(machine: &mut Machine, deed: Deed)
    requires even { AreEven (stores_shown deed.stores) }
    requires marks { machine.old.marks < 2 ^ 32 - 1 }
    requires segment { deed.segment < 32 }
    ensures is { (t : Ideal) → (readings : List Given) → IsAt t machine.old readings
        → IsAt (did t (effect_shown deed)) machine.new readings }
    ensures marks { machine.new.marks ≤ machine.old.marks + 1 }
    ensures small { machine.new.segment < 32 }
{
    make_all(&mut machine.memory, deed.stores);
    machine.regs = deed.regs;
    machine.segment = deed.segment;
    if deed.marks {
        machine.marks += 1;
    }
    machine.end = if deed.ends {
        IdealEnd::Ended(EndKind::Done)
    } else {
        IdealEnd::Running
    };
}

/// Leaves all as it is but for how the run stands.
fn stop(machine: &mut Machine, end: IdealEnd)
    ensures is { (t : Ideal) → (readings : List Given) → IsAt t machine.old readings → IsAt (stopped t end) machine.new readings }
    ensures marks { machine.new.marks ≡ machine.old.marks }
    ensures segment { machine.new.segment ≡ machine.old.segment }
{
    machine.end = end;
}

/// Does what a service does that is not refused, with the value of the reading that it took.
fn act(machine: &mut Machine, service: Service, value: u16)
    requires built { is_built service ≡ true }
    requires small { machine.old.segment < 32 }
    requires marks { machine.old.marks < 2 ^ 32 - 1 }
    requires allowed { refusal_of service (view_of machine.old.regs.r) (words_of machine.old.memory) machine.old.segment None
        ≡ None }
    ensures is { (t : Ideal) → (readings : List Given) → IsAt t machine.old readings
        → IsAt (did t (effect_here service value t)) machine.new readings }
    ensures marks { machine.new.marks ≤ machine.old.marks + 1 }
    ensures small { machine.new.segment < 32 }
{
    let deed = deed_of(
        service,
        value,
        &machine.regs,
        &machine.memory,
        machine.segment,
    );
    perform(machine, deed);
}

/// The value of the next reading, if it is of this channel.
fn sensed(readings: &[Reading], taken: usize, channel: u16) -> Option<u16>
    ensures { result ≡ sensed_value channel (drop taken readings.now) }
{
    match readings.get(taken) {
        Some(Reading::Sense { channel: c, value }) if u16::from(*c) == channel => Some(*value),
        _ => None,
    }
}

/// Takes the next reading for a service that asks the sensor of a channel.
fn sense(machine: &mut Machine, service: Service, channel: u16, readings: &[Reading])
    requires built { is_built service ≡ true }
    requires small { machine.old.segment < 32 }
    requires marks { machine.old.marks < 2 ^ 32 - 1 }
    requires allowed { refusal_of service (view_of machine.old.regs.r) (words_of machine.old.memory) machine.old.segment None
        ≡ None }
    ensures is { (t : Ideal) → IsAt t machine.old readings.now → (n : ℕ) → service_at_number n ≡ Some service
        → own_ask service t.core.regs ≡ AskName.Sensor channel → IsAt (served n t) machine.new readings.now }
    ensures marks { machine.new.marks ≤ machine.old.marks + 1 }
    ensures small { machine.new.segment < 32 }
{
    match sensed(readings, machine.taken, channel) {
        Some(value) => {
            machine.taken += 1;
            act(machine, service, value);
        }
        None => stop(machine, IdealEnd::NeedsReading),
    }
}

/// Service n.
fn serve(machine: &mut Machine, n: u16, readings: &[Reading])
    requires number { n < 32 }
    requires small { machine.old.segment < 32 }
    requires marks { machine.old.marks < 2 ^ 32 - 1 }
    ensures is { (t : Ideal) → IsAt t machine.old readings.now → IsAt (served n t) machine.new readings.now }
    ensures marks { machine.new.marks ≤ machine.old.marks + 1 }
    ensures small { machine.new.segment < 32 }
{
    let Some(service) = service_at(n) else {
        let address = SERVICES + 2 * n;
        stop(machine, IdealEnd::Ended(EndKind::Wild { address }));
        return;
    };
    if let Some(kind) = refusal(
        service,
        &machine.regs,
        &machine.memory,
        machine.segment,
        None,
    ) {
        stop(machine, IdealEnd::Ended(kind));
        return;
    }
    match ask_of(service, &machine.regs) {
        Ask::Sensor { channel } => sense(machine, service, channel, readings),
        _ => act(machine, service, 0),
    }
}

/// One instruction of a run that goes on, with the service that it calls.
fn turn(machine: &mut Machine, readings: &[Reading])
    requires small { machine.old.segment < 32 }
    requires marks { machine.old.marks < 2 ^ 32 - 1 }
    requires running { machine.old.end ≡ Running }
    ensures is { (t : Ideal) → IsAt t machine.old readings.now → IsAt (next t) machine.new readings.now }
    ensures marks { machine.new.marks ≤ machine.old.marks + 1 }
    ensures small { machine.new.segment < 32 }
{
    match step(&mut machine.regs, &mut machine.memory) {
        Stepped::Next => {}
        Stepped::Service { n } => serve(machine, n, readings),
        Stepped::Wild { address } => stop(machine, IdealEnd::Ended(EndKind::Wild { address })),
    }
}

/// So many instructions, or fewer where the run stops.
fn run(machine: &mut Machine, readings: &[Reading], instrs: u32)
    requires fresh { machine.old.marks ≡ 0 }
    requires small { machine.old.segment < 32 }
    ensures { (t : Ideal) → IsAt t machine.old readings.now → IsAt (run_of instrs t) machine.new readings.now }
{
    for _made in 0..instrs {
        if !matches!(machine.end, IdealEnd::Running) {
            return;
        }
        turn(machine, readings);
    }
}

/// Where a run of the image with unbroken power stands after so many instructions, with these readings to take. It has
/// stopped before where it ended or a reading was missing.
pub fn ideal_run(
    alloc: Global,
    image: &Image,
    readings: &[Reading],
    instrs: u32,
) -> Result<IdealState, NoMemory>
    requires { IsLoadable image.now.code image.now.globals }
    ensures { IfOk result (λ state. IsStateOf (ideal image.now.code image.now.globals readings.now instrs) state) }
{
    let mut machine = start(alloc, image)?;
    run(&mut machine, readings, instrs);
    let Machine {
        regs,
        memory,
        segment: _,
        marks,
        taken: _,
        end,
    } = machine;
    Ok(IdealState {
        regs,
        words: memory.into_words(),
        services: marks,
        end,
    })
}
