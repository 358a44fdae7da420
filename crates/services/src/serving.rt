ghost use Rattle.std.specs.Prelude.{◌≡◌, ℕ, ◌+◌, ◌-◌, ◌<◌, ◌≤◌, ◌^◌, true, length};
ghost use Rattle.base16.specs.Memory.{words_of};
ghost use Rattle.board_map.specs.Map.{count_of, segment_of};
ghost use Rattle.board_map.specs.WellFormed.{IsWellFormed};
ghost use Rattle.core430.specs.Registers.{view_of};
ghost use Rattle.ideal430.specs.Service.{is_built, own_ask};
ghost use Rattle.ideal430.specs.declared.service.Service.TheVariants as ServiceName;
ghost use Rattle.services.specs.Serving.{IsClosed, Gets, Serves};

use crate::acting::{Committed, act};
use base16::board::SERVICES;
use base16::{EndKind, Regs};
use board_map::Work;
use fram::Fram;
use ideal430::{Service, deed_of, refusal, service_at};
use world::{Off, World};

/// What a service came to.
#[derive(Clone, Copy, Debug, PartialEq, Eq)]
pub enum Served {
    /// The program goes on.
    Done {
        committed: Option<Committed>,
    },
    /// Power failed.
    Off,
    /// The run is over.
    End {
        kind: EndKind,
        committed: Option<Committed>,
    },
}

/// Takes the reading that a service asks for, if it does; it is 0 where it asks nothing.
fn take_reading<W: World>(world: &mut W, service: Service, regs: &Regs) -> u16
    requires built { is_built service ≡ true }
    requires channel { service ≡ ServiceName.Sense → view_of regs.now.r 15 < 16 }
    requires given { length (W.state world.old).readings < (W.state world.old).spent }
    ensures { Gets (own_ask service (view_of regs.now.r)) result (W.state world.old) (W.state world.new) }
{
    match service {
        Service::Sense => world.sense(regs.r[15] as u8),
        _ => 0,
    }
}

/// Serves the call of service n: its effect, and a commit exactly where one is due. It is `Off` exactly where fewer ticks
/// are left than that takes; then the memory recovers as before. A refused service changes nothing and takes no reading.
pub fn serve<W: World>(
    fram: &mut Fram,
    world: &mut W,
    regs: &mut Regs,
    work: &mut Work,
    n: u16,
) -> Served
    requires number { n < 32 }
    requires well_formed { IsWellFormed (words_of fram.old.words) }
    requires room { count_of (words_of fram.old.words) + 8 + work.old.block_length ≤ 256 }
    requires segment { work.old.segment ≡ segment_of (words_of fram.old.words) }
    requires closed { IsClosed work.old }
    requires marks { work.old.marks < 2 ^ 32 - 1 }
    requires commits { work.old.commits < 2 ^ 32 - 1 }
    requires given { length (W.state world.old).readings < (W.state world.old).spent }
    ensures served { Serves n regs.old.r (words_of fram.old.words) work.old (W.state world.old)
        result regs.new.r (words_of fram.new.words) work.new (W.state world.new) }
    ensures poked { fram.new.poked ≡ fram.old.poked }
{
    // A refused service calls nothing else that says that the world is lawful.
    let _clock = world.clock();
    let Some(service) = service_at(n) else {
        let kind = EndKind::Wild {
            address: SERVICES + 2 * n,
        };
        return Served::End {
            kind,
            committed: None,
        };
    };
    if let Some(kind) = refusal(service, regs, fram, work.segment, None) {
        return Served::End {
            kind,
            committed: None,
        };
    }
    let value = take_reading(world, service, regs);
    let deed = deed_of(service, value, regs, fram, work.segment);
    *regs = deed.regs;
    match act(fram, world, regs, work, &deed) {
        Ok(committed) if deed.ends => Served::End {
            kind: EndKind::Done,
            committed,
        },
        Ok(committed) => Served::Done { committed },
        Err(Off) => Served::Off,
    }
}
