ghost use Rattle.std.specs.Prelude.{◌≡◌, ◌+◌, ◌<◌, ◌≤◌};
ghost use Rattle.base16.specs.Memory.{words_of};
ghost use Rattle.board_map.specs.Map.{count_of, segment_of};
ghost use Rattle.board_map.specs.WellFormed.{IsWellFormed};
ghost use Rattle.core430.specs.Bytes.{with_byte};
ghost use Rattle.ideal430.specs.Shown.{stores_shown};
ghost use Rattle.services.specs.Serving.{MadeStore, MadeStores, IsPlaced, ArePlaced};

use base16::Words;
use board_map::Work;
use fram::Fram;
use ideal430::{Store, Stores};
use undo_log::put;
use world::{Off, World};

/// The word with the byte at this address replaced.
fn replaced(address: u16, word: u16, byte: u8) -> u16
    ensures { result ≡ with_byte address word byte }
{
    if address % 2 == 0 {
        word / 256 * 256 + u16::from(byte)
    } else {
        word % 256 + u16::from(byte) * 256
    }
}

/// Makes one store: straight in the working segment or as the link word of the next, and else through the undo log.
fn make<W: World>(fram: &mut Fram, world: &mut W, work: &Work, store: Store) -> Result<(), Off>
    requires well_formed { IsWellFormed (words_of fram.old.words) }
    requires room { count_of (words_of fram.old.words) < 256 }
    requires placed { IsPlaced work.now.segment store }
    requires segment { work.now.segment ≡ segment_of (words_of fram.old.words) }
    ensures made { MadeStore work.now.segment store result (words_of fram.old.words) (words_of fram.new.words)
        (W.state world.old) (W.state world.new) }
    ensures poked { fram.new.poked ≡ fram.old.poked }
{
    match store {
        Store::Word { address, word } => put(fram, world, work, address, word),
        Store::Byte { address, byte } => {
            let at = address - address % 2;
            let word = replaced(address, fram.word(at), byte);
            put(fram, world, work, at, word)
        }
        Store::Link { address, word } => fram.write(world, address, word),
    }
}

/// Makes the stores of a service in order.
pub fn make_all<W: World>(
    fram: &mut Fram,
    world: &mut W,
    work: &Work,
    stores: Stores,
) -> Result<(), Off>
    requires well_formed { IsWellFormed (words_of fram.old.words) }
    requires room { count_of (words_of fram.old.words) + 2 ≤ 256 }
    requires placed { ArePlaced work.now.segment (stores_shown stores) }
    requires segment { work.now.segment ≡ segment_of (words_of fram.old.words) }
    ensures made { MadeStores work.now.segment (stores_shown stores) result (words_of fram.old.words) (words_of fram.new.words)
        (W.state world.old) (W.state world.new) }
    ensures poked { fram.new.poked ≡ fram.old.poked }
{
    match stores {
        Stores::NoStore => {
            // Nothing was called yet that says that the world is lawful.
            let _clock = world.clock();
            Ok(())
        }
        Stores::One(only) => make(fram, world, work, only),
        Stores::Two(first, second) => match make(fram, world, work, first) {
            Ok(()) => make(fram, world, work, second),
            Err(Off) => Err(Off),
        },
    }
}
