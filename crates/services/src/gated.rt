ghost use Rattle.std.specs.Prelude.{◌≡◌, ◌<◌};

use base16::Words;
use board_map::{SEGMENT_BYTES, SEGMENTS};
use core430::{Denied, Memory};
use fram::Fram;

/// The board's memory as instructions see it: they write the working segment alone, and spend no tick here.
#[derive(Drop)]
pub struct Gated<'a> {
    pub fram: &'a mut Fram,
    /// The working segment, 0 to 31.
    pub segment: u16,
    pub ghost small: { segment < 32 },
}

impl Memory for Gated<'_> {
    ghost use Rattle.std.specs.Prelude.{not, [], ◌∷◌};
    ghost use Rattle.base16.specs.Memory.{words_of};
    ghost use Rattle.board_map.specs.Map.{in_segment};

    ghost words = { λ g. words_of g.fram.now.words };

    ghost denied = { λ g a. not (in_segment g.segment a) };

    ghost lender = { λ g. g.fram.ghost_name };

    ghost aside = { λ g. g.fram.now.poked ∷ [] };

    fn get(&self, address: u16) -> u16 {
        self.fram.word(address)
    }

    fn put(&mut self, address: u16, word: u16) -> Result<(), Denied> {
        let start = SEGMENTS + SEGMENT_BYTES * self.segment;
        if address < start || address >= start + SEGMENT_BYTES {
            return Err(Denied);
        }
        self.fram.poke(address, word);
        Ok(())
    }
}
