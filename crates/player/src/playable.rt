ghost use Rattle.std.specs.Prelude.{◌↔◌, ◌+◌, ◌*◌, ◌^◌, ◌<◌, IsTrue};
ghost use Rattle.base16.specs.Memory.{words_of};
ghost use Rattle.board_map.specs.Map.{current};
ghost use Rattle.board_map.specs.WellFormed.{IsWellFormed};
ghost use Rattle.player.specs.Playing.{IsPlayable, kept_in};

use board_map::{BLOCK_LENGTH_AT, BLOCK_OPEN_AT, COMMITS_AT, MARKS_AT, gate, slot_word};
use fram::Fram;

/// Whether the number of two words of the current slot, low word first, is below 2^31.
fn is_small(fram: &Fram, index: u16) -> bool
    requires well_formed { IsWellFormed (words_of fram.now.words) }
    requires index { index < 152 }
    ensures { IsTrue result
        ↔ current (words_of fram.now.words) index + 65536 * current (words_of fram.now.words) (index + 1) < 2 ^ 31 }
{
    let slot = gate(fram);
    let low = u32::from(slot_word(fram, slot, index));
    let high = u32::from(slot_word(fram, slot, index + 1));
    low + 65536 * high < 0x8000_0000
}

/// Whether a well-formed memory can be played: marks and commit number of its slot are below 2^31, and no expires block is
/// open.
pub fn is_playable(fram: &Fram) -> bool
    requires { IsWellFormed (words_of fram.now.words) }
    ensures { IsTrue result ↔ IsPlayable (kept_in fram.now) }
{
    let slot = gate(fram);
    slot_word(fram, slot, BLOCK_OPEN_AT) == 0
        && slot_word(fram, slot, BLOCK_LENGTH_AT) == 0
        && is_small(fram, MARKS_AT)
        && is_small(fram, COMMITS_AT)
}
