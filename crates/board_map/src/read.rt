ghost use Rattle.std.specs.Prelude.{◌≡◌, ◌+◌, ◌<◌, ◌↔◌, IsTrue};
ghost use Rattle.board_map.specs.Map.{slot_address, count_address, undo_address, block_address, gate_of, IsLoggable};

use crate::map::{BLOCK_LOG, COUNTS, GATE, SLOT_STRIDE, SLOTS, UNDO_LOG};
use base16::Words;
use base16::board::{DATA_END, OUTPUTS, OUTPUTS_END, SEGMENTS};

/// The word that names the current slot.
pub fn gate<M: Words>(words: &M) -> u16
    ensures { result ≡ gate_of (M.words words.now) }
{
    words.word(GATE)
}

/// How many entries of the undo log are valid where this slot, 0 or 1, is the current one.
pub fn count<M: Words>(words: &M, slot: u16) -> u16
    requires { slot < 2 }
    ensures { result ≡ M.words words.now (count_address slot) }
{
    words.word(COUNTS + 2 * slot)
}

/// The word at an index from 0 to 152 of slot 0 or 1.
pub fn slot_word<M: Words>(words: &M, slot: u16, index: u16) -> u16
    requires slot { slot < 2 }
    requires index { index < 153 }
    ensures { result ≡ M.words words.now (slot_address slot index) }
{
    words.word(SLOTS + SLOT_STRIDE * slot + 2 * index)
}

/// The entry of the undo log at an index from 0 to 255: its address and its old word.
pub fn undo_entry<M: Words>(words: &M, index: u16) -> (u16, u16)
    requires { index < 256 }
    ensures address { result.0 ≡ M.words words.now (undo_address index) }
    ensures old { result.1 ≡ M.words words.now (undo_address index + 2) }
{
    let at = UNDO_LOG + 4 * index;
    (words.word(at), words.word(at + 2))
}

/// The entry of the block log at an index from 0 to 127: its address and its old word.
pub fn block_entry<M: Words>(words: &M, index: u16) -> (u16, u16)
    requires { index < 128 }
    ensures address { result.0 ≡ M.words words.now (block_address index) }
    ensures old { result.1 ≡ M.words words.now (block_address index + 2) }
{
    let at = BLOCK_LOG + 4 * index;
    (words.word(at), words.word(at + 2))
}

/// Whether a word may be logged: it stands at an even address of the outputs, the stack segments or the data.
pub fn is_loggable(address: u16) -> bool
    ensures { IsTrue result ↔ IsLoggable address }
{
    let outputs = address >= OUTPUTS && address < OUTPUTS_END;
    let memory = address >= SEGMENTS && address < DATA_END;
    address % 2 == 0 && (outputs || memory)
}
