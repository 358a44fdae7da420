ghost use Rattle.std.specs.Prelude.{◌≡◌, ℕ, ◌+◌, ◌<◌, ◌≤◌, ◌↔◌, IsTrue};
ghost use Rattle.base16.specs.Memory.{words_of};
ghost use Rattle.board_map.specs.Map.{slot_address, undo_address, block_address, IsLoggable, IsOutside};
ghost use Rattle.board_map.specs.WellFormed.{IsWellFormed};

use crate::map::*;
use crate::read::{block_entry, count, gate, is_loggable, slot_word, undo_entry};
use base16::Words;
use base16::board::{SEGMENT_BYTES, SEGMENT_COUNT, SEGMENTS};

/// Whether the memory is one that a boot can start from: magic and version stand, the gate is 0 or 1, and the current
/// count, the current slot and the valid entries are in their ranges.
pub fn well_formed<M: Words>(words: &M) -> bool
    ensures { IsTrue result ↔ IsWellFormed (M.words words.now) }
{
    let slot = gate(words);
    if words.word(MAGIC) != MAGIC_WORD || words.word(VERSION) != LAYOUT || slot >= 2 {
        return false;
    }
    let entries = count(words, slot);
    let segment = slot_word(words, slot, SEGMENT_AT);
    let length = slot_word(words, slot, BLOCK_LENGTH_AT);
    if entries > UNDO_ENTRIES || segment >= SEGMENT_COUNT || length > BLOCK_ENTRIES {
        return false;
    }
    slot_word(words, slot, BLOCK_OPEN_AT) < 2
        && undo_entries_hold(words, entries, segment)
        && block_entries_hold(words, length)
}

/// Whether the first entries of the undo log have loggable addresses outside a stack segment.
fn undo_entries_hold<M: Words>(words: &M, entries: u16, segment: u16) -> bool
    requires entries { entries ≤ 256 }
    requires segment { segment < 32 }
    ensures { IsTrue result ↔ ((i : ℕ) → i < entries →
        IsLoggable (M.words words.now (undo_address i)) × IsOutside segment (M.words words.now (undo_address i))) }
{
    for index in 0..entries {
        let address = undo_entry(words, index).0;
        if !is_loggable(address) || !is_outside(segment, address) {
            return false;
        }
    }
    true
}

/// Whether an address lies outside a stack segment.
fn is_outside(segment: u16, address: u16) -> bool
    requires { segment < 32 }
    ensures { IsTrue result ↔ IsOutside segment address }
{
    let start = SEGMENTS + SEGMENT_BYTES * segment;
    address < start || address >= start + SEGMENT_BYTES
}

/// Whether the first entries of the block log have loggable addresses.
fn block_entries_hold<M: Words>(words: &M, length: u16) -> bool
    requires { length ≤ 128 }
    ensures { IsTrue result ↔ ((i : ℕ) → i < length → IsLoggable (M.words words.now (block_address i))) }
{
    for index in 0..length {
        if !is_loggable(block_entry(words, index).0) {
            return false;
        }
    }
    true
}
