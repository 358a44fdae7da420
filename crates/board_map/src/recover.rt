ghost use Rattle.std.specs.Prelude.{◌≡◌, ℕ, ◌%◌};
ghost use Rattle.base16.specs.Memory.{put};
ghost use Rattle.board_map.specs.Map.{between};
ghost use Rattle.board_map.specs.Recovered.{lives, recovered, undone};
ghost use Rattle.board_map.specs.Ticks.{TickKind, MayWrite, Keeps};
ghost use Rattle.board_map.specs.WellFormed.{IsWellFormed};

use crate::map::{BLOCK_LENGTH_AT, BLOCK_LOG, SEGMENT_AT};
use crate::read::{count, gate, slot_word, undo_entry};
use base16::Words;
use base16::board::{
    CODE, CODE_END, DATA, DATA_END, OUTPUTS, OUTPUTS_END, SEGMENT_BYTES, SEGMENTS,
};

/// The word of the recovered machine at an address: 0 where no word lives, the slot's copy in the working segment, and
/// elsewhere the old word of the first valid entry for the address, or the word that stands.
pub fn recovered_word<M: Words>(words: &M, address: u16) -> u16
    requires { IsWellFormed (M.words words.now) }
    ensures { result ≡ (recovered (M.words words.now)).memory address }
{
    if !is_live(words, address) {
        return 0;
    }
    let slot = gate(words);
    let start = SEGMENTS + SEGMENT_BYTES * slot_word(words, slot, SEGMENT_AT);
    if is_between(start, start + SEGMENT_BYTES, address) {
        return slot_word(words, slot, (address - start) / 2);
    }
    undone_word(words, address)
}

/// Whether a word of the recovered machine lives at an address.
fn is_live<M: Words>(words: &M, address: u16) -> bool
    requires { IsWellFormed (M.words words.now) }
    ensures { result ≡ lives (M.words words.now) address }
{
    let slot = gate(words);
    let block_end = BLOCK_LOG + 4 * slot_word(words, slot, BLOCK_LENGTH_AT);
    let stack_end = SEGMENTS + SEGMENT_BYTES * slot_word(words, slot, SEGMENT_AT) + SEGMENT_BYTES;
    address % 2 == 0
        && (is_between(BLOCK_LOG, block_end, address)
            || is_between(OUTPUTS, OUTPUTS_END, address)
            || is_between(SEGMENTS, stack_end, address)
            || is_between(DATA, DATA_END, address)
            || is_between(CODE, CODE_END, address))
}

fn is_between(low: u16, high: u16, address: u16) -> bool
    ensures { result ≡ between low high address }
{
    low <= address && address < high
}

/// The word at an even address with the old words of the valid entries put back: that of the first entry for the address,
/// or the word that stands.
fn undone_word<M: Words>(words: &M, address: u16) -> u16
    requires well_formed { IsWellFormed (M.words words.now) }
    requires even { address % 2 ≡ 0 }
    ensures { result ≡ undone (M.words words.now) address }
{
    for index in 0..count(words, gate(words)) {
        let (at, old) = undo_entry(words, index);
        if at == address {
            return old;
        }
    }
    words.word(address)
}

/// What a tick does that writes a word: each kind keeps the memory well formed, recovers to the machine that the kind says,
/// and has the valid entries that it says.
pub fn each_kind_of_tick_keeps<M: Words>(words: &M)
    requires { IsWellFormed (M.words words.now) }
    ensures { (kind : TickKind) (address word : ℕ) → MayWrite kind (M.words words.now) address word
        → Keeps kind (M.words words.now) (put (M.words words.now) address word) }
{
    let _words = words;
}
