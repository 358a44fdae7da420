//! The board's memory map, its readers, and the test that a memory is well formed.
#![tactic(auto)]

mod form;
mod map;
mod read;
mod recover;
mod work;

pub use base16::board::{
    CODE, CODE_END, DATA, DATA_END, OUTPUTS, OUTPUTS_END, SEGMENT_BYTES, SEGMENT_COUNT, SEGMENTS,
};
pub use form::well_formed;
pub use map::{
    BLOCK_ENTRIES, BLOCK_LENGTH_AT, BLOCK_LOG, BLOCK_OPEN_AT, CLOCK_AT, COMMITS_AT, COUNTS, GATE,
    LAYOUT, MAGIC, MAGIC_WORD, MARKS_AT, REGISTERS_AT, SEGMENT_AT, SEGMENT_WORDS, SLOT_STRIDE,
    SLOT_WORDS, SLOTS, UNDO_ENTRIES, UNDO_LOG, VERSION,
};
pub use read::{block_entry, count, gate, is_loggable, slot_word, undo_entry};
pub use recover::{each_kind_of_tick_keeps, recovered_word};
pub use work::Work;
