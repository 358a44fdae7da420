/// The word that names the current slot, 0 or 1.
pub const GATE: u16 = 0x1000;

/// The word that is `MAGIC_WORD` in the memory of this board.
pub const MAGIC: u16 = 0x1002;

/// What stands at `MAGIC`.
pub const MAGIC_WORD: u16 = 0x5443;

/// The word that is the layout's version.
pub const VERSION: u16 = 0x1004;

/// What stands at `VERSION`.
pub const LAYOUT: u16 = 1;

/// The number of valid entries of the undo log, where slot 0 is the current one; that of slot 1 follows.
pub const COUNTS: u16 = 0x1010;

/// The first word of slot 0.
pub const SLOTS: u16 = 0x1100;

/// From a word of slot 0 to that of slot 1, in bytes.
pub const SLOT_STRIDE: u16 = 0x140;

/// How many words a slot has: those of the working segment, the registers, the state words.
pub const SLOT_WORDS: u16 = 153;

/// How many words a stack segment has.
pub const SEGMENT_WORDS: u16 = 128;

/// The place of R0 in a slot.
pub const REGISTERS_AT: u16 = 128;

/// The place of the working segment's number in a slot.
pub const SEGMENT_AT: u16 = 144;

/// The place in a slot of the word that is 1 where an expires block is open, and else 0.
pub const BLOCK_OPEN_AT: u16 = 145;

/// The place of the block log's length in a slot.
pub const BLOCK_LENGTH_AT: u16 = 146;

/// The place of the number of marks in a slot, low word first.
pub const MARKS_AT: u16 = 147;

/// The place of the number of commits in a slot, low word first.
pub const COMMITS_AT: u16 = 149;

/// The place in a slot of the clock as the commit began, low word first.
pub const CLOCK_AT: u16 = 151;

/// The undo log: entries of an address word and an old word.
pub const UNDO_LOG: u16 = 0x1400;

/// How many entries the undo log has.
pub const UNDO_ENTRIES: u16 = 256;

/// The block log: entries of an address word and an old word.
pub const BLOCK_LOG: u16 = 0x1800;

/// How many entries the block log has.
pub const BLOCK_ENTRIES: u16 = 128;
