// Where things stand in the board's memory, in byte addresses, and the numbers that go with them. A range ends before
// its `END`.

/// The length word of the outputs.
pub const OUTPUTS: u16 = 0x1A00;

/// The end of the outputs: their length word and 256 words.
pub const OUTPUTS_END: u16 = 0x1C02;

/// How many outputs there are at most.
pub const MOST_OUTPUTS: u16 = 256;

/// The first byte of segment 0 of the stack.
pub const SEGMENTS: u16 = 0x2000;

/// How many bytes a stack segment has.
pub const SEGMENT_BYTES: u16 = 256;

/// How many stack segments there are.
pub const SEGMENT_COUNT: u16 = 32;

/// How many bytes a frame has at most.
pub const MOST_FRAME_BYTES: u16 = 240;

/// The first byte of the globals, which the stamps follow.
pub const DATA: u16 = 0x4000;

/// The end of the globals and stamps.
pub const DATA_END: u16 = 0x8000;

/// The first byte of the code, which the check tables follow.
pub const CODE: u16 = 0x8000;

/// The end of the code and the check tables.
pub const CODE_END: u16 = 0xF000;

/// The entry of service 0; that of service n stands 2 n bytes behind it.
pub const SERVICES: u16 = 0xFF00;

/// The end of the services' entries.
pub const SERVICES_END: u16 = 0xFF40;

/// The stack pointer at the start, the top of segment 0.
pub const FIRST_STACK_POINTER: u16 = 0x2100;
