use isa430::{Cond, Instr};
use thiserror::Error;

/// One item of a program for the assembler. A label is any number.
#[derive(Clone, Copy, Debug, PartialEq, Eq)]
pub enum Item {
    /// A valid instruction as it stands.
    Instr(Instr),
    /// Here stands this label. It takes no word.
    Label(u64),
    /// A jump to a label, at most 511 words forward and 512 words back from the word after it.
    Jump(Cond, u64),
    /// `MOV #label,PC`.
    Branch(u64),
    /// `CALL #label`.
    CallTo(u64),
    /// `MOV #label,Rn`, with n from 4 to 15.
    AddressOf(u64, u8),
    /// A word that is no instruction.
    Word(u16),
}

/// Why items are not assembled.
#[derive(Clone, Copy, Debug, PartialEq, Eq, Error)]
pub enum AsmErr {
    /// A label that is used does not stand exactly once: that of the first item which uses such a label.
    #[error("the label {label} is used and does not stand exactly once")]
    Unbound { label: u64 },
    /// A jump is too far: the first such item's number in the list from 0, and its distance in words from the word
    /// after the jump.
    #[error("the jump of item {item} goes {distance} words")]
    Far { item: u32, distance: i64 },
    /// There are more than 14,336 words.
    #[error("there are more than 14336 words")]
    TooLong,
    /// Memory ran out.
    #[error("memory ran out")]
    NoMemory,
}
