//! Words of 16 bits and what every layer says about them: conversions of C, registers, readings, images, names.
#![tactic(auto)]

pub mod board;
mod end;
mod hexadecimal;
mod image;
mod integer;
mod name;
mod operator;
mod placement;
mod reading;
mod registers;
mod sequence;
mod words;

pub use end::EndKind;
pub use hexadecimal::hex4;
pub use image::{FuncSym, Image, Kind, Scalar, Symbols};
pub use integer::{IntType, convert, to_signed, wrap};
pub use name::{Name, NoMemory};
pub use operator::{BinaryOp, UnaryOp};
pub use placement::{frame_below, place};
pub use reading::Reading;
pub use registers::Regs;
pub use sequence::Sequence;
pub use words::Words;
