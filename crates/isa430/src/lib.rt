//! The instruction table of the 16-bit MSP430 core: which instructions there are, and how they stand in words.
#![tactic(auto)]

mod from_words;
mod instr;
mod laws;
mod table;
mod to_words;

pub use from_words::decode;
pub use instr::{Code, Cond, Dst, Gen, Instr, OneOp, Src, TwoOp};
pub use laws::{decode_of_encode, encode_of_decode};
pub use to_words::{encode, valid};

#[cfg(test)]
mod tests;
