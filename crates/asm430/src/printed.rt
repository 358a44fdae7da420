// The printed text of a program.

ghost use Rattle.std.specs.Prelude.{◌≡◌, ◌<◌, ◌≤◌, ◌+◌, ◌*◌, ◌++◌, length, MatchOption, OnOk, IfOk, slice_index, ℕ, List, IsTrue};
ghost use Rattle.isa430.specs.declared.instr.Instr.{Instr};
ghost use Rattle.asm430.specs.Listing.{line, spaced_words, data_line, data_lines, global_line, stamp_line, function_line, symbol_lines, Entry, BeginWithNone, IsReading, are_valid, codes_of, instructions, IsListing};
ghost use Rattle.base16.specs.Hexadecimal.{hex4};
ghost use Rattle.asm430.specs.Printing.{Leads, IsFirstAdded, AreAdded};

use base16::{FuncSym, Image, NoMemory, Scalar, hex4};
use isa430::{decode, decode_of_encode, encode};
use std::alloc::Global;

/// Adds a text.
fn push_text(text: &mut Vec<u8>, more: &[u8]) -> Result<(), NoMemory>
    ensures { OnOk result (text.new.items ≡ text.old.items ++ more.now) }
{
    text.extend_from_slice(more)?;
    Ok(())
}

/// Adds a text, a word in four hexadecimal digits, and a text.
fn push_hex(text: &mut Vec<u8>, before: &[u8], word: u16, after: &[u8]) -> Result<(), NoMemory>
    ensures { OnOk result (text.new.items ≡ text.old.items ++ before.now ++ hex4 word ++ after.now) }
{
    push_text(text, before)?;
    push_text(text, &hex4(word))?;
    push_text(text, after)
}

/// Adds each word with a space before it.
fn push_words(text: &mut Vec<u8>, words: &[u16]) -> Result<(), NoMemory>
    ensures { OnOk result (text.new.items ≡ text.old.items ++ spaced_words words.now) }
{
    for word in words {
        push_hex(text, b" ", *word, b"")?;
    }
    Ok(())
}

/// Adds the line of an address and the words of an instruction.
fn push_instr(text: &mut Vec<u8>, address: u16, words: &[u16]) -> Result<(), NoMemory>
    ensures { OnOk result (text.new.items ≡ text.old.items ++ line (hex4 address ++ spaced_words words.now)) }
{
    push_hex(text, b"", address, b"")?;
    push_words(text, words)?;
    push_text(text, b"\n")
}

/// Adds the line of an address and a word that is no instruction.
fn push_datum(text: &mut Vec<u8>, address: u16, word: u16) -> Result<(), NoMemory>
    ensures { OnOk result (text.new.items ≡ text.old.items ++ data_line address word) }
{
    push_hex(text, b"", address, b" data ")?;
    push_hex(text, b"", word, b"\n")
}

/// A word of the code, 0 past its end.
fn word_at(words: &[u16], at: usize) -> u16
    ensures { result ≡ slice_index words.now at }
{
    if at < words.len() { words[at] } else { 0 }
}

/// How many words the instruction takes that these words begin with, if they begin with one.
fn instr_len(words: &[u16]) -> Option<usize>
    ensures { MatchOption result (BeginWithNone words.now) (λ taken. Leads words.now taken) }
{
    decode_of_encode();
    let (instr, _) = decode(&[word_at(words, 0), word_at(words, 1), word_at(words, 2)])?;
    let len = encode(&instr).len as usize;
    if len <= words.len() { Some(len) } else { None }
}

/// Adds the line of what these words begin with, an instruction or else a word by itself, and answers how many words it
/// takes.
fn push_first(text: &mut Vec<u8>, address: u16, words: &[u16]) -> Result<usize, NoMemory>
    requires { 0 < length words.now }
    ensures { IfOk result (λ taken. IsFirstAdded words.now address taken text.old.items text.new.items) }
{
    match instr_len(words) {
        Some(len) => {
            push_instr(text, address, &words[..len])?;
            Ok(len)
        }
        None => {
            push_datum(text, address, words[0])?;
            Ok(1)
        }
    }
}

/// Adds the lines of code that stands from address 8000 (hexadecimal) on.
fn push_code(text: &mut Vec<u8>, code: &[u16]) -> Result<(), NoMemory>
    requires { length code.now ≤ 14336 }
    ensures { OnOk result (AreAdded code.now text.old.items text.new.items) }
{
    let mut at = 0;
    while at < code.len() {
        at += push_first(text, 0x8000 + 2 * at as u16, &code[at..])?;
    }
    Ok(())
}

/// Adds the lines of the words of check tables from an address on.
fn push_data(text: &mut Vec<u8>, mut address: u32, words: &[u16]) -> Result<(), NoMemory>
    requires { address + 2 * length words.now ≤ 65536 }
    ensures { OnOk result (text.new.items ≡ text.old.items ++ data_lines address words.now) }
{
    for word in words {
        push_datum(text, address as u16, *word)?;
        address += 2;
    }
    Ok(())
}

/// Adds the line of a scalar.
fn push_global(text: &mut Vec<u8>, scalar: &Scalar) -> Result<(), NoMemory>
    ensures { OnOk result (text.new.items ≡ text.old.items ++ global_line scalar.now) }
{
    push_text(text, b"global ")?;
    push_text(text, scalar.name.bytes())?;
    push_hex(text, b" ", scalar.address, b"\n")
}

/// Adds the line of a scalar's stamp, if it has one.
fn push_stamp(text: &mut Vec<u8>, scalar: &Scalar) -> Result<(), NoMemory>
    ensures { OnOk result (text.new.items ≡ text.old.items ++ stamp_line scalar.now) }
{
    let Some(address) = scalar.stamp else {
        return Ok(());
    };
    push_text(text, b"stamp ")?;
    push_text(text, scalar.name.bytes())?;
    push_hex(text, b" ", address, b"\n")
}

/// Adds the line of a function.
fn push_function(alloc: Global, text: &mut Vec<u8>, function: &FuncSym) -> Result<(), NoMemory>
    ensures { OnOk result (text.new.items ≡ text.old.items ++ function_line function.now) }
{
    push_text(text, b"function ")?;
    push_text(text, function.name.bytes())?;
    push_hex(text, b" ", function.address, b" ")?;
    let frame = function.frame.to_string(alloc)?;
    push_text(text, frame.as_bytes())?;
    push_text(text, b"\n")
}

/// Adds the lines of the symbols of a program.
fn push_symbols(alloc: Global, text: &mut Vec<u8>, image: &Image) -> Result<(), NoMemory>
    ensures { OnOk result (text.new.items ≡ text.old.items ++ symbol_lines image.now) }
{
    for scalar in image.symbols.scalars.as_slice() {
        push_global(text, scalar)?;
    }
    for stamped in image.symbols.scalars.as_slice() {
        push_stamp(text, stamped)?;
    }
    for function in image.symbols.functions.as_slice() {
        push_function(alloc, text, function)?;
    }
    Ok(())
}

/// The listing of a program, as ASCII text but for the bytes of names: a line for each instruction of the code in order
/// of address, for each word of a check table, for each scalar, for each stamp and for each function. A word of the code
/// with which no instruction begins is printed as one of a check table.
pub fn listing(alloc: Global, image: &Image) -> Result<Vec<u8>, NoMemory>
    requires code { length image.now.code ≤ 14336 }
    requires tables { image.now.tables ≤ length image.now.code }
    ensures { IfOk result (λ text. IsListing image.now text.items) }
{
    let mut text = Vec::new(alloc);
    let code = image.code.as_slice();
    let tables = image.tables as usize;
    push_code(&mut text, &code[..tables])?;
    push_data(&mut text, 0x8000 + 2 * image.tables as u32, &code[tables..])?;
    push_symbols(alloc, &mut text, image)?;
    Ok(text)
}

/// Each code is read in one way only, so a program has one listing, and words that are instructions one after another
/// are read as these.
pub fn code_is_read_in_one_way()
    ensures one { (words : List ℕ) → (a b : List Entry) → IsReading words a → IsReading words b → a ≡ b }
    ensures instructions { (instrs : List Instr) → IsTrue (are_valid instrs) → IsReading (codes_of instrs) (instructions instrs) }
{
    decode_of_encode();
}
