ghost use Rattle.std.specs.Prelude.{◌≡◌, ℕ, ◌+◌, ◌*◌, ◌^◌, ◌<◌, ◌≤◌, [], ◌++◌, length, IfOk, IfErr, IfSome, OnOk, IsTrue};
ghost use Rattle.isa430.specs.Table.{code_of, offset_formed};
ghost use Rattle.isa430.specs.Table.{valid as valid_instr};
ghost use Rattle.asm430.specs.Assembly.{are_formed, words_in, place_of, address, offset, load, call, item_words, StandInOrder, StandInMemory, faults, first, IsCause};
ghost use Rattle.asm430.specs.LabelTable.{HasLabels};
ghost use Rattle.asm430.specs.Emission.{is_ready, are_ready, words_from};

use crate::faults::{distance, first_fault};
use crate::item::{AsmErr, Item};
use crate::places::{LabelTable, label_table, place_of, words_of};
use base16::NoMemory;
use isa430::{Dst, Instr, OneOp, Src, TwoOp, encode};
use std::alloc::Global;

/// Adds the words of a valid instruction.
fn push_instr(words: &mut Vec<u16>, instr: &Instr) -> Result<(), NoMemory>
    requires { IsTrue (valid_instr instr.now) }
    ensures { OnOk result (words.new.items ≡ words.old.items ++ code_of instr.now) }
{
    let code = encode(instr);
    words.extend_from_slice(&code.words[..code.len as usize])?;
    Ok(())
}

/// The byte address of a label, 0 if it does not stand exactly once.
fn address(items: &[Item], table: &Option<LabelTable>, label: u64) -> u16
    requires formed { IsTrue (are_formed items.now) }
    requires few { length items.now < 2 ^ 32 }
    requires table { IfSome table.now (λ made. HasLabels items.now made) }
    requires short { words_in items.now ≤ 14336 }
    ensures { result ≡ address (place_of items.now label) }
{
    match place_of(items, table, label) {
        None => 0,
        Some(target) => 0x8000 + 2 * target as u16,
    }
}

/// The offset of a jump that is not far.
fn offset(items: &[Item], table: &Option<LabelTable>, place: u64, label: u64) -> i16
    requires formed { IsTrue (are_formed items.now) }
    requires few { length items.now < 2 ^ 32 }
    requires table { IfSome table.now (λ made. HasLabels items.now made) }
    requires place { place < 2 ^ 40 }
    requires near { IsTrue (offset_formed (offset place (place_of items.now label))) }
    ensures { result ≡ offset place (place_of items.now label) }
{
    match place_of(items, table, label) {
        None => 0,
        Some(target) => distance(place, target) as i16,
    }
}

/// `MOV #value,Rn`.
fn load(value: u16, register: u8) -> Instr
    ensures { result ≡ load value register }
{
    Instr::Two {
        op: TwoOp::Mov,
        byte: false,
        src: Src::Immediate(value),
        dst: Dst::Reg(register),
    }
}

/// `CALL #value`.
fn call(value: u16) -> Instr
    ensures { result ≡ call value }
{
    Instr::One {
        op: OneOp::Call,
        byte: false,
        src: Src::Immediate(value),
    }
}

/// Adds the words of an item that stands at a place.
fn push_item(
    items: &[Item],
    table: &Option<LabelTable>,
    place: u64,
    item: &Item,
    words: &mut Vec<u16>,
) -> Result<(), NoMemory>
    requires formed { IsTrue (are_formed items.now) }
    requires few { length items.now < 2 ^ 32 }
    requires table { IfSome table.now (λ made. HasLabels items.now made) }
    requires short { words_in items.now ≤ 14336 }
    requires place { place < 2 ^ 40 }
    requires ready { IsTrue (is_ready items.now place item.now) }
    ensures { OnOk result (words.new.items ≡ words.old.items ++ item_words items.now place item.now) }
{
    match *item {
        Item::Instr(instr) => push_instr(words, &instr),
        Item::Label(_) => Ok(()),
        Item::Jump(cond, label) => {
            let offset = offset(items, table, place, label);
            push_instr(words, &Instr::Jump { cond, offset })
        }
        Item::Branch(label) => push_instr(words, &load(address(items, table, label), 0)),
        Item::CallTo(label) => push_instr(words, &call(address(items, table, label))),
        Item::AddressOf(label, register) => {
            push_instr(words, &load(address(items, table, label), register))
        }
        Item::Word(word) => {
            words.push(word)?;
            Ok(())
        }
    }
}

/// The words of items without a fault.
fn emit(alloc: Global, items: &[Item], table: &Option<LabelTable>) -> Result<Vec<u16>, NoMemory>
    requires formed { IsTrue (are_formed items.now) }
    requires few { length items.now < 2 ^ 32 }
    requires table { IfSome table.now (λ made. HasLabels items.now made) }
    requires short { words_in items.now ≤ 14336 }
    requires ready { IsTrue (are_ready items.now 0 items.now) }
    ensures { IfOk result (λ words. words.items ≡ words_from items.now 0 items.now) }
{
    let mut words = Vec::new(alloc);
    let mut place = 0;
    for item in items {
        push_item(items, table, place, item, &mut words)?;
        place += words_of(item);
    }
    Ok(words)
}

/// The words of the items in order, as code from byte address 8000 (hexadecimal), with each label at its address.
pub fn assemble(alloc: Global, items: &[Item]) -> Result<Vec<u16>, AsmErr>
    requires formed { IsTrue (are_formed items.now) }
    requires few { length items.now < 2 ^ 32 }

    // Each item's words stand at its place, and there are no others.
    ensures order { IfOk result (λ words. StandInOrder items.now words.items) }
    ensures length { IfOk result (λ words. length words.items ≡ words_in items.now) }

    // Where a memory holds the words as code, it holds each item's words at the item's address.
    ensures memory { IfOk result (λ words. StandInMemory items.now words.items) }
    ensures faultless { OnOk result (faults items.now ≡ []) }
    ensures cause { IfErr result (λ fault. IsCause (faults items.now) fault) }
{
    let table = label_table(alloc, items).ok();
    if let Some(fault) = first_fault(items, &table) {
        return Err(fault);
    }
    match emit(alloc, items, &table) {
        Ok(words) => Ok(words),
        Err(_) => Err(AsmErr::NoMemory),
    }
}
