// Which place a label denotes.

ghost use Rattle.std.specs.Prelude.{◌≡◌, ℕ, ◌^◌, ◌<◌, ◌≤◌, length, IfOk, IfSome, OnOk, IsTrue};
ghost use Rattle.asm430.specs.Assembly.{are_formed, is_formed, words_of, words_in, is_label, place_of};
ghost use Rattle.asm430.specs.LabelTable.{HasLabels, Notes};

use crate::item::Item;
use base16::NoMemory;
use isa430::encode;
use std::alloc::Global;
use std::collections::BTreeMap;

/// The place in words of each label that stands, none where it stands more than once.
pub type LabelTable = BTreeMap<u64, Option<u64>>;

/// The words that an item takes, from 0 to 3.
pub fn words_of(item: &Item) -> u64
    requires { IsTrue (is_formed item.now) }
    ensures value { result ≡ words_of item.now }
    ensures range { result ≤ 3 }
{
    match *item {
        Item::Instr(instr) => u64::from(encode(&instr).len),
        Item::Label(_) => 0,
        Item::Jump(_, _) | Item::Word(_) => 1,
        Item::Branch(_) | Item::CallTo(_) | Item::AddressOf(_, _) => 2,
    }
}

/// Adds a place at which a label stands.
fn note(table: &mut LabelTable, label: u64, place: u64) -> Result<(), NoMemory>
    ensures { OnOk result (Notes table.old table.new label place) }
{
    let one = if table.contains_key(&label) {
        None
    } else {
        Some(place)
    };
    table.insert(label, one)?;
    Ok(())
}

/// The table of the labels of these items.
pub fn label_table(alloc: Global, items: &[Item]) -> Result<LabelTable, NoMemory>
    requires formed { IsTrue (are_formed items.now) }
    requires few { length items.now < 2 ^ 32 }
    ensures { IfOk result (λ table. HasLabels items.now table) }
{
    let mut table = BTreeMap::new(alloc);
    let mut place = 0;
    for item in items {
        if let Item::Label(label) = *item {
            note(&mut table, label, place)?;
        }
        place += words_of(item);
    }
    Ok(table)
}

fn is_label(label: u64, item: &Item) -> bool
    ensures { result ≡ is_label label item.now }
{
    match *item {
        Item::Label(other) => other == label,
        _ => false,
    }
}

/// The place of a label, by walking the items.
fn walked_place(items: &[Item], label: u64) -> Option<u64>
    requires formed { IsTrue (are_formed items.now) }
    requires few { length items.now < 2 ^ 32 }
    ensures { result ≡ place_of items.now label }
{
    let mut found = None;
    let mut place = 0;
    for item in items {
        if is_label(label, item) {
            if found.is_some() {
                return None;
            }
            found = Some(place);
        }
        place += words_of(item);
    }
    found
}

/// The place of a label in words, if it stands exactly once. Where there is no table, for want of memory, the items are
/// walked.
pub fn place_of(items: &[Item], table: &Option<LabelTable>, label: u64) -> Option<u64>
    requires formed { IsTrue (are_formed items.now) }
    requires few { length items.now < 2 ^ 32 }
    requires table { IfSome table.now (λ made. HasLabels items.now made) }
    ensures value { result ≡ place_of items.now label }
    ensures within { IfSome result (λ place. place ≤ words_in items.now) }
    ensures small { IfSome result (λ place. place < 2 ^ 40) }
{
    match table {
        Some(table) => table.get(&label).copied().flatten(),
        None => walked_place(items, label),
    }
}
