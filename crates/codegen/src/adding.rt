//! Items one behind the other, and the number of their words.

ghost use Rattle.std.specs.Prelude.{◌≡◌, ◌+◌, ◌≤◌, [], ◌∷◌, length, map, IfOk, OnOk, IsTrue};
ghost use Rattle.asm430.specs.Assembly as spec;
ghost use Rattle.asm430.specs.declared.item.Item.TheVariants.{Word};
ghost use Rattle.codegen.specs.Placing.{Adds};

use crate::sums::further;
use asm430::Item;
use base16::NoMemory;
use isa430::encode;

/// Items, and how many words they take.
#[derive(Drop)]
pub struct Counted {
    pub items: Vec<Item>,
    pub words: u32,
}

/// The words that an item takes.
fn words_of(item: &Item) -> u32
    requires { IsTrue (spec.is_formed item.now) }
    ensures { result ≡ spec.words_of item.now }
{
    match *item {
        Item::Instr(instr) => u32::from(encode(&instr).len),
        Item::Label(_) => 0,
        Item::Jump(_, _) | Item::Word(_) => 1,
        Item::Branch(_) | Item::CallTo(_) | Item::AddressOf(_, _) => 2,
    }
}

/// Adds an item.
pub fn add(made: &mut Counted, item: Item) -> Result<(), NoMemory>
    requires { IsTrue (spec.is_formed item) }
    ensures { OnOk result (Adds made.old made.new (item ∷ [])) }
{
    let words = further(made.words, words_of(&item))?;
    made.items.push(item)?;
    made.words = words;
    Ok(())
}

/// Adds items.
pub fn add_all(made: &mut Counted, items: &[Item]) -> Result<(), NoMemory>
    requires { IsTrue (spec.are_formed items.now) }
    ensures { OnOk result (Adds made.old made.new items.now) }
{
    for item in items {
        add(made, *item)?;
    }
    Ok(())
}

/// Adds words that are no instructions.
pub fn add_words(made: &mut Counted, words: &[u16]) -> Result<(), NoMemory>
    ensures { OnOk result (Adds made.old made.new (map Word words.now)) }
{
    for word in words {
        add(made, Item::Word(*word))?;
    }
    Ok(())
}
