// What is at fault.

ghost use Rattle.std.specs.Prelude.{◌≡◌, ℕ, ◌+◌, ◌^◌, ◌<◌, ◌≤◌, length, IfSome, IsTrue};
ghost use Rattle.asm430.specs.Assembly.{are_formed, words_of, words_in, place_of, used, distance, unbound_by, unbound_in, far_by, far_in, first, faults};
ghost use Rattle.asm430.specs.LabelTable.{HasLabels};

use crate::item::{AsmErr, Item};
use crate::places::{LabelTable, place_of, words_of};

fn used(item: &Item) -> Option<u64>
    ensures { result ≡ used item.now }
{
    match *item {
        Item::Jump(_, label)
        | Item::Branch(label)
        | Item::CallTo(label)
        | Item::AddressOf(label, _) => Some(label),
        Item::Instr(_) | Item::Label(_) | Item::Word(_) => None,
    }
}

/// The label that an item uses, if it does not stand exactly once.
fn unbound(items: &[Item], table: &Option<LabelTable>, item: &Item) -> Option<AsmErr>
    requires formed { IsTrue (are_formed items.now) }
    requires few { length items.now < 2 ^ 32 }
    requires table { IfSome table.now (λ made. HasLabels items.now made) }
    ensures { result ≡ first (unbound_by items.now (used item.now)) }
{
    let Some(label) = used(item) else {
        return None;
    };
    match place_of(items, table, label) {
        Some(_) => None,
        None => Some(AsmErr::Unbound { label }),
    }
}

/// The first used label that does not stand exactly once.
fn first_unbound(items: &[Item], table: &Option<LabelTable>) -> Option<AsmErr>
    requires formed { IsTrue (are_formed items.now) }
    requires few { length items.now < 2 ^ 32 }
    requires table { IfSome table.now (λ made. HasLabels items.now made) }
    ensures { result ≡ first (unbound_in items.now items.now) }
{
    for item in items {
        let fault = unbound(items, table, item);
        if fault.is_some() {
            return fault;
        }
    }
    None
}

/// The words from the one after a jump to its target.
pub fn distance(place: u64, target: u64) -> i64
    requires place { place < 2 ^ 40 }
    requires target { target < 2 ^ 40 }
    ensures { result ≡ distance place target }
{
    target as i64 - (place + 1) as i64
}

/// A jump that goes too far.
fn far(
    items: &[Item],
    table: &Option<LabelTable>,
    number: u32,
    place: u64,
    item: &Item,
) -> Option<AsmErr>
    requires formed { IsTrue (are_formed items.now) }
    requires few { length items.now < 2 ^ 32 }
    requires table { IfSome table.now (λ made. HasLabels items.now made) }
    requires place { place < 2 ^ 40 }
    ensures { result ≡ first (far_by items.now number place item.now) }
{
    let Item::Jump(_, label) = *item else {
        return None;
    };
    let Some(target) = place_of(items, table, label) else {
        return None;
    };
    let distance = distance(place, target);
    if distance >= -512 && distance < 512 {
        None
    } else {
        Some(AsmErr::Far {
            item: number,
            distance,
        })
    }
}

/// The first jump that goes too far.
fn first_far(items: &[Item], table: &Option<LabelTable>) -> Option<AsmErr>
    requires formed { IsTrue (are_formed items.now) }
    requires few { length items.now < 2 ^ 32 }
    requires table { IfSome table.now (λ made. HasLabels items.now made) }
    ensures { result ≡ first (far_in items.now 0 0 items.now) }
{
    let mut number = 0;
    let mut place = 0;
    for item in items {
        let fault = far(items, table, number, place, item);
        if fault.is_some() {
            return fault;
        }
        number += 1;
        place += words_of(item);
    }
    None
}

/// The words that items take.
fn words_in(items: &[Item]) -> u64
    requires formed { IsTrue (are_formed items.now) }
    requires few { length items.now < 2 ^ 32 }
    ensures { result ≡ words_in items.now }
{
    let mut words = 0;
    for item in items {
        words += words_of(item);
    }
    words
}

/// The first fault: of a label, then of a jump, then of the length.
pub fn first_fault(items: &[Item], table: &Option<LabelTable>) -> Option<AsmErr>
    requires formed { IsTrue (are_formed items.now) }
    requires few { length items.now < 2 ^ 32 }
    requires table { IfSome table.now (λ made. HasLabels items.now made) }
    ensures { result ≡ first (faults items.now) }
{
    let unbound = first_unbound(items, table);
    if unbound.is_some() {
        return unbound;
    }
    let far = first_far(items, table);
    if far.is_some() {
        return far;
    }
    if words_in(items) > 14336 {
        Some(AsmErr::TooLong)
    } else {
        None
    }
}
