ghost use Rattle.std.specs.Prelude.{◌≡◌, ℕ, ◌+◌, ◌*◌, ◌%◌, ◌<◌, ◌≤◌, ◌==◌, [], ◌∷◌, ◌++◌, IfSome, Some, None, if◌then◌else◌, nat_le, length, fold, min, vec_len, vec_capacity};
ghost use Rattle.base16.specs.Board.{data_end, most_outputs};
ghost use Rattle.base16.specs.Memory.{words_of};
ghost use Rattle.display.specs.Display.{AreInData, LiesInData, SameWords, ShowsSame, display_of, stamp_bytes, value_in};
ghost use Rattle.display.specs.Index.{IsIndexOf};
ghost use Rattle.display.specs.Log.{before, shown_before};
ghost use Rattle.display.specs.Sets.{value_change, stamp_change, length_change, out_change, value_set, stamp_set, all_below, sets_between};
ghost use Rattle.ideal430.specs.Service.{stamp_at};
ghost use Rattle.world.specs.declared.history.Shown.TheVariants.{Outs};
ghost use Rattle.world.specs.History.{Display, changed};

use crate::index::ScalarIndex;
use crate::log::{next_logged, word_before};
use base16::board::{DATA_END, MOST_OUTPUTS, OUTPUTS};
use base16::{Kind, Scalar, Sequence, Symbols};
use fram::Fram;
use world::Shown;

/// How many changes a commit has at most: two values and two stamps for each entry, the number of outputs, the outputs.
pub const MOST_SETS: usize = 1281;

/// Adds a change where there is room for it.
fn push_within(sets: &mut Vec<Shown>, set: Shown)
    requires { vec_len sets.old < vec_capacity sets.old }
    ensures items { sets.new.items ≡ sets.old.items ++ set ∷ [] }
    ensures len { vec_len sets.new ≡ vec_len sets.old + 1 }
    ensures capacity { vec_capacity sets.old ≤ vec_capacity sets.new }
{
    let _ = sets.push(set);
}

/// Of the word at an address, a char's byte, or the whole word of any other scalar.
fn value_in(kind: Kind, address: u16, word: u16) -> u16
    ensures { result ≡ value_in kind address word }
{
    match kind {
        Kind::Char if address % 2 == 0 => word % 256,
        Kind::Char => word / 256,
        Kind::Int | Kind::UInt | Kind::Pointer => word,
    }
}

/// The stamp of these two words, in milliseconds.
fn stamp_in(low: u16, high: u16) -> Option<u32>
    ensures { result ≡ (if nat_le 0x8000 high then None else Some (low + 65536 * high)) }
{
    if high >= 0x8000 {
        None
    } else {
        Some(u32::from(low) + 65536 * u32::from(high))
    }
}

/// The stamp at an address.
fn stamp_now(fram: &Fram, address: u16) -> Option<u32>
    requires { LiesInData address stamp_bytes }
    ensures { result ≡ stamp_at (words_of fram.now.words) address }
{
    stamp_in(fram.get(address), fram.get(address + 2))
}

/// The stamp that was at an address before the first entries of the undo log were made, so many of them.
fn stamp_before(fram: &Fram, log: u16, address: u16) -> Option<u32>
    requires log { log ≤ 256 }
    requires place { LiesInData address stamp_bytes }
    ensures { result ≡ stamp_at (before log (words_of fram.now.words)) address }
{
    let low = word_before(fram, log, address);
    stamp_in(low, word_before(fram, log, address + 2))
}

/// Adds the value of the scalar of a number, where it differs.
fn push_value(fram: &Fram, scalars: &[Scalar], log: u16, number: Option<u32>, sets: &mut Vec<Shown>)
    requires log { log ≤ 256 }
    requires known { IfSome number (λ s. s < length scalars.now) }
    requires room { vec_len sets.old < vec_capacity sets.old }
    ensures items { sets.new.items ≡ sets.old.items ++ value_change (shown_before scalars.now log (words_of fram.now.words))
        (display_of scalars.now (words_of fram.now.words)) number }
    ensures len { vec_len sets.new ≤ vec_len sets.old + 1 }
    ensures capacity { vec_capacity sets.old ≤ vec_capacity sets.new }
{
    let Some(scalar) = number else {
        return;
    };
    let symbol = &scalars[scalar as usize];
    let place = symbol.address - symbol.address % 2;
    let old = value_in(symbol.kind, symbol.address, word_before(fram, log, place));
    let word = value_in(symbol.kind, symbol.address, fram.get(place));
    if old != word {
        push_within(sets, Shown::Value { scalar, word });
    }
}

/// Adds the stamp of the scalar of a number, where it differs.
fn push_stamp(fram: &Fram, scalars: &[Scalar], log: u16, number: Option<u32>, sets: &mut Vec<Shown>)
    requires log { log ≤ 256 }
    requires placed { AreInData scalars.now }
    requires known { IfSome number (λ s. s < length scalars.now) }
    requires room { vec_len sets.old < vec_capacity sets.old }
    ensures items { sets.new.items ≡ sets.old.items ++ stamp_change (shown_before scalars.now log (words_of fram.now.words))
        (display_of scalars.now (words_of fram.now.words)) number }
    ensures len { vec_len sets.new ≤ vec_len sets.old + 1 }
    ensures capacity { vec_capacity sets.old ≤ vec_capacity sets.new }
{
    let Some(scalar) = number else {
        return;
    };
    let symbol = &scalars[scalar as usize];
    let Some(at) = symbol.stamp else {
        return;
    };
    let old = stamp_before(fram, log, at);
    let ms = stamp_now(fram, at);
    if old != ms {
        push_within(sets, Shown::Stamp { scalar, ms });
    }
}

/// Adds the values that differ, in the order of their addresses: they stand in words that have an entry.
fn push_values(
    fram: &Fram,
    scalars: &[Scalar],
    index: &ScalarIndex,
    log: u16,
    sets: &mut Vec<Shown>,
)
    requires log { log ≤ 256 }
    requires index { IsIndexOf scalars.now index.now }
    requires room { vec_len sets.old + 2 * log ≤ vec_capacity sets.old }
    ensures items { sets.new.items ≡ sets.old.items ++ all_below (value_set scalars.now
        (shown_before scalars.now log (words_of fram.now.words)) (display_of scalars.now (words_of fram.now.words))) data_end }
    ensures len { vec_len sets.new ≤ vec_len sets.old + 2 * log }
    ensures capacity { vec_capacity sets.old ≤ vec_capacity sets.new }
{
    let mut done = 0;
    'walk: loop {
        let at = next_logged(fram, log, done, DATA_END);
        if at == DATA_END {
            return;
        }
        push_value(fram, scalars, log, index.value_at(at), sets);
        push_value(fram, scalars, log, index.value_at(at + 1), sets);
        done = at + 2;
    }
}

/// Adds the stamps that differ, in the order of their addresses: one of their two words has an entry.
fn push_stamps(
    fram: &Fram,
    scalars: &[Scalar],
    index: &ScalarIndex,
    log: u16,
    sets: &mut Vec<Shown>,
)
    requires log { log ≤ 256 }
    requires placed { AreInData scalars.now }
    requires index { IsIndexOf scalars.now index.now }
    requires room { vec_len sets.old + 2 * log ≤ vec_capacity sets.old }
    ensures items { sets.new.items ≡ sets.old.items ++ all_below (stamp_set scalars.now
        (shown_before scalars.now log (words_of fram.now.words)) (display_of scalars.now (words_of fram.now.words))) data_end }
    ensures len { vec_len sets.new ≤ vec_len sets.old + 2 * log }
    ensures capacity { vec_capacity sets.old ≤ vec_capacity sets.new }
{
    let mut done = 0;
    'walk: loop {
        let at = next_logged(fram, log, done, DATA_END);
        if at == DATA_END {
            return;
        }
        if done + 2 <= at {
            push_stamp(fram, scalars, log, index.stamp_at(at - 2), sets);
        }
        push_stamp(fram, scalars, log, index.stamp_at(at), sets);
        done = at + 2;
    }
}

/// How many outputs there are, by the word that counts them.
fn outputs_in(word: u16) -> u16
    ensures { result ≡ min word most_outputs }
{
    word.min(MOST_OUTPUTS)
}

/// Adds the number of outputs, where it differs.
fn push_length(old: u16, length: u16, sets: &mut Vec<Shown>)
    requires { vec_len sets.old < vec_capacity sets.old }
    ensures items { sets.new.items ≡ sets.old.items ++ (if old == length then [] else Outs length ∷ []) }
    ensures len { vec_len sets.new ≤ vec_len sets.old + 1 }
    ensures capacity { vec_capacity sets.old ≤ vec_capacity sets.new }
{
    if old != length {
        push_within(sets, Shown::Outs { length });
    }
}

/// Adds the number of outputs where it differs, then the outputs that are new or differ.
fn push_outputs(fram: &Fram, scalars: &[Scalar], log: u16, sets: &mut Vec<Shown>)
    requires log { log ≤ 256 }
    requires room { vec_len sets.old + 257 ≤ vec_capacity sets.old }
    ensures { let d = shown_before scalars.now log (words_of fram.now.words) in
        let e = display_of scalars.now (words_of fram.now.words) in
        sets.new.items ≡ sets.old.items ++ (length_change d e ++ all_below (out_change d e) e.outputs) }
{
    let old = outputs_in(word_before(fram, log, OUTPUTS));
    let length = outputs_in(fram.get(OUTPUTS));
    push_length(old, length, sets);
    for index in 0..length {
        push_output(fram, scalars, log, old, index, sets);
    }
}

/// Adds the output at a place, where it is new or differs.
fn push_output(
    fram: &Fram,
    scalars: &[Scalar],
    log: u16,
    old: u16,
    index: u16,
    sets: &mut Vec<Shown>,
)
    requires log { log ≤ 256 }
    requires index { index < 256 }
    requires old { old ≡ (shown_before scalars.now log (words_of fram.now.words)).outputs }
    requires room { vec_len sets.old < vec_capacity sets.old }
    ensures items { sets.new.items ≡ sets.old.items ++ out_change (shown_before scalars.now log (words_of fram.now.words))
        (display_of scalars.now (words_of fram.now.words)) index }
    ensures len { vec_len sets.new ≤ vec_len sets.old + 1 }
    ensures capacity { vec_capacity sets.old ≤ vec_capacity sets.new }
{
    let _scalars = scalars;
    let at = OUTPUTS + 2 + 2 * index;
    let word = fram.get(at);
    if index >= old || word_before(fram, log, at) != word {
        push_within(sets, Shown::Out { index, word });
    }
}

/// The changes since the last commit, right after one, in the order in which they are printed. `log` is the number of
/// entries that the commit cleared, and `room` an empty `Vec` with room for all changes that there can be. It takes no
/// memory, and gives back what it does not need.
pub fn sets_since(
    fram: &Fram,
    symbols: &Symbols,
    index: &ScalarIndex,
    log: u16,
    room: Vec<Shown>,
) -> Sequence<Shown>
    requires log { log ≤ 256 }
    requires placed { AreInData symbols.now.scalars }
    requires index { IsIndexOf symbols.now.scalars index.now }
    requires empty { room.items ≡ [] }
    requires room { 1281 ≤ vec_capacity room }
    ensures sets { (old : ℕ → ℕ) → SameWords (before log (words_of fram.now.words)) old
        → result ≡ sets_between symbols.now.scalars (display_of symbols.now.scalars old)
        (display_of symbols.now.scalars (words_of fram.now.words)) }
    ensures shown { (old : ℕ → ℕ) (d : Display) → SameWords (before log (words_of fram.now.words)) old
        → ShowsSame d (display_of symbols.now.scalars old)
        → ShowsSame (fold changed d result) (display_of symbols.now.scalars (words_of fram.now.words)) }
{
    let mut sets = room;
    let scalars = symbols.scalars.as_slice();
    push_values(fram, scalars, index, log, &mut sets);
    push_stamps(fram, scalars, index, log, &mut sets);
    push_outputs(fram, scalars, log, &mut sets);
    sets.shrink_to_fit();
    Sequence::from_vec(sets)
}
