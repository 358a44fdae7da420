//! The scalars of an object: the one at an offset is found without a walk where the offsets rise.

ghost use Rattle.std.specs.Prelude.{◌≡◌, ◌≤◌, ◌<◌, length, map, true, IfOk, Some, None, slice_get};
ghost use Rattle.std.specs.Option.{option_copied};
ghost use Rattle.c_values.specs.Objects as spec;
ghost use Rattle.c_values.specs.Ordered as ordered;
ghost use Rattle.c_values.specs.Extents as extents;

use crate::extent::end_of_cells;
use crate::value::{Cell, Value};
use base16::{NoMemory, Sequence};
use std::alloc::Global;
use std::marker::Model;

/// The scalars of an object in order, which contracts see as the list of them.
#[derive(Drop)]
pub struct Cells {
    items: Sequence<Cell>,
    /// Whether each offset is above the one before it.
    rising: bool,
    /// The greatest offset that a pointer into the object has.
    end: u32,
}

impl Model for Cells {
    ghost use Rattle.std.specs.Prelude.{List, ◌≡◌};
    ghost use Rattle.c_values.specs.declared.value.Cell.{Cell as ACell};

    ghost Value = { List ACell };

    ghost use Rattle.c_values.specs.Ordered.{rises_from};
    ghost use Rattle.c_values.specs.Extents.{end_of_cells};

    ghost view = { λ c. c.items };

    ghost invariant = { λ c. (c.rising ≡ rises_from 0 c.items) × (c.end ≡ end_of_cells c.items) };
}

/// Whether each offset is above the one before it.
fn is_rising(cells: &[Cell]) -> bool
    ensures { result ≡ ordered.rises_from 0 cells.now }
{
    let mut low = 0;
    for cell in cells {
        if u32::from(cell.offset) < low {
            return false;
        }
        low = u32::from(cell.offset) + 1;
    }
    true
}

/// How many scalars have offsets below this, where the offsets rise.
#[tactic(auto, using(crate::proofs::Halving::below_more, crate::proofs::Halving::below_less, crate::proofs::Halving::below_within))]
fn count_below(cells: &[Cell], offset: u32) -> usize
    requires { ordered.rises_from 0 cells.now ≡ true }
    ensures { result ≡ ordered.count_below offset cells.now }
{
    let mut low = 0;
    let mut high = cells.len();
    while low < high {
        let middle = low + (high - low) / 2;
        if u32::from(cells[middle].offset) < offset {
            low = middle + 1;
        } else {
            high = middle;
        }
    }
    low
}

/// The scalar at an offset, by a walk.
fn walk_to(offset: u32, cells: &[Cell]) -> Option<&Cell>
    ensures { option_copied result ≡ spec.find_cell offset cells.now }
{
    for cell in cells {
        if u32::from(cell.offset) == offset {
            return Some(cell);
        }
    }
    None
}

/// The scalar at an offset, where the offsets rise.
#[tactic(auto, using(crate::proofs::Halving::find_at, crate::proofs::Halving::find_past))]
fn halve_to(offset: u32, cells: &[Cell]) -> Option<&Cell>
    requires { ordered.rises_from 0 cells.now ≡ true }
    ensures { option_copied result ≡ spec.find_cell offset cells.now }
{
    let place = count_below(cells, offset);
    if place >= cells.len() {
        return None;
    }
    let cell = &cells[place];
    if u32::from(cell.offset) == offset {
        Some(cell)
    } else {
        None
    }
}

/// A scalar, set where it stands at an offset.
fn put_cell(cell: Cell, offset: u32, value: Value) -> Cell
    ensures { result ≡ spec.put_cell offset value cell }
{
    if u32::from(cell.offset) == offset {
        Cell { value, ..cell }
    } else {
        cell
    }
}

/// Sets the scalar at an offset, by a walk.
#[tactic(auto, using(std::proofs::lemmas::List::Edits::map_over_more))]
fn put_walking(cells: &mut Sequence<Cell>, offset: u32, value: Value)
    ensures { cells.new ≡ map (spec.put_cell offset value) cells.old }
{
    for i in 0..cells.len() {
        let cell = cells.as_slice()[i];
        cells.set(i, put_cell(cell, offset, value));
    }
}

/// Sets the scalar at an offset, where the offsets rise.
#[tactic(auto, using(crate::proofs::Halving::put_below, crate::proofs::Halving::put_none))]
fn put_halving(cells: &mut Sequence<Cell>, offset: u32, value: Value)
    requires { ordered.rises_from 0 cells.old ≡ true }
    ensures { cells.new ≡ map (spec.put_cell offset value) cells.old }
{
    let place = count_below(cells.as_slice(), offset);
    if place < cells.len() {
        let cell = cells.as_slice()[place];
        cells.set(place, put_cell(cell, offset, value));
    }
}

fn cleared_cell(cell: Cell) -> Cell
    ensures { result ≡ spec.cleared_cell cell }
{
    Cell {
        value: Value::Undefined,
        ..cell
    }
}

/// Makes all scalars undefined.
#[tactic(auto, using(std::proofs::lemmas::List::Edits::map_over_more))]
fn clear_all(cells: &mut Sequence<Cell>)
    ensures { cells.new ≡ map spec.cleared_cell cells.old }
{
    for i in 0..cells.len() {
        let cell = cells.as_slice()[i];
        cells.set(i, cleared_cell(cell));
    }
}

impl Cells {
    /// The scalars of a `Vec`, in its own memory.
    pub fn from_vec(items: Vec<Cell>) -> Cells
        ensures { result ≡ items.items }
    {
        let rising = is_rising(items.as_slice());
        let end = end_of_cells(items.as_slice());
        Cells {
            items: Sequence::from_vec(items),
            rising,
            end,
        }
    }

    /// The `Vec` of the scalars, in the same memory.
    pub fn into_vec(self) -> Vec<Cell>
        ensures { result.items ≡ self }
    {
        let Cells { items, .. } = self;
        items.into_vec()
    }

    /// The scalars in order.
    pub fn as_slice(&self) -> &[Cell]
        ensures { result.now ≡ self.now }
    {
        self.items.as_slice()
    }

    /// The scalar at an offset.
    pub fn find(&self, offset: u32) -> Option<&Cell>
        ensures { option_copied result ≡ spec.find_cell offset self.now }
    {
        if self.rising {
            halve_to(offset, self.items.as_slice())
        } else {
            walk_to(offset, self.items.as_slice())
        }
    }

    /// Sets the scalar at an offset, if there is one.
    #[tactic(auto, using(crate::proofs::Halving::rises_put, crate::proofs::Extents::end_put))]
    pub fn put(&mut self, offset: u32, value: Value)
        ensures { self.new ≡ map (spec.put_cell offset value) self.old }
    {
        if self.rising {
            put_halving(&mut self.items, offset, value);
        } else {
            put_walking(&mut self.items, offset, value);
        }
    }

    /// Makes all scalars undefined.
    #[tactic(auto, using(crate::proofs::Halving::rises_cleared, crate::proofs::Extents::end_cleared))]
    pub fn clear(&mut self)
        ensures { self.new ≡ map spec.cleared_cell self.old }
    {
        clear_all(&mut self.items);
    }

    /// The greatest offset that a pointer into the object has.
    #[tactic(auto, using(crate::proofs::Extents::end_low))]
    pub fn end(&self) -> u32
        ensures value { result ≡ extents.end_of_cells self.now }
        ensures high { result < 65536 }
    {
        self.end
    }

    /// The same scalars in memory of their own.
    pub fn copy(&self, alloc: Global) -> Result<Cells, NoMemory>
        ensures { IfOk result (λ made. made ≡ self.now) }
    {
        let items = self.items.as_slice().to_vec(alloc)?;
        Ok(Cells {
            items: Sequence::from_vec(items),
            rising: self.rising,
            end: self.end,
        })
    }
}
