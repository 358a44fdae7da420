//! How far the scalars of an object reach.

ghost use Rattle.std.specs.Prelude.{◌≡◌, ◌<◌};
ghost use Rattle.c_values.specs.Objects as objects;
ghost use Rattle.c_values.specs.Extents as spec;

use crate::value::Cell;
use base16::Kind;

fn is_wide(kind: Kind) -> bool
    ensures { result ≡ objects.wide kind }
{
    match kind {
        Kind::Char => false,
        Kind::Int | Kind::UInt | Kind::Pointer => true,
    }
}

fn reach(cell: &Cell) -> u32
    ensures value { result ≡ objects.reach cell.now }
    ensures high { result < 65538 }
{
    u32::from(cell.offset) + if is_wide(cell.kind) { 2 } else { 1 }
}

fn reach_of(cells: &[Cell]) -> u32
    ensures value { result ≡ objects.reach_of cells.now }
    ensures high { result < 65538 }
{
    let mut far = 0;
    for cell in cells {
        far = far.max(reach(cell));
    }
    far
}

fn some_wide(cells: &[Cell]) -> bool
    ensures { result ≡ objects.some_wide cells.now }
{
    for cell in cells {
        if is_wide(cell.kind) {
            return true;
        }
    }
    false
}

/// The greatest offset that a pointer into an object of these scalars has.
pub fn end_of_cells(cells: &[Cell]) -> u32
    ensures { result ≡ spec.end_of_cells cells.now }
{
    let far = reach_of(cells);
    let size = if some_wide(cells) { far + far % 2 } else { far };
    size.min(65535)
}
