//! The check tables of a program.

ghost use Rattle.std.specs.Prelude.{◌≡◌, [], ◌∷◌, map, IfOk, OnOk};
ghost use Rattle.asm430.specs.declared.item.Item.TheVariants.{Word};
ghost use Rattle.core_tree.specs.Data.{stamps_start};
ghost use Rattle.codegen.specs.Program as spec;
ghost use Rattle.codegen.specs.Placing.{Adds};

use crate::adding::{Counted, add, add_words};
use crate::labels::table_label;
use asm430::Item;
use base16::NoMemory;
use c_run::Timed;
use core_tree::Core;
use ir::Ir;

/// The words of a row, where the stamps begin at an address.
#[tactic(auto, unfolding(core_tree::specs::Data::stamp_address))]
fn row(_core: &Core, stamps: u32, timed: Timed) -> [u16; 3]
    requires { stamps ≡ stamps_start _core.now }
    ensures { result ≡ spec.row_words _core.now timed }
{
    let address = u64::from(stamps) + 4 * u64::from(timed.stamp);
    [
        (address % 65_536) as u16,
        (timed.lifetime % 65_536) as u16,
        (timed.lifetime / 65_536 % 65_536) as u16,
    ]
}

/// Adds the rows of a table.
fn add_rows(made: &mut Counted, core: &Core, stamps: u32, rows: &[Timed]) -> Result<(), NoMemory>
    requires { stamps ≡ stamps_start core.now }
    ensures { OnOk result (Adds made.old made.new (map Word (spec.rows_words core.now rows.now))) }
{
    for timed in rows {
        add_words(made, &row(core, stamps, *timed))?;
    }
    Ok(())
}

/// Adds a table: its label and its rows.
fn add_table(
    made: &mut Counted,
    core: &Core,
    stamps: u32,
    number: u32,
    rows: &[Timed],
) -> Result<(), NoMemory>
    requires { stamps ≡ stamps_start core.now }
    ensures { OnOk result (Adds made.old made.new (spec.table_items core.now number (rows.now ∷ []))) }
{
    add(made, Item::Label(table_label(number)))?;
    add_rows(made, core, stamps, rows)
}

/// The number of a table; there is no label for one of a greater number.
fn table_number(number: usize) -> Result<u32, NoMemory>
    ensures { IfOk result (λ same. same ≡ number) }
{
    if number > 4_294_967_295 {
        return Err(NoMemory);
    }
    Ok(number as u32)
}

/// Adds all tables of a form, where the stamps begin at an address.
pub fn add_tables(made: &mut Counted, core: &Core, stamps: u32, ir: &Ir) -> Result<(), NoMemory>
    requires { stamps ≡ stamps_start core.now }
    ensures { OnOk result (Adds made.old made.new (spec.table_items core.now 0 ir.now.tables)) }
{
    let tables = ir.tables.as_slice();
    for at in 0..tables.len() {
        let number = table_number(at)?;
        let rows = tables[at].as_slice();
        add_table(made, core, stamps, number, rows)?;
    }
    Ok(())
}
