ghost use Rattle.std.specs.Prelude.{◌≡◌, [], map, IfOk, OnOk};
ghost use Rattle.tics_call.specs.Run.{assigned, global_after, globals_after};

use crate::source::{Program, Store};
use base16::{Name, NoMemory};
use std::alloc::Global;

/// A global variable and the word that it holds.
#[derive(Debug, Drop)]
pub struct Variable {
    pub name: Name,
    pub value: u16,
}

/// Stores to a variable, where it is the one that the store names.
fn assign_one(variable: &mut Variable, store: &Store)
    ensures { variable.new ≡ assigned store.now variable.old }
{
    if store.name.bytes() == variable.name.bytes() {
        variable.value = store.value;
    }
}

/// Stores to the variable that the store names.
fn assign(variables: &mut Vec<Variable>, store: &Store)
    ensures { variables.new.items ≡ map (assigned store.now) variables.old.items }
{
    for variable in variables.iter_mut() {
        assign_one(variable, store);
    }
}

/// The variables before the run: each is 0.
fn fresh_variables(alloc: Global, names: &[Name]) -> Result<Vec<Variable>, NoMemory>
    ensures { IfOk result (λ variables. variables.items ≡ map (global_after []) names.now) }
{
    let mut variables = Vec::new(alloc);
    for name in names {
        let name = Name::new(alloc, name.bytes())?;
        variables.push(Variable { name, value: 0 })?;
    }
    Ok(variables)
}

/// The globals after the program's stores, made in order.
#[tactic(auto, using(crate::proofs::RunLaws::all_assigned))]
pub fn run(alloc: Global, program: &Program) -> Result<Vec<Variable>, NoMemory>
    ensures { IfOk result (λ variables. variables.items ≡ globals_after program.now) }
{
    let mut variables = fresh_variables(alloc, program.names.as_slice())?;
    let stores = program.stores.as_slice();
    for store in stores {
        assign(&mut variables, store);
    }
    Ok(variables)
}
