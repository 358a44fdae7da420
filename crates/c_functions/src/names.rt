//! The names and types of parameters, and the number of a function.

ghost use Rattle.std.specs.Prelude.{◌≡◌, IfOk};
ghost use Rattle.c_checking.specs.Functions as spec;

use base16::{Name, NoMemory, Sequence};
use c_checking::Parameter;
use core_tree::{Ty, copy_type};
use sqlite_items::Items;
use std::alloc::Global;

/// The names of parameters that have one.
#[tactic(auto, using(crate::proofs::Turns::named_turn, crate::proofs::Turns::unnamed_turn, crate::proofs::Turns::names_end))]
pub fn names_of(alloc: Global, params: &[Parameter]) -> Result<Sequence<Name>, NoMemory>
    ensures { IfOk result (λ names. names ≡ spec.names_of params.now) }
{
    let mut names = Sequence::new(alloc);
    for param in params {
        if let Some(name) = &param.name {
            names.push(Name::new(alloc, name.bytes())?)?;
        }
    }
    Ok(names)
}

/// The types of parameters.
#[tactic(auto, using(crate::proofs::Turns::types_turn, crate::proofs::Turns::types_end))]
pub fn types_of(alloc: Global, params: &[Parameter]) -> Result<Items<Ty>, NoMemory>
    ensures { IfOk result (λ types. types ≡ spec.types_of params.now) }
{
    let mut types = Items::new(alloc);
    for param in params {
        types.push(copy_type(alloc, &param.ty)?)?;
    }
    Ok(types)
}

/// Copies of types.
#[tactic(auto, using(crate::proofs::Turns::copied_turn, crate::proofs::Turns::copied_end))]
pub fn copied(alloc: Global, types: &[Ty]) -> Result<Items<Ty>, NoMemory>
    ensures { IfOk result (λ made. made ≡ types.now) }
{
    let mut made = Items::new(alloc);
    for ty in types {
        made.push(copy_type(alloc, ty)?)?;
    }
    Ok(made)
}

/// The place of a name among names; 0 where it is none of them.
#[tactic(auto, using(crate::proofs::Turns::place_turn, crate::proofs::Turns::place_here, crate::proofs::Turns::place_nowhere))]
pub fn place_of(names: &[Name], name: &Name) -> usize
    ensures { result ≡ spec.place_from 0 names.now name.now }
{
    for (i, other) in names.iter().enumerate() {
        if other.bytes() == name.bytes() {
            return i;
        }
    }
    0
}
