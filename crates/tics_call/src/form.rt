//! From the tree of a source to its program.

ghost use Rattle.std.specs.Prelude.{◌≡◌, ◌++◌, ◌∷◌, [], ℕ, List, Some, None, length, not, nat_le, IfOk, MatchOption, ◌&&◌, true};
ghost use Rattle.std.specs.List.{list_all, list_any};
ghost use Rattle.std.specs.Str.{bytes_eq};
ghost use Rattle.tics_call.specs.declared.source.Program.{Program as AProgram};
ghost use Rattle.tics_call.specs.declared.source.Store.{Store as AStore};
ghost use Rattle.tics_call.specs.Form.{is_function, is_free, are_distinct, is_store_to, IsProgram, IsDeclaration, IsStore, Pairs, IsTreeOf};

use crate::parts::{declared_name, is_return, main_parts, store_of};
use crate::source::{Program, Store};
use base16::{Name, NoMemory, Sequence};
use c_tree::{BlockItem, External, Tree};
use std::alloc::Global;

/// Whether a name is among these.
fn contains(names: &[Name], name: &[u8]) -> bool
    ensures { result ≡ list_any (λ n. bytes_eq n name.now) names.now }
{
    names.iter().any(|other| other.bytes() == name)
}

/// Whether no name stands twice.
fn are_distinct(names: &[Name]) -> bool
    ensures { result ≡ are_distinct names.now }
{
    for (place, name) in names.iter().enumerate() {
        if contains(&names[place + 1..], name.bytes()) {
            return false;
        }
    }
    true
}

/// Whether a name is that of a function that every program has.
fn is_function(name: &[u8]) -> bool
    ensures { result ≡ is_function name.now }
{
    name == b"main".as_slice()
        || name == b"sense".as_slice()
        || name == b"emit".as_slice()
        || name == b"checkpoint".as_slice()
}

/// Whether variables may have these names.
fn are_free(names: &[Name]) -> bool
    ensures { result ≡ list_all is_free names.now }
{
    names.iter().all(|name| !is_function(name.bytes()))
}

/// Whether a store of a number up to 32767 goes to one of the names.
fn is_store_to(names: &[Name], store: &Store) -> bool
    ensures { result ≡ is_store_to names.now store.now }
{
    contains(names, store.name.bytes()) && store.value <= 32767
}

/// Whether each store does.
fn are_stores(names: &[Name], stores: &[Store]) -> bool
    ensures { result ≡ list_all (is_store_to names.now) stores.now }
{
    stores.iter().all(|store| is_store_to(names, store))
}

/// Whether a program has at most 100 names and 200 stores, and its names are right.
fn is_program(program: &Program) -> bool
    ensures is { result ≡ true → IsProgram program.now }
    ensures is_not { IsProgram program.now → result ≡ true }
{
    let names = program.names.as_slice();
    let stores = program.stores.as_slice();
    names.len() <= 100
        && stores.len() <= 200
        && are_free(names)
        && are_distinct(names)
        && are_stores(names, stores)
}

/// The names that parts declare, where each is `int NAME;`.
fn names_of(alloc: Global, parts: &[External]) -> Result<Option<Vec<Name>>, NoMemory>
    ensures { IfOk result (λ found. MatchOption found
        ((names : List (List ℕ)) → Pairs IsDeclaration names parts.now → ⊥)
        (λ names. Pairs IsDeclaration names.items parts.now)) }
{
    let mut names = Vec::new(alloc);
    for part in parts {
        let Some(name) = declared_name(part) else {
            return Ok(None);
        };
        names.push(Name::new(alloc, name)?)?;
    }
    Ok(Some(names))
}

/// The stores that parts of a body are, where each is `NAME=NUMBER;`.
fn stores_of(alloc: Global, parts: &[BlockItem]) -> Result<Option<Vec<Store>>, NoMemory>
    ensures { IfOk result (λ found. MatchOption found
        ((stores : List AStore) → Pairs IsStore stores parts.now → ⊥)
        (λ stores. Pairs IsStore stores.items parts.now)) }
{
    let mut stores = Vec::new(alloc);
    for part in parts {
        let Some((name, value)) = store_of(part) else {
            return Ok(None);
        };
        let name = Name::new(alloc, name)?;
        stores.push(Store { name, value })?;
    }
    Ok(Some(stores))
}

/// What a tree declares and stores, where it is declarations and then main with stores and `return 0;`.
fn outline(alloc: Global, tree: &Tree) -> Result<Option<Program>, NoMemory>
    ensures { IfOk result (λ found. MatchOption found
        ((program : AProgram) → IsTreeOf program tree.now → ⊥)
        (λ program. IsTreeOf program tree.now)) }
{
    let Some((main, declarations)) = tree.externals.as_slice().split_last() else {
        return Ok(None);
    };
    let Some(parts) = main_parts(main) else {
        return Ok(None);
    };
    let Some((ending, stores)) = parts.split_last() else {
        return Ok(None);
    };
    if !is_return(ending) {
        return Ok(None);
    }
    let Some(names) = names_of(alloc, declarations)? else {
        return Ok(None);
    };
    let Some(stores) = stores_of(alloc, stores)? else {
        return Ok(None);
    };
    Ok(Some(Program {
        names: Sequence::from_vec(names),
        stores: Sequence::from_vec(stores),
    }))
}

/// The program that a tree is, where it is one: at most 100 declarations `int NAME;`, then `int main(void){`, at most 200
/// stores `NAME=NUMBER;`, and `return 0;}`.
pub fn program_of(alloc: Global, tree: &Tree) -> Result<Option<Program>, NoMemory>
    ensures { IfOk result (λ found. MatchOption found
        ((program : AProgram) → IsProgram program → IsTreeOf program tree.now → ⊥)
        (λ program. IsProgram program × IsTreeOf program tree.now)) }
{
    let Some(program) = outline(alloc, tree)? else {
        return Ok(None);
    };
    if !is_program(&program) {
        return Ok(None);
    }
    Ok(Some(program))
}
