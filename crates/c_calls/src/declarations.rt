//! Calls in declarations.

ghost use Rattle.std.specs.Prelude.{◌≡◌, map};
ghost use Rattle.c_checking.specs.Calls as spec;

use crate::expressions::{in_expr, in_exprs};
use crate::search::{Searched, first_in_all, or_later};
use base16::Name;
use c_tree::{Declr, Init, Initial};

/// In what stands behind the `=` of a declarator.
#[cycle(initial)]
fn in_initial(names: &[Name], initial: &Initial) -> Option<u32>
    ensures { result ≡ spec.in_initial names.now initial.now }
{
    match initial {
        Initial::Assign(expr) => in_expr(names, expr),
        Initial::List { items, .. } => in_initials(names, items.as_slice()),
    }
}

/// In the items of a brace list.
#[cycle(initial)]
#[tactic(auto, using(crate::proofs::Finding::initials_turn))]
fn in_initials(names: &[Name], all: &[Initial]) -> Option<u32>
    ensures { result ≡ spec.first_of (map (spec.in_initial names.now) all.now) }
{
    for initial in all {
        if let Some(line) = in_initial(names, initial) {
            return Some(line);
        }
    }
    None
}

/// In the sizes of a declarator.
impl Searched for Declr {
    ghost found = { spec.in_declr };

    fn first_in(&self, names: &[Name]) -> Option<u32> {
        in_exprs(names, self.bounds.as_slice())
    }
}

/// In a declarator with its initialiser.
impl Searched for Init {
    ghost found = { spec.in_init };

    fn first_in(&self, names: &[Name]) -> Option<u32> {
        let initial = match &self.initial {
            None => None,
            Some(initial) => in_initial(names, initial),
        };
        or_later(in_exprs(names, self.declr.bounds.as_slice()), initial)
    }
}

/// In the declarators of a declaration.
pub fn in_inits(names: &[Name], inits: &[Init]) -> Option<u32>
    ensures { result ≡ spec.in_inits names.now inits.now }
{
    first_in_all(names, inits)
}
