//! Calls in a whole source, and the functions that it defines.

ghost use Rattle.std.specs.Prelude.{◌≡◌, map, IfOk};
ghost use Rattle.c_checking.specs.Calls as spec;

use crate::declarations::in_inits;
use crate::expressions::{in_exprs, in_optional};
use crate::search::{Searched, first_in_all, or_later};
use crate::statements::in_compound;
use base16::{Name, NoMemory, Sequence};
use c_tree::{External, Member, Param, Params, Tree};
use std::alloc::Global;

/// In the declarators of a member.
impl Searched for Member {
    ghost found = { spec.in_member };

    fn first_in(&self, names: &[Name]) -> Option<u32> {
        first_in_all(names, self.declrs.as_slice())
    }
}

/// In the sizes of a parameter.
impl Searched for Param {
    ghost found = { spec.in_param };

    fn first_in(&self, names: &[Name]) -> Option<u32> {
        let first = match &self.first_bound {
            None => None,
            Some(bound) => in_optional(names, bound),
        };
        or_later(first, in_exprs(names, self.bounds.as_slice()))
    }
}

fn in_params(names: &[Name], params: &Params) -> Option<u32>
    ensures { result ≡ spec.in_params names.now params.now }
{
    match params {
        Params::Void { .. } => None,
        Params::List(all) => first_in_all(names, all.as_slice()),
    }
}

/// In a part of a source outside functions.
impl Searched for External {
    ghost found = { spec.in_external };

    fn first_in(&self, names: &[Name]) -> Option<u32> {
        match self {
            External::Struct { defined, inits } => or_later(
                first_in_all(names, defined.members.as_slice()),
                in_inits(names, inits.as_slice()),
            ),
            External::Function { function, .. } => {
                let body = match &function.body {
                    None => None,
                    Some(body) => in_compound(names, body),
                };
                or_later(in_params(names, &function.params), body)
            }
            External::Declaration { declaration, .. } => {
                in_inits(names, declaration.inits.as_slice())
            }
        }
    }
}

/// The names of the functions that a source defines, in order.
#[tactic(auto, using(crate::proofs::Finding::definitions_turn))]
pub fn definitions(alloc: Global, tree: &Tree) -> Result<Sequence<Name>, NoMemory>
    ensures { IfOk result (λ names. names ≡ spec.definitions tree.now) }
{
    let mut names = Sequence::new(alloc);
    for external in tree.externals.as_slice() {
        if let External::Function { function, .. } = external {
            if function.body.is_some() {
                names.push(Name::new(alloc, function.name.bytes())?)?;
            }
        }
    }
    Ok(names)
}

/// The line of the first call in a source, in the order of the text, of a function that it does not define and that not
/// every source has, given the names of those that it defines.
pub fn first_undefined(tree: &Tree, definitions: &[Name]) -> Option<u32>
    requires { definitions.now ≡ spec.definitions tree.now }
    ensures { result ≡ spec.first_undefined tree.now }
{
    first_in_all(definitions, tree.externals.as_slice())
}
