//! Scopes of names (C99 6.2.1).

ghost use Rattle.std.specs.Prelude.{◌≡◌, take, length, IfOk};
ghost use Rattle.c_checking.specs.Walk as walk;
ghost use Rattle.c_checking.specs.Walk.{Walks};

use base16::Name;
use c_typing::{Env, Named, Stop, What, lookup};
use core_tree::{Ty, copy_type};
use std::alloc::Global;

/// Whether a name is declared in the innermost scope.
pub fn is_declared(env: &Env, name: &Name) -> bool
    ensures { result ≡ walk.is_declared env.now name.now }
{
    match env.names.as_slice().get(env.start..) {
        Some(here) => lookup(here, name).is_some(),
        None => false,
    }
}

/// Ends a scope: goes back to the names that were declared before it, and to the scope around it.
#[tactic(auto, using(crate::proofs::Leaving::kept, crate::proofs::Leaving::all_kept))]
pub fn leave(env: &mut Env, start: usize, names: usize)
    ensures { env.new ≡ record env.old { names = take names env.old.names; start = start } }
{
    env.start = start;
    while env.names.len() > names {
        env.names.pop();
    }
}

/// Declares the next local of the function, and gives its number.
pub fn declare_local(
    alloc: Global,
    env: &mut Env,
    name: &Name,
    ty: &Ty,
    readonly: bool,
) -> Result<u32, Stop>
    ensures { Walks (walk.pure (length env.old.locals) (walk.declare_local name.now ty.now readonly env.old)) result env.new }
{
    let Ok(number) = u32::try_from(env.locals.len()) else {
        return Err(Stop::NoMemory);
    };
    let what = What::Local {
        number,
        ty: copy_type(alloc, ty)?,
        readonly,
    };
    let name = Name::new(alloc, name.bytes())?;
    env.names.push(Named { name, what })?;
    env.locals.push(copy_type(alloc, ty)?)?;
    Ok(number)
}
