//! Declarations in a block (C99 6.7).

ghost use Rattle.std.specs.Prelude.{◌≡◌, map};
ghost use Rattle.c_checking.specs.Walk.{Walks, one_by_one, single};
ghost use Rattle.c_checking.specs.Locals as spec;

use base16::Name;
use c_conversions::broken;
use c_declarators::{ObjectType, declare_local, declared_type, is_declared};
use c_initialisers::stored;
use c_stmt_parts::statement_at;
use c_tree::{Declaration, Init, Spec};
use c_typing::{Env, Rule, Stop};
use core_tree::{Stmt, StmtKind};
use sqlite_items::{Boxed, Items};
use std::alloc::Global;

/// Declares a name once in a scope, as the next local.
fn entered(
    alloc: Global,
    env: &mut Env,
    line: u32,
    name: &Name,
    ty: &ObjectType,
) -> Result<u32, Stop>
    ensures { Walks (spec.entered line name.now (record { ty = ty.now.ty; readonly = ty.now.readonly }) env.old) result env.new }
{
    if is_declared(env, name) {
        return Err(broken(Rule::Twice, line));
    }
    declare_local(alloc, env, name, &ty.ty, ty.readonly)
}

/// A declarator of a local: its name is in scope from its own initialiser on.
#[tactic(auto, unfolding(c_checking::specs::Locals::local))]
fn local(alloc: Global, env: &mut Env, sp: &Spec, init: &Init) -> Result<Boxed<Stmt>, Stop>
    ensures { Walks (spec.local sp.now init.now env.old) result env.new }
{
    let declr = &init.declr;
    let ty = declared_type(
        alloc,
        env,
        init.line,
        sp,
        declr.stars.as_slice(),
        declr.bounds.as_slice(),
    )?;
    let local = entered(alloc, env, init.line, &declr.name, &ty)?;
    let stores = stored(alloc, env, init.line, &ty.ty, &init.initial)?;
    Ok(statement_at(
        alloc,
        init.line,
        StmtKind::Declare {
            local,
            init: stores,
        },
    )?)
}

/// The declarators of a declaration in a block.
#[tactic(auto, using(crate::proofs::Turns::nothing_yet, crate::proofs::Turns::locals_turn, crate::proofs::Turns::locals_break, crate::proofs::Turns::locals_end))]
pub fn locals(alloc: Global, env: &mut Env, declaration: &Declaration) -> Result<Items<Stmt>, Stop>
    ensures { Walks (spec.locals declaration.now env.old) result env.new }
{
    let mut found = Items::new(alloc);
    for init in declaration.inits.as_slice() {
        let stmt = local(alloc, env, &declaration.spec, init)?;
        found.push(stmt.into_inner())?;
    }
    Ok(found)
}
