//! Variables at file scope (C99 6.9.2).

ghost use Rattle.std.specs.Prelude.{◌≡◌, [], ◌∷◌, ◌++◌, Ok as Done, OnOk};
ghost use Rattle.c_declarators.specs.Shapes as shape;
ghost use Rattle.c_checking.specs.Declarators.{base_of};
ghost use Rattle.c_checking.specs.Externals as spec;
ghost use Rattle.c_externals.specs.Drafting.{Becomes};
ghost use Rattle.c_externals.specs.Drafting as drafting;

use base16::{Name, NoMemory};
use c_calls::is_builtin;
use c_checking::Draft;
use c_conversions::broken;
use c_declarators::{ObjectType, declared_type, is_declared, shaped};
use c_initialisers::begun;
use c_tree::{Init, Spec};
use c_typing::{Env, Named, Rule, Stop, What};
use core_tree::{Global as Variable, Initial as Value, Ty, copy_type};
use sqlite_items::Items;
use std::alloc::Global;

/// Whether no variable may have a name any more.
fn is_taken(env: &Env, name: &Name) -> bool
    ensures { result ≡ spec.is_taken env.now name.now }
{
    is_declared(env, name) || is_builtin(name)
}

/// Declares a name as the variable of a number.
fn declare_global(
    alloc: Global,
    env: &mut Env,
    name: &Name,
    number: u32,
    ty: &ObjectType,
) -> Result<(), Stop>
    ensures { Becomes (Done (spec.declare_global name.now number (shape.qualified ty.now) env.old)) result env.new }
{
    let what = What::Global {
        number,
        ty: copy_type(alloc, &ty.ty)?,
        readonly: ty.readonly,
    };
    let name = Name::new(alloc, name.bytes())?;
    env.names.push(Named { name, what })?;
    Ok(())
}

/// Declares a name once at file scope.
fn entered(
    alloc: Global,
    env: &mut Env,
    number: u32,
    line: u32,
    name: &Name,
    ty: &ObjectType,
) -> Result<(), Stop>
    ensures { Becomes (drafting.entered number line name.now (shape.qualified ty.now) env.old) result env.new }
{
    if is_taken(env, name) {
        return Err(broken(Rule::Twice, line));
    }
    declare_global(alloc, env, name, number, ty)
}

/// A variable, with what its scalars begin with.
fn variable(
    alloc: Global,
    globals: &mut Items<Variable>,
    init: &Init,
    ty: &Ty,
    before: u32,
    values: Items<Value>,
) -> Result<(), NoMemory>
    ensures { OnOk result (globals.new ≡ globals.old ++ drafting.variable init.now ty.now values before ∷ []) }
{
    let name = Name::new(alloc, init.declr.name.bytes())?;
    let ty = copy_type(alloc, ty)?;
    globals.push(Variable {
        name,
        ty,
        lifetime: None,
        init: values,
        before,
        line: init.line,
    })?;
    Ok(())
}

/// A declarator of a type: its name is in scope from its own initialiser on.
fn declared_as(alloc: Global, draft: &mut Draft, ty: &ObjectType, init: &Init) -> Result<(), Stop>
    ensures { Becomes (drafting.declared_as (shape.qualified ty.now) init.now draft.old) result draft.new }
{
    let Ok(number) = u32::try_from(draft.globals.len()) else {
        return Err(Stop::NoMemory);
    };
    let Ok(before) = u32::try_from(draft.functions.len()) else {
        return Err(Stop::NoMemory);
    };
    entered(
        alloc,
        &mut draft.env,
        number,
        init.line,
        &init.declr.name,
        ty,
    )?;
    let values = begun(alloc, &draft.env, init.line, &ty.ty, &init.initial)?;
    Ok(variable(alloc, &mut draft.globals, init, &ty.ty, before, values)?)
}

/// A declarator.
#[tactic(auto, using(crate::proofs::Turns::global_broken))]
fn global(alloc: Global, draft: &mut Draft, sp: &Spec, init: &Init) -> Result<(), Stop>
    ensures { Becomes (spec.global (λ env. base_of env sp.now) init.now draft.old) result draft.new }
{
    let declr = &init.declr;
    let ty = declared_type(
        alloc,
        &draft.env,
        init.line,
        sp,
        declr.stars.as_slice(),
        declr.bounds.as_slice(),
    )?;
    declared_as(alloc, draft, &ty, init)
}

/// A declarator behind a struct.
#[tactic(auto, using(crate::proofs::Turns::struct_global_broken))]
fn struct_global(alloc: Global, draft: &mut Draft, tag: u16, init: &Init) -> Result<(), Stop>
    ensures { Becomes (spec.global (spec.struct_base tag) init.now draft.old) result draft.new }
{
    let declr = &init.declr;
    let base = ObjectType {
        ty: Ty::Struct(tag),
        readonly: false,
    };
    let ty = shaped(
        alloc,
        &draft.env,
        base,
        declr.stars.as_slice(),
        declr.bounds.as_slice(),
    )?;
    declared_as(alloc, draft, &ty, init)
}

/// The declarators of a declaration.
#[tactic(auto, using(crate::proofs::Turns::globals_turn, crate::proofs::Turns::globals_end))]
pub fn globals(alloc: Global, draft: &mut Draft, sp: &Spec, inits: &[Init]) -> Result<(), Stop>
    ensures { Becomes (spec.globals (λ env. base_of env sp.now) inits.now draft.old) result draft.new }
{
    for init in inits {
        global(alloc, draft, sp, init)?;
    }
    Ok(())
}

/// The declarators behind a struct.
#[tactic(auto, using(crate::proofs::Turns::globals_turn, crate::proofs::Turns::globals_break, crate::proofs::Turns::globals_end))]
pub fn struct_globals(
    alloc: Global,
    draft: &mut Draft,
    tag: u16,
    inits: &[Init],
) -> Result<(), Stop>
    ensures { Becomes (spec.globals (spec.struct_base tag) inits.now draft.old) result draft.new }
{
    for init in inits {
        struct_global(alloc, draft, tag, init)?;
    }
    Ok(())
}
