//! Structs (C99 6.7.2.1).

ghost use Rattle.std.specs.Prelude.{◌≡◌, [], ◌∷◌, IfOk, OnOk};
ghost use Rattle.c_typing.specs.Outcome.{Answers};
ghost use Rattle.c_checking.specs.Externals as spec;
ghost use Rattle.c_externals.specs.Drafting.{Becomes};
ghost use Rattle.c_externals.specs.Drafting as drafting;

use crate::names::{has_twice, is_tag, names_of};
use crate::variables::struct_globals;
use base16::{Name, NoMemory};
use c_checking::Draft;
use c_conversions::{broken, is_sized};
use c_declarators::declared_type;
use c_tree::{Declr, Init, Member as SourceMember, Spec, Struct as SourceStruct};
use c_typing::{Env, Rule, Stop};
use core_tree::{Member, Struct, Ty};
use sqlite_items::Items;
use std::alloc::Global;

/// The members of a struct so far, and which of them are const.
#[derive(Drop)]
pub struct Fields {
    pub members: Items<Member>,
    pub constants: Items<bool>,
}

/// One more member.
fn add_field(
    alloc: Global,
    made: &mut Fields,
    name: &Name,
    ty: Ty,
    readonly: bool,
) -> Result<(), NoMemory>
    ensures { OnOk result (made.new ≡ drafting.with_fields made.old (record { name = name.now; ty = ty; readonly = readonly } ∷ [])) }
{
    let name = Name::new(alloc, name.bytes())?;
    made.constants.push(readonly)?;
    made.members.push(Member { name, ty })?;
    Ok(())
}

/// The members of one base type.
#[tactic(auto, using(crate::proofs::StructLaws::field_turn, crate::proofs::StructLaws::field_break, crate::proofs::StructLaws::fields_of_end))]
fn fields_of(
    alloc: Global,
    env: &Env,
    line: u32,
    sp: &Spec,
    declrs: &[Declr],
    made: &mut Fields,
) -> Result<(), Stop>
    ensures { Becomes (drafting.behind made.old (spec.fields_of env.now line sp.now declrs.now)) result made.new }
{
    for declr in declrs {
        let ty = declared_type(
            alloc,
            env,
            line,
            sp,
            declr.stars.as_slice(),
            declr.bounds.as_slice(),
        )?;
        add_field(alloc, made, &declr.name, ty.ty, ty.readonly)?;
    }
    Ok(())
}

/// The members of a struct.
#[tactic(auto, using(crate::proofs::StructLaws::member_turn, crate::proofs::StructLaws::member_break, crate::proofs::StructLaws::fields_end))]
fn all_fields(
    alloc: Global,
    env: &Env,
    line: u32,
    members: &[SourceMember],
    made: &mut Fields,
) -> Result<(), Stop>
    ensures { Becomes (drafting.behind made.old (spec.fields env.now line members.now)) result made.new }
{
    for member in members {
        fields_of(
            alloc,
            env,
            line,
            &member.spec,
            member.declrs.as_slice(),
            made,
        )?;
    }
    Ok(())
}

/// Whether an object may have the type of each member.
#[tactic(auto, using(crate::proofs::Turns::sized_turn, crate::proofs::Turns::sized_not, crate::proofs::Turns::sized_end))]
fn are_sized(env: &Env, members: &[Member]) -> bool
    ensures { result ≡ drafting.members_sized env.now members.now }
{
    for member in members {
        if !is_sized(env, &member.ty) {
            return false;
        }
    }
    true
}

/// The least rule that a struct breaks.
fn struct_rule(
    alloc: Global,
    env: &Env,
    tag: &Name,
    members: &[Member],
) -> Result<Option<Rule>, NoMemory>
    ensures { IfOk result (λ rule. rule ≡ drafting.rule_of env.now tag.now members.now) }
{
    if is_tag(env.structs.as_slice(), tag) {
        return Ok(Some(Rule::Twice));
    }
    let names = names_of(alloc, members)?;
    if has_twice(names.as_slice()) {
        return Ok(Some(Rule::Twice));
    }
    if are_sized(env, members) {
        Ok(None)
    } else {
        Ok(Some(Rule::Incomplete))
    }
}

/// All members of a struct.
fn made_fields(alloc: Global, env: &Env, source: &SourceStruct) -> Result<Fields, Stop>
    ensures { Answers (drafting.behind drafting.no_fields (spec.fields env.now source.now.line source.now.members)) result }
{
    let mut made = Fields {
        members: Items::new(alloc),
        constants: Items::new(alloc),
    };
    all_fields(
        alloc,
        env,
        source.line,
        source.members.as_slice(),
        &mut made,
    )?;
    Ok(made)
}

/// The members of a struct that breaks no rule.
#[tactic(auto, using(crate::proofs::StructLaws::checked_is, crate::proofs::StructLaws::checked_broken))]
fn checked_fields(alloc: Global, env: &Env, source: &SourceStruct) -> Result<Fields, Stop>
    ensures { Answers (drafting.behind drafting.no_fields (spec.checked_fields env.now source.now)) result }
{
    let made = made_fields(alloc, env, source)?;
    match struct_rule(alloc, env, &source.name, made.members.as_slice())? {
        None => Ok(made),
        Some(rule) => Err(broken(rule, source.line)),
    }
}

/// Declares a struct. Where its members stand, pointers to it are known.
#[tactic(auto, using(crate::proofs::StructLaws::structured_is, crate::proofs::StructLaws::structured_broken))]
fn structured(alloc: Global, env: &mut Env, source: &SourceStruct) -> Result<(), Stop>
    ensures { Becomes (drafting.structured source.now env.old) result env.new }
{
    let tag = Name::new(alloc, source.name.bytes())?;
    let name = Name::new(alloc, source.name.bytes())?;
    let around = std::mem::replace(&mut env.defining, Some(tag));
    let made = checked_fields(alloc, env, source)?;
    env.defining = around;
    let Fields { members, constants } = made;
    env.structs.push(Struct { name, members })?;
    env.const_members.push(constants)?;
    Ok(())
}

/// Declares a struct.
#[tactic(auto, using(crate::proofs::StructLaws::structure_is, crate::proofs::StructLaws::structure_broken))]
pub fn structure(alloc: Global, draft: &mut Draft, source: &SourceStruct) -> Result<(), Stop>
    ensures { Becomes (spec.structure source.now draft.old) result draft.new }
{
    structured(alloc, &mut draft.env, source)
}

/// Declares a struct and the variables that stand behind it.
pub fn structure_with(
    alloc: Global,
    draft: &mut Draft,
    source: &SourceStruct,
    inits: &[Init],
) -> Result<(), Stop>
    ensures { Becomes (spec.structure_with source.now inits.now draft.old) result draft.new }
{
    let Ok(tag) = u16::try_from(draft.env.structs.len()) else {
        return Err(Stop::NoMemory);
    };
    structure(alloc, draft, source)?;
    struct_globals(alloc, draft, tag, inits)
}
