//! What tags and members stand for (C99 6.2.1).

ghost use Rattle.std.specs.Prelude.{◌≡◌, IfOk};
ghost use Rattle.core_tree.specs.Layout.{members_of as members_of_struct};
ghost use Rattle.c_typing.specs.Scopes as spec;
ghost use Rattle.c_conversions.specs.Members.{as_found, found_at};

use base16::{Name, NoMemory};
use c_typing::Env;
use core_tree::{Member, Struct, Ty, copy_type};
use sqlite_items::at;
use std::alloc::Global;

/// The place of a tag among structs.
#[tactic(auto, using(crate::proofs::Turns::tag_turn, crate::proofs::Turns::tag_here, crate::proofs::Turns::tag_nowhere))]
fn place_of(structs: &[Struct], tag: &Name) -> Option<usize>
    ensures { result ≡ spec.tag_from 0 tag.now structs.now }
{
    for (i, known) in structs.iter().enumerate() {
        if known.name.bytes() == tag.bytes() {
            return Some(i);
        }
    }
    None
}

/// The place of a tag among the complete structs and, behind them, the one whose members stand here.
#[tactic(auto, unfolding(c_typing::specs::Scopes::tag_of))]
fn known_place(env: &Env, tag: &Name) -> Option<usize>
    ensures { result ≡ spec.tag_of env.now tag.now }
{
    if let Some(found) = place_of(env.structs.as_slice(), tag) {
        return Some(found);
    }
    match &env.defining {
        Some(own) => {
            if own.bytes() == tag.bytes() {
                Some(env.structs.len())
            } else {
                None
            }
        }
        None => None,
    }
}

/// The number of the struct that a tag names. A type has no room for a number above 65,535; the struct counts as one for
/// which memory is wanting.
pub fn tag_of(env: &Env, tag: &Name) -> Result<Option<u16>, NoMemory>
    ensures { IfOk result (λ found. found ≡ spec.tag_of env.now tag.now) }
{
    match known_place(env, tag) {
        Some(found) => {
            if found > 65535 {
                return Err(NoMemory);
            }
            Ok(Some(found as u16))
        }
        None => Ok(None),
    }
}

/// A member of a struct: its number there and its type.
#[derive(Drop)]
pub struct FoundMember {
    pub number: u32,
    pub ty: Ty,
}

/// The members of a struct.
fn members_of(structs: &[Struct], tag: u16) -> &[Member]
    ensures { result.now ≡ members_of_struct structs.now tag }
{
    match at(structs, usize::from(tag)) {
        Some(known) => known.members.as_slice(),
        None => &[],
    }
}

/// The member of a type at a place in the list of members.
fn numbered(alloc: Global, place: usize, ty: &Ty) -> Result<Option<FoundMember>, NoMemory>
    ensures { IfOk result (λ found. as_found found ≡ found_at place ty.now) }
{
    if place > 4294967295 {
        return Err(NoMemory);
    }
    Ok(Some(FoundMember {
        number: place as u32,
        ty: copy_type(alloc, ty)?,
    }))
}

/// The member of a name in a list of members.
#[tactic(auto, using(crate::proofs::Turns::member_turn, crate::proofs::Turns::member_here, crate::proofs::Turns::member_nowhere))]
fn member_in(
    alloc: Global,
    members: &[Member],
    name: &Name,
) -> Result<Option<FoundMember>, NoMemory>
    ensures { IfOk result (λ found. as_found found ≡ spec.member_from 0 name.now members.now) }
{
    for (i, member) in members.iter().enumerate() {
        if member.name.bytes() == name.bytes() {
            return numbered(alloc, i, &member.ty);
        }
    }
    Ok(None)
}

/// The member that a name names in a struct, none where the struct is not complete. A member above number 4,294,967,295
/// counts as one for which memory is wanting.
pub fn find_member(
    alloc: Global,
    env: &Env,
    tag: u16,
    name: &Name,
) -> Result<Option<FoundMember>, NoMemory>
    ensures { IfOk result (λ found. as_found found ≡ spec.member_from 0 name.now (members_of_struct env.now.structs tag)) }
{
    member_in(alloc, members_of(env.structs.as_slice(), tag), name)
}

/// Whether a member of a struct is const.
pub fn is_const_member(env: &Env, tag: u16, member: u32) -> bool
    ensures { result ≡ spec.is_const_member env.now tag member }
{
    let tag = usize::from(tag);
    if tag >= env.const_members.len() {
        return false;
    }
    let members = env.const_members.as_slice()[tag].as_slice();
    let member = member as usize;
    member < members.len() && members[member]
}
