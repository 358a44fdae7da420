//! Names among others.

ghost use Rattle.std.specs.Prelude.{◌≡◌, is_some, map, IfOk};
ghost use Rattle.core_tree.specs.declared.types.Member.{Member as MemberRecord};
ghost use Rattle.c_typing.specs.Scopes.{tag_from};
ghost use Rattle.c_checking.specs.Externals as spec;

use base16::{Name, NoMemory, Sequence};
use c_calls::is_one_of;
use core_tree::{Member, Struct};
use std::alloc::Global;

/// Whether a name stands twice among these.
#[tactic(auto, using(crate::proofs::Turns::twice_turn, crate::proofs::Turns::twice_here, crate::proofs::Turns::twice_nowhere))]
pub fn has_twice(names: &[Name]) -> bool
    ensures { result ≡ spec.has_twice names.now }
{
    for (i, name) in names.iter().enumerate() {
        if is_one_of(&names[i + 1..], name) {
            return true;
        }
    }
    false
}

/// Whether a struct has this tag.
#[tactic(auto, using(crate::proofs::Turns::tag_turn, crate::proofs::Turns::tag_here, crate::proofs::Turns::tag_nowhere))]
pub fn is_tag(structs: &[Struct], tag: &Name) -> bool
    ensures { result ≡ is_some (tag_from 0 tag.now structs.now) }
{
    for (i, known) in structs.iter().enumerate() {
        if known.name.bytes() == tag.bytes() {
            return true;
        }
    }
    false
}

/// The names of members.
#[tactic(auto, using(crate::proofs::Turns::names_turn, crate::proofs::Turns::names_end))]
pub fn names_of(alloc: Global, members: &[Member]) -> Result<Sequence<Name>, NoMemory>
    ensures { IfOk result (λ names. names ≡ map (λ (m : MemberRecord). m.name) members.now) }
{
    let mut names = Sequence::new(alloc);
    for member in members {
        names.push(Name::new(alloc, member.name.bytes())?)?;
    }
    Ok(names)
}
