ghost use Rattle.std.specs.Prelude.{◌≡◌, get_or, [], ◌∷◌, IfOk, IfSome};
ghost use Rattle.core_tree.specs.Data as spec;
ghost use Rattle.core_layout.specs.Laid.{IsNamed, across};
ghost use Rattle.core_layout.specs.Prefixes.{IsInElements};

use crate::layouts::Laid;
use crate::texts::{crossed, extended, indexes, joined, push_behind, with_first_index};
use base16::{NoMemory, Sequence};
use core_tree::{Member, Struct, Ty};
use std::alloc::Global;

/// Texts with the names of the scalars in a struct behind each of them; none where there is no such struct.
#[tactic(auto, using(crate::proofs::Naming::named_at, crate::proofs::Naming::named_past, crate::proofs::Naming::across_none))]
fn with_struct(
    alloc: Global,
    _structs: &[Struct],
    named: &[Option<Sequence<Sequence<u8>>>],
    befores: &[Sequence<u8>],
    tag: u16,
) -> Result<Sequence<Sequence<u8>>, NoMemory>
    requires { IsNamed named.now _structs.now }
    ensures { IfOk result (λ made. made ≡ across befores.now (get_or (spec.struct_names _structs.now) tag [])) }
{
    let at = usize::from(tag);
    if at < named.len() {
        match &named[at] {
            None => Err(NoMemory),
            Some(names) => crossed(alloc, befores, names.as_slice()),
        }
    } else {
        Ok(Sequence::new(alloc))
    }
}

/// A row with one empty text.
fn one_empty(alloc: Global) -> Result<Sequence<Sequence<u8>>, NoMemory>
    ensures { IfOk result (λ made. made ≡ [] ∷ []) }
{
    let mut made = Sequence::new(alloc);
    made.push(Sequence::new(alloc))?;
    Ok(made)
}

/// What stands before the names in a type: each of some texts, and then one that stands behind all of them, so that many
/// arrays of one element make one text longer and not many.
#[derive(Drop)]
struct Prefix {
    befores: Sequence<Sequence<u8>>,
    text: Sequence<u8>,
}

impl Prefix {
    /// Each of the texts with that behind all of them.
    fn texts(&self, alloc: Global) -> Result<Sequence<Sequence<u8>>, NoMemory>
        ensures { IfOk result (λ made. made ≡ across self.now.befores (self.now.text ∷ [])) }
    {
        extended(alloc, self.befores.as_slice(), self.text.as_slice())
    }
}

/// Texts with another one and then the index of each element of an array behind each of them.
#[tactic(auto, using(crate::proofs::Naming::across_through))]
fn with_indexes(
    alloc: Global,
    befores: &[Sequence<u8>],
    text: &[u8],
    count: u16,
) -> Result<Sequence<Sequence<u8>>, NoMemory>
    ensures { IfOk result (λ made. made ≡ across befores.now (spec.behind text.now (spec.indexed count 0 ([] ∷ [])))) }
{
    let whole = extended(alloc, befores, text)?;
    let steps = indexes(alloc, count)?;
    crossed(alloc, whole.as_slice(), steps.as_slice())
}

/// What stands before the names in the elements of an array.
#[tactic(auto, using(crate::proofs::Naming::in_one, crate::proofs::Naming::in_many))]
fn in_elements(alloc: Global, before: Prefix, count: u16) -> Result<Prefix, NoMemory>
    ensures { IfOk result (λ made. IsInElements before count made) }
{
    let Prefix { befores, text } = before;
    if count == 1 {
        let text = with_first_index(alloc, text)?;
        Ok(Prefix { befores, text })
    } else {
        let befores = with_indexes(alloc, befores.as_slice(), text.as_slice(), count)?;
        Ok(Prefix {
            befores,
            text: Sequence::new(alloc),
        })
    }
}

/// The names of the scalars in a type, behind that of what has the type, where those of the structs are known.
#[tactic(auto, using(crate::proofs::Naming::at_first))]
pub fn type_names(
    alloc: Global,
    _structs: &[Struct],
    named: &[Option<Sequence<Sequence<u8>>>],
    ty: &Ty,
) -> Result<Sequence<Sequence<u8>>, NoMemory>
    requires { IsNamed named.now _structs.now }
    ensures { IfOk result (λ made. made ≡ spec.names _structs.now ty.now) }
{
    let mut prefix = Prefix {
        befores: one_empty(alloc)?,
        text: Sequence::new(alloc),
    };
    let mut inner = ty;
    loop {
        match inner {
            Ty::Array { of, count } => {
                prefix = in_elements(alloc, prefix, *count)?;
                inner = of.get();
            }
            Ty::Void => return Ok(Sequence::new(alloc)),
            Ty::Num(_) | Ty::Pointer { .. } => return prefix.texts(alloc),
            Ty::Struct(tag) => {
                let befores = prefix.texts(alloc)?;
                return with_struct(alloc, _structs, named, befores.as_slice(), *tag);
            }
        }
    }
}

/// The names of the scalars in members, where those of the structs before are known.
fn member_names(
    alloc: Global,
    _structs: &[Struct],
    named: &[Option<Sequence<Sequence<u8>>>],
    members: &[Member],
) -> Result<Sequence<Sequence<u8>>, NoMemory>
    requires { IsNamed named.now _structs.now }
    ensures { IfOk result (λ made. made ≡ spec.member_names (spec.struct_names _structs.now) members.now) }
{
    let mut all = Sequence::new(alloc);
    for member in members {
        let names = type_names(alloc, _structs, named, &member.ty)?;
        let text = joined(alloc, b".", member.name.bytes())?;
        push_behind(alloc, &mut all, text.as_slice(), names.as_slice())?;
    }
    Ok(all)
}

/// The names of the scalars in a struct that is small enough, where those of the structs before are known.
fn struct_names(
    alloc: Global,
    _before: &[Struct],
    named: &[Option<Sequence<Sequence<u8>>>],
    of: &Struct,
    is_small: bool,
) -> Result<Option<Sequence<Sequence<u8>>>, NoMemory>
    requires { IsNamed named.now _before.now }
    ensures { IfOk result (λ made. IfSome made (λ names.
        names ≡ spec.member_names (spec.struct_names _before.now) of.now.members)) }
{
    if is_small {
        let names = member_names(alloc, _before, named, of.members.as_slice())?;
        Ok(Some(names))
    } else {
        Ok(None)
    }
}

/// The names of the scalars in all structs, none for one that has more than 16,383 bytes.
pub fn structs_named(
    alloc: Global,
    structs: &[Struct],
    known: &[Option<Laid>],
) -> Result<Sequence<Option<Sequence<Sequence<u8>>>>, NoMemory>
    ensures { IfOk result (λ named. IsNamed named structs.now) }
{
    let mut named = Sequence::new(alloc);
    for at in 0..structs.len() {
        let is_small = at < known.len() && known[at].is_some();
        let next = struct_names(
            alloc,
            &structs[..at],
            named.as_slice(),
            &structs[at],
            is_small,
        )?;
        named.push(next)?;
    }
    Ok(named)
}
