ghost use Rattle.std.specs.Prelude.{◌≡◌, ◌++◌, [], ◌∷◌, string_bytes, IfOk, OnOk};
ghost use Rattle.core_tree.specs.Data as spec;
ghost use Rattle.core_layout.specs.Laid.{across};

use base16::{NoMemory, Sequence};
use std::alloc::Global;

/// The text that consists of two.
pub fn joined(alloc: Global, before: &[u8], after: &[u8]) -> Result<Sequence<u8>, NoMemory>
    ensures { IfOk result (λ text. text ≡ before.now ++ after.now) }
{
    let mut text: Vec<u8> = Vec::new(alloc);
    text.extend_from_slice(before)?;
    text.extend_from_slice(after)?;
    Ok(Sequence::from_vec(text))
}

/// Adds texts behind another.
#[tactic(auto, using(crate::proofs::Naming::behind_turn))]
pub fn push_behind(
    alloc: Global,
    into: &mut Sequence<Sequence<u8>>,
    before: &[u8],
    texts: &[Sequence<u8>],
) -> Result<(), NoMemory>
    ensures { OnOk result (into.new ≡ into.old ++ spec.behind before.now texts.now) }
{
    for text in texts {
        into.push(joined(alloc, before, text.as_slice())?)?;
    }
    Ok(())
}

/// Each of some texts with each of others behind it.
#[tactic(auto, using(crate::proofs::Naming::across_turn))]
pub fn crossed(
    alloc: Global,
    befores: &[Sequence<u8>],
    texts: &[Sequence<u8>],
) -> Result<Sequence<Sequence<u8>>, NoMemory>
    ensures { IfOk result (λ made. made ≡ across befores.now texts.now) }
{
    let mut made = Sequence::new(alloc);
    for before in befores {
        push_behind(alloc, &mut made, before.as_slice(), texts)?;
    }
    Ok(made)
}

/// Texts with another one behind each of them.
#[tactic(auto, using(crate::proofs::Naming::extended_turn))]
pub fn extended(
    alloc: Global,
    befores: &[Sequence<u8>],
    text: &[u8],
) -> Result<Sequence<Sequence<u8>>, NoMemory>
    ensures { IfOk result (λ made. made ≡ across befores.now (text.now ∷ [])) }
{
    let mut made = Sequence::new(alloc);
    for before in befores {
        made.push(joined(alloc, before.as_slice(), text)?)?;
    }
    Ok(made)
}

/// A text with the index of an array's only element behind it, in its own memory.
pub fn with_first_index(alloc: Global, text: Sequence<u8>) -> Result<Sequence<u8>, NoMemory>
    ensures { IfOk result (λ made. made ≡ text ++ spec.index_text 0) }
{
    let index = index_text(alloc, 0)?;
    let mut bytes = text.into_vec();
    bytes.extend_from_slice(index.as_slice())?;
    Ok(Sequence::from_vec(bytes))
}

/// `[at]`
fn index_text(alloc: Global, at: u16) -> Result<Sequence<u8>, NoMemory>
    ensures { IfOk result (λ text. text ≡ spec.index_text at) }
{
    let text = format!(in alloc; "[{at}]")?;
    joined(alloc, text.as_bytes(), b"")
}

/// The indexes of so many elements.
#[tactic(auto, using(crate::proofs::Naming::indexed_turn))]
pub fn indexes(alloc: Global, count: u16) -> Result<Sequence<Sequence<u8>>, NoMemory>
    ensures { IfOk result (λ made. made ≡ spec.indexed count 0 ([] ∷ [])) }
{
    let mut made = Sequence::new(alloc);
    for at in 0..count {
        made.push(index_text(alloc, at)?)?;
    }
    Ok(made)
}
