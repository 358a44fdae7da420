//! Where objects stand behind others.

ghost use Rattle.std.specs.Prelude.{◌≡◌, IfOk};
ghost use Rattle.core_tree.specs.Layout as spec;

use crate::emit::further;
use base16::{NoMemory, Sequence};
use core_tree::Slot;
use std::alloc::Global;

/// A copy of scalars.
pub fn slots_copied(alloc: Global, slots: &[Slot]) -> Result<Sequence<Slot>, NoMemory>
    ensures { IfOk result (λ made. made ≡ slots.now) }
{
    Ok(Sequence::from_vec(slots.to_vec(alloc)?))
}

/// Where an object stands behind so many bytes of others.
pub fn start_behind(bytes: u32, even: bool) -> Result<u32, NoMemory>
    ensures { IfOk result (λ start. start ≡ spec.aligned even bytes) }
{
    if even {
        Ok(further(bytes, bytes % 2)?)
    } else {
        Ok(bytes)
    }
}
