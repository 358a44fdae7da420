//! The parameters and locals of a function, and its frame.

ghost use Rattle.std.specs.Prelude.{◌≡◌, ◌++◌, map, slice_get, Some, IfOk, OnOk};
ghost use Rattle.core_tree.specs.Heights as heights;
ghost use Rattle.core_tree.specs.Layout.{layout};
ghost use Rattle.core_layout.specs.Laid.{IsLaid, layout_of};
ghost use Rattle.ir_build.specs.Laying.{placed_from, slots_in};

use crate::emit::further;
use crate::laying::{slots_copied, start_behind};
use base16::{NoMemory, Sequence};
use core_layout::{Laid, small_type_laid};
use core_tree::{Core, Function, Slot, Struct, Ty, frame_bytes};
use ir::IrLocal;
use std::alloc::Global;

/// Adds the layouts of types.
#[tactic(auto, using(crate::proofs::Placing::laid_turn))]
fn push_laid(
    alloc: Global,
    structs: &[Struct],
    known: &[Option<Laid>],
    types: &[Ty],
    all: &mut Sequence<Laid>,
) -> Result<(), NoMemory>
    requires { IsLaid known.now structs.now }
    ensures { OnOk result (map layout_of all.new ≡ map layout_of all.old ++ map (layout structs.now) types.now) }
{
    for ty in types {
        all.push(small_type_laid(alloc, structs, known, ty)?)?;
    }
    Ok(())
}

/// The layouts of the parameters and locals of a function.
#[tactic(auto, using(crate::proofs::Placing::rows_are))]
pub fn objects_laid(
    alloc: Global,
    structs: &[Struct],
    known: &[Option<Laid>],
    function: &Function,
) -> Result<Sequence<Laid>, NoMemory>
    requires { IsLaid known.now structs.now }
    ensures { IfOk result (λ all. map layout_of all ≡ heights.object_layouts structs.now function.now) }
{
    let mut all = Sequence::new(alloc);
    push_laid(alloc, structs, known, function.params.as_slice(), &mut all)?;
    push_laid(alloc, structs, known, function.locals.as_slice(), &mut all)?;
    Ok(all)
}

/// The scalars of objects that are laid out.
#[tactic(auto, using(crate::proofs::Placing::slots_turn))]
pub fn all_slots(alloc: Global, laid: &[Laid]) -> Result<Sequence<Sequence<Slot>>, NoMemory>
    ensures { IfOk result (λ all. all ≡ slots_in (map layout_of laid.now)) }
{
    let mut all = Sequence::new(alloc);
    for one in laid {
        all.push(slots_copied(alloc, one.slots.as_slice())?)?;
    }
    Ok(all)
}

/// The parameters and locals, from their layouts.
#[tactic(auto, using(crate::proofs::Placing::placed_turn))]
pub fn locals_of(alloc: Global, laid: &[Laid]) -> Result<Sequence<IrLocal>, NoMemory>
    ensures { IfOk result (λ all. all ≡ placed_from 0 (map layout_of laid.now)) }
{
    let mut all = Sequence::new(alloc);
    let mut bytes: u32 = 0;
    for one in laid {
        let offset = start_behind(bytes, one.even)?;
        let scalars = slots_copied(alloc, one.slots.as_slice())?;
        all.push(IrLocal { offset, scalars })?;
        bytes = further(offset, u32::from(one.size))?;
    }
    Ok(all)
}

/// The bytes of the frame of a function of a program, where the number has 32 bits.
#[tactic(auto, using(crate::proofs::Placing::frame_told))]
pub fn frame_of(core: &Core, number: u16, _function: &Function) -> Result<u32, NoMemory>
    requires { slice_get core.now.functions number ≡ Some _function.now }
    ensures { IfOk result (λ bytes. bytes ≡ heights.frame_bytes core.now.structs _function.now) }
{
    let bytes = frame_bytes(core, number);
    if bytes == u32::MAX {
        return Err(NoMemory);
    }
    Ok(bytes)
}
