//! What stands where, for reports and listings.

ghost use Rattle.std.specs.Prelude.{◌≡◌, ◌≤◌, length, IfOk};
ghost use Rattle.codegen.specs.Symbols as spec;

use base16::{FuncSym, Name, NoMemory, Sequence};
use core_tree::{Core, frame_bytes};
use std::alloc::Global;

/// A function that begins behind so many words of code.
fn symbol(
    alloc: Global,
    core: &Core,
    number: u16,
    name: &Name,
    start: u32,
) -> Result<FuncSym, NoMemory>
    ensures { IfOk result (λ made. made ≡ spec.symbol core.now number name.now start) }
{
    Ok(FuncSym {
        name: Name::new(alloc, name.bytes())?,
        address: 0x8000u16.wrapping_add(((2 * u64::from(start)) % 65_536) as u16),
        frame: (frame_bytes(core, number) % 65_536) as u16,
    })
}

/// The functions of a program, each of which begins behind so many words of code; `NoMemory` where there are more or fewer.
#[tactic(auto, using(crate::proofs::Told::symbols_turn))]
pub fn functions_of(
    alloc: Global,
    core: &Core,
    starts: &[u32],
) -> Result<Sequence<FuncSym>, NoMemory>
    requires { length core.now.functions ≤ 65536 }
    ensures { IfOk result (λ all. all ≡ spec.symbols core.now 0 starts.now core.now.functions) }
{
    let functions = core.functions.as_slice();
    if starts.len() != functions.len() {
        return Err(NoMemory);
    }
    let mut all = Sequence::new(alloc);
    for number in 0..functions.len() {
        let name = &functions[number].name;
        all.push(symbol(alloc, core, number as u16, name, starts[number])?)?;
    }
    Ok(all)
}
