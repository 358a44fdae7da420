//! The image of a program.

ghost use Rattle.std.specs.Prelude.{◌≡◌, ◌≤◌, None, length, slice_index, IfOk, IfErr, OnOk, IsTrue};
ghost use Rattle.asm430.specs.Assembly.{are_formed};
ghost use Rattle.core430.specs.Uses.{AreWords};
ghost use Rattle.core_tree.specs.LawfulCore.{LawfulCore};
ghost use Rattle.ideal430.specs.Loaded.{IsLoadable};
ghost use Rattle.ir_gen.specs.Plain.{IsPlain};
ghost use Rattle.ir_gen.specs.Serves.{Serves};
ghost use Rattle.matching.specs.Simulates.{Simulates};
ghost use Rattle.codegen.specs.Made.{AreWordsOf, IsImage};
ghost use Rattle.codegen.specs.Refused.{refusal_of, IsCause};
ghost use Rattle.codegen.specs.Standing.{data_laid};

use crate::data::{DataLaid, variables_laid};
use crate::errors::GenErr;
use crate::items::items_of;
use crate::laws::images_simulate_their_programs;
use crate::refusals::refusal;
use crate::routines::all_routines;
use crate::symbols::functions_of;
use crate::words::global_words;
use asm430::{Item, assemble};
use base16::{Image, NoMemory, Sequence, Symbols};
use core_layout::scalars;
use core_tree::Core;
use ir::Ir;
use std::alloc::Global;

/// Reads each word: it is one.
fn see_words(words: &[u16])
    ensures { AreWords (slice_index words.now) }
{
    for at in 0..words.len() {
        let _word = words[at];
    }
}

/// The words of items, and `NoMemory` where these have a fault.
#[tactic(auto, using(crate::proofs::Generated::short_words))]
fn assembled(alloc: Global, items: &[Item]) -> Result<Sequence<u16>, NoMemory>
    requires { IsTrue (are_formed items.now) }
    ensures words { IfOk result (λ words. AreWordsOf items.now words) }
    ensures wide { IfOk result (λ words. AreWords (slice_index words)) }
    ensures short { IfOk result (λ words. length words ≤ 14336) }
{
    if items.len() >= 4_294_967_296 {
        return Err(NoMemory);
    }
    let Ok(words) = assemble(alloc, items) else {
        return Err(NoMemory);
    };
    see_words(words.as_slice());
    Ok(Sequence::from_vec(words))
}

/// The image of a program that is not refused, whose data stand so.
fn image_of(alloc: Global, core: &Core, ir: &Ir, laid: &DataLaid) -> Result<Image, NoMemory>
    requires few { length core.now.functions ≤ 65536 }
    requires fine { refusal_of core.now ≡ None }
    requires laid { laid.now ≡ data_laid core.now }
    ensures image { LawfulCore core.now → IsPlain core.now → Serves core.now ir.now → IfOk result (IsImage core.now ir.now) }
    ensures simulates { LawfulCore core.now → IsPlain core.now → Serves core.now ir.now
        → IfOk result (λ image. Simulates core.now image.code image.globals) }
    ensures loadable { IfOk result (λ image. IsLoadable image.code image.globals) }
{
    images_simulate_their_programs();
    let routines = all_routines();
    let made = items_of(alloc, core, ir, &routines, laid.stamps)?;
    let code = assembled(alloc, made.items.as_slice())?;
    let globals = global_words(alloc, core, laid)?;
    let scalars = scalars(alloc, core)?;
    let functions = functions_of(alloc, core, made.starts.as_slice())?;
    Ok(Image {
        code,
        tables: (made.tables % 65_536) as u16,
        globals,
        symbols: Symbols { scalars, functions },
    })
}

/// The image of a program, made of its form: the words of code stand from byte address 8000 (hexadecimal), those of data
/// from 4000. Of a lawful program without annotated statements and a form that serves it, the image simulates the program.
///
/// # Errors
/// The first of these: `FrameTooBig` exactly where a function's frame has more than 240 bytes, `DataTooBig` exactly where
/// variables and stamps have more than 16,384, `CodeTooBig` exactly where the rows of all nodes in the table of costs and
/// 1,024 bytes for the start and the helper routines come to more than 28,672. `NoMemory` if memory runs out, or where
/// the form is of no such program and its steps do not go together.
pub fn emit_code(alloc: Global, core: &Core, ir: &Ir) -> Result<Image, GenErr>
    ensures image { LawfulCore core.now → IsPlain core.now → Serves core.now ir.now → IfOk result (IsImage core.now ir.now) }
    ensures simulates { LawfulCore core.now → IsPlain core.now → Serves core.now ir.now
        → IfOk result (λ image. Simulates core.now image.code image.globals) }
    ensures loadable { IfOk result (λ image. IsLoadable image.code image.globals) }
    ensures fine { OnOk result (refusal_of core.now ≡ None) }
    ensures cause { IfErr result (λ fault. IsCause (refusal_of core.now) fault) }
{
    if core.functions.len() > 65_536 {
        return Err(GenErr::NoMemory);
    }
    let Ok(laid) = variables_laid(alloc, core) else {
        return Err(GenErr::NoMemory);
    };
    if let Some(fault) = refusal(core, laid.bytes) {
        return Err(fault);
    }
    match image_of(alloc, core, ir, &laid) {
        Ok(image) => Ok(image),
        Err(_) => Err(GenErr::NoMemory),
    }
}
