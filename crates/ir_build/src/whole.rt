//! The form of a program.

ghost use Rattle.std.specs.Prelude.{◌≡◌, true, IfOk};
ghost use Rattle.core_tree.specs.LawfulCore.{LawfulCore};
ghost use Rattle.c_meaning.specs.After.{main_of};
ghost use Rattle.ir_build.specs.Few.{have_few_steps};
ghost use Rattle.ir_gen.specs.Form as spec;
ghost use Rattle.ir_gen.specs.Plain.{IsPlain};
ghost use Rattle.ir_gen.specs.Serves.{Serves};

use crate::few::have_few_steps;
use crate::functions::functions_of;
use crate::variables::globals_of;
use base16::{NoMemory, Sequence};
use c_start::main_of;
use core_layout::structs_laid;
use core_tree::Core;
use ir::Ir;
use ir_gen::forms_serve_lawful_programs;
use std::alloc::Global;

/// The number of the function `main`, and 0 without it.
fn main_number(core: &Core) -> Result<u16, NoMemory>
    ensures { IfOk result (λ number. number ≡ spec.main_or (main_of core.now)) }
{
    match main_of(core.functions.as_slice()) {
        None => Ok(0),
        Some(number) => {
            if number > 65_535 {
                return Err(NoMemory);
            }
            Ok(number as u16)
        }
    }
}

/// The three-address form of a program, made as its definition says.
fn form_made(alloc: Global, core: &Core) -> Result<Ir, NoMemory>
    ensures form { IfOk result (λ ir. ir ≡ spec.form_of core.now) }
    ensures few { IfOk result (λ ir. have_few_steps ir.functions ≡ true) }
{
    let known = structs_laid(alloc, core.structs.as_slice())?;
    let main = main_number(core)?;
    let functions = functions_of(alloc, core, known.as_slice())?;
    if !have_few_steps(functions.as_slice()) {
        return Err(NoMemory);
    }
    let globals = globals_of(alloc, core, known.as_slice())?;
    Ok(Ir {
        functions,
        globals,
        tables: Sequence::new(alloc),
        main,
    })
}

/// The three-address form of a program. That of a lawful program without annotated statements serves it. No function has 2^32
/// steps or more.
///
/// # Errors
/// `NoMemory` if memory runs out, if an object has more than 16,383 bytes, or if a number of the form has more bits
/// than a form has room for.
#[tactic(auto, using(crate::proofs::Serving::served))]
pub fn generate(alloc: Global, core: &Core) -> Result<Ir, NoMemory>
    ensures form { IfOk result (λ ir. ir ≡ spec.form_of core.now) }
    ensures serves { LawfulCore core.now → IsPlain core.now → IfOk result (λ ir. Serves core.now ir) }
    ensures few { IfOk result (λ ir. have_few_steps ir.functions ≡ true) }
{
    forms_serve_lawful_programs();
    form_made(alloc, core)
}
