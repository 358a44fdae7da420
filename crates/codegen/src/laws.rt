ghost use Rattle.std.specs.Prelude.{ℕ, List};
ghost use Rattle.core_tree.specs.declared.program.Core.{Core};
ghost use Rattle.rt430.specs.declared.words.Helper.{Helper};
ghost use Rattle.ir.specs.declared.form.Ir.{Ir};
ghost use Rattle.matching.specs.Simulates.{Simulates};
ghost use Rattle.codegen.specs.Laid.{IsProgram};
ghost use Rattle.codegen.specs.Words.{global_words};

use core_layout::{
    frames_lie_apart, scalars_are_aligned, scalars_fit, scalars_rise, sizes_are_even,
    stamps_lie_behind,
};

/// The words of a program's items, with those of its data, simulate it.
pub fn images_simulate_their_programs()
    ensures { (routine : Helper → List ℕ) → (core : Core) → (ir : Ir) → (code : List ℕ) → IsProgram routine core ir code
        → Simulates core code (global_words core) }
{
    scalars_fit();
    scalars_rise();
    scalars_are_aligned();
    sizes_are_even();
    frames_lie_apart();
    stamps_lie_behind();
}
