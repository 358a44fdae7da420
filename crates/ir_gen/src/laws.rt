ghost use Rattle.core_tree.specs.declared.program.Core.{Core};
ghost use Rattle.core_tree.specs.LawfulCore.{LawfulCore};
ghost use Rattle.ir_gen.specs.Example.{small_program};
ghost use Rattle.ir_gen.specs.Form.{IsBuilt, form_of};
ghost use Rattle.ir_gen.specs.Plain.{IsPlain};
ghost use Rattle.ir_gen.specs.Serves.{Serves};

/// The form of a program serves it: the form's run has the program's states and stops, it has the functions and variables
/// of the program, the steps of a node are no longer than its row of the cost table, and between two marks no step is made
/// twice.
pub fn forms_serve_their_programs()
    ensures { (core : Core) → IsBuilt core → Serves core (form_of core) }
{}

/// A form is made of every lawful program without annotated statements.
pub fn lawful_programs_are_built()
    ensures { (core : Core) → LawfulCore core → IsPlain core → IsBuilt core }
{}

/// So the form of a lawful program without annotated statements serves it.
pub fn forms_serve_lawful_programs()
    ensures { (core : Core) → LawfulCore core → IsPlain core → Serves core (form_of core) }
{}

/// A worked example: the small program is lawful and has no annotated statement, so its form serves it.
pub fn a_small_program_has_a_form()
    ensures { LawfulCore small_program × IsPlain small_program × Serves small_program (form_of small_program) }
{}
