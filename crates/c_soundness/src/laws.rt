ghost use Rattle.std.specs.Prelude.{ℕ, Bool, List};
ghost use Rattle.base16.specs.declared.reading.Reading.{Reading};
ghost use Rattle.core_tree.specs.declared.program.Core.{Core};
ghost use Rattle.core_tree.specs.LawfulCore.{IsLawful};
ghost use Rattle.c_soundness.specs.Rules.{MeetsOnlyTheRules};

/// The run of a lawful program, whether its annotations are checked or not, is undefined only where one of the rules is
/// broken, at one of its nodes: never by a shape that no checker lets pass, for all readings and every number of marks.
pub fn a_lawful_program_meets_only_the_rules()
    ensures { (annotated : Bool) → (core : Core) → IsLawful annotated core → (readings : List Reading) → (s : ℕ)
        → MeetsOnlyTheRules core readings s }
{}
