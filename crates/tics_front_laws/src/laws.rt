ghost use Rattle.std.specs.Prelude.{ℕ, List};
ghost use Rattle.base16.specs.declared.reading.Reading.{Reading};
ghost use Rattle.c_tree.specs.declared.unit.Tree.{Tree};
ghost use Rattle.core_tree.specs.declared.program.Typed.{Typed};
ghost use Rattle.tics_front_laws.specs.Programs.{ProgramIsLawful, ProgramMeetsOnlyTheRules};

/// A text that is a program by the rules of the language is a lawful one.
pub fn programs_are_lawful()
    ensures { (text : List ℕ) → (tree : Tree) → (typed : Typed) → ProgramIsLawful text tree typed }
{}

/// Its run is undefined only where one of the rules from 1 to 12 is broken, at one of its nodes, for all readings and every
/// number of marks.
pub fn programs_meet_only_the_rules()
    ensures { (text : List ℕ) → (tree : Tree) → (typed : Typed) → (readings : List Reading) → (s : ℕ)
        → ProgramMeetsOnlyTheRules text tree typed readings s }
{}
