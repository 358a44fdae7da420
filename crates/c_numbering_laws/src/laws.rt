ghost use Rattle.std.specs.Prelude.{ℕ, List};
ghost use Rattle.core_tree.specs.declared.types.Ty.{Ty};
ghost use Rattle.core_tree.specs.declared.expressions.Expr.{Expr};
ghost use Rattle.core_tree.specs.declared.statements.Stmt.{Stmt};
ghost use Rattle.core_tree.specs.declared.program.Core.{Core};
ghost use Rattle.core_tree.specs.Lawful.{Scope};
ghost use Rattle.core_tree.specs.LawfulCore.{Text};
ghost use Rattle.c_numbering_laws.specs.Counted.{ExpressionCounts, ProgramCounts, StatementsCount};
ghost use Rattle.c_numbering_laws.specs.Kept.{ExpressionStays, StatementsStay};
ghost use Rattle.c_numbering_laws.specs.Whole.{NumberedIsLawful};

/// A lawful expression stays lawful in the program with its nodes numbered, and keeps its type.
pub fn expressions_stay_lawful()
    ensures { (s : Scope) → (e : Expr) → (t : Ty) → (n : ℕ) → ExpressionStays s e t n }
{}

/// Lawful statements stay lawful in the program with its nodes numbered.
pub fn statements_stay_lawful()
    ensures { (x : Text) → (all : List Stmt) → (n : ℕ) → StatementsStay x all n }
{}

/// The nodes of an expression have the numbers from one on, and the next number is behind them.
pub fn expressions_count()
    ensures { (e : Expr) → (n : ℕ) → ExpressionCounts e n }
{}

/// The nodes of statements one after another have the numbers from one on, and the next number is behind them.
pub fn statements_count()
    ensures { (all : List Stmt) → (n : ℕ) → StatementsCount all n }
{}

/// The nodes of a program with its nodes numbered have the numbers from 0 on, in the order of the text.
pub fn programs_count()
    ensures { (core : Core) → ProgramCounts core }
{}

/// A program that is lawful but for the numbers of its nodes is lawful when they are numbered.
pub fn numbered_is_lawful()
    ensures { (core : Core) → NumberedIsLawful core }
{}
