ghost use Rattle.std.specs.Prelude.{ℕ, Bool, List, Option, ℤ};
ghost use Rattle.base16.specs.declared.integer.IntType.{IntType};
ghost use Rattle.c_tree.specs.declared.qualified.Spec.{Spec};
ghost use Rattle.c_tree.specs.declared.declarations.Init.{Init};
ghost use Rattle.c_tree.specs.declared.declarations.Initial.{Initial};
ghost use Rattle.c_tree.specs.declared.statements.Compound.{Compound};
ghost use Rattle.c_tree.specs.declared.unit.Function.{Function};
ghost use Rattle.c_tree.specs.declared.unit.External.{External};
ghost use Rattle.c_tree.specs.declared.unit.Tree.{Tree};
ghost use Rattle.core_tree.specs.declared.types.Ty.{Ty};
ghost use Rattle.core_tree.specs.declared.statements.Init.{Init as Store};
ghost use Rattle.core_tree.specs.declared.statements.Stmt.{Stmt};
ghost use Rattle.core_tree.specs.declared.program.Core.{Core};
ghost use Rattle.core_tree.specs.declared.program.Typed.{Typed};
ghost use Rattle.core_tree.specs.declared.expressions.Expr.{Expr};
ghost use Rattle.core_tree.specs.Lawful.{Scope};
ghost use Rattle.core_tree.specs.LawfulCore.{Text};
ghost use Rattle.c_typing.specs.declared.environment.Env.{Env};
ghost use Rattle.c_checking.specs.declared.draft.Draft.{Draft};
ghost use Rattle.c_checking.specs.Functions.{Head};
ghost use Rattle.c_checking_laws.specs.Standing.{ExpressionsMayRest};
ghost use Rattle.c_checking_laws.specs.Accepted.{ObjectIsWhole, StoresAreLawful, DeclaratorIsLawful, BlockIsLawful};
ghost use Rattle.c_checking_laws.specs.Accepted.{HeadIsLawful, FunctionIsLawful, ConstantIsValue};
ghost use Rattle.c_checking_laws.specs.Programs.{GlobalsOfSource, FewOfSource, GlobalsInOrder, WalkedIsLawful};
ghost use Rattle.c_checking_laws.specs.Programs.{AcceptedIsLawful};
ghost use Rattle.c_checking_laws.specs.Walked.{PointStands, FunctionsOfSource, MainIsThere, NamesOfSource, StructsOfSource};

/// Expressions of a function may rest on what is declared at their point of the text.
pub fn expressions_may_rest()
    ensures { (calls : List ℕ → Bool) → (core : Core) → (env : Env) → (objects : List Ty)
        → ExpressionsMayRest calls core env objects }
{}

/// A type that breaks no rule of objects is an object of the program, of at most 16,383 bytes, with the layout and the
/// scalars that it has where it is declared.
pub fn objects_are_whole()
    ensures { (core : Core) → (env : Env) → (t : Ty) → ObjectIsWhole core env t }
{}

/// An initialiser of a local stores into each scalar of its object, or into none, a lawful value of its type or zero.
pub fn stores_are_lawful()
    ensures { (calls : List ℕ → Bool) → (core : Core) → (env : Env) → (x : Text) → (line : ℕ) → (t : Ty)
        → (i : Option Initial) → (all : List Store) → StoresAreLawful calls core env x line t i all }
{}

/// A declarator of a block that breaks no rule declares the next local, an object, and is a lawful statement.
pub fn declarators_are_lawful()
    ensures { (calls : List ℕ → Bool) → (core : Core) → (sp : Spec) → (i : Init) → DeclaratorIsLawful calls core sp i }
{}

/// Statements in braces that break no rule are lawful in the function around them, and what is declared stands behind them.
pub fn blocks_are_lawful()
    ensures { (calls : List ℕ → Bool) → (core : Core) → (body : Compound) → (breaks : Bool) → (continues : Bool)
        → BlockIsLawful calls core body breaks continues }
{}

/// The parameters of a function that breaks no rule are integers and pointers, and its result is one or `void`.
pub fn heads_are_lawful()
    ensures { (core : Core) → (env : Env) → (f : Function) → (h : Head) → HeadIsLawful core env f h }
{}

/// A function whose head and body break no rule is lawful.
pub fn functions_are_lawful()
    ensures { (calls : List ℕ → Bool) → (core : Core) → (env : Env) → (f : Function) → (h : Head) → (body : Compound)
        → (all : List Stmt) → (behind : Env) → FunctionIsLawful calls core env f h body all behind }
{}

/// At each point between two parts of a source that breaks no rule, what is declared stands for what the whole has in the
/// end: its first structs, its variables with their types, and the functions that it defines, before that point or behind.
pub fn points_stand()
    ensures { (tree : Tree) → (before : List External) → (after : List External) → (d : Draft) → (last : Draft)
        → PointStands tree before after d last }
{}

/// Each function of a source that breaks no rule is lawful in the program that the walk makes.
pub fn functions_of_sources_are_lawful()
    ensures { (tree : Tree) → (last : Draft) → FunctionsOfSource tree last }
{}

/// The structs of a source that breaks no rule are lawful in the program that the walk makes, each with a tag of its own,
/// and its variables are objects of at most 16,383 bytes.
pub fn structs_of_sources_are_lawful()
    ensures { (tree : Tree) → (last : Draft) → StructsOfSource tree last }
{}

/// The value of a lawful constant expression is a value of its type.
pub fn constants_are_values()
    ensures { (s : Scope) → (e : Expr) → (t : IntType) → (n : ℤ) → ConstantIsValue s e t n }
{}

/// `int main(void)` is one of the functions of what is accepted.
pub fn main_is_there()
    ensures { (d : Draft) → (last : Draft) → MainIsThere d last }
{}

/// The names of variables and functions of a source that breaks no rule stand once each, and are none that the language has.
pub fn names_stand_once()
    ensures { (tree : Tree) → (last : Draft) → NamesOfSource tree last }
{}

/// Each variable of a source that breaks no rule is lawful in the program that the walk makes: each of its scalars begins with
/// a value of its type, the null pointer, or the address of a place inside a variable that is declared by then.
pub fn globals_of_sources_are_lawful()
    ensures { (tree : Tree) → (last : Draft) → GlobalsOfSource tree last }
{}

/// A source that breaks no rule has no more structs than nodes, and defines no more functions.
pub fn structs_and_functions_are_few()
    ensures { (tree : Tree) → (last : Draft) → FewOfSource tree last }
{}

/// Before each variable of a source that breaks no rule stand the functions that are defined so far: no fewer than before the
/// variable in front of it, and no more than there are.
pub fn variables_stand_in_order()
    ensures { (tree : Tree) → (last : Draft) → GlobalsInOrder tree last }
{}

/// What the walk over a source that a text can have makes, of at most 20,000 nodes and with `main`, is lawful but for the
/// numbers of its nodes.
pub fn what_is_walked_is_lawful()
    ensures { (tree : Tree) → (last : Draft) → WalkedIsLawful tree last }
{}

/// What the check accepts of a source that a text can have, of at most 20,000 nodes, is a lawful program.
pub fn what_check_accepts_is_lawful()
    ensures { (tree : Tree) → (typed : Typed) → AcceptedIsLawful tree typed }
{}
