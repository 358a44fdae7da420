ghost use Rattle.std.specs.Prelude.{ℕ, Bool, List};
ghost use Rattle.base16.specs.declared.operator.BinaryOp.{BinaryOp};
ghost use Rattle.c_tree.specs.declared.expression.Expr.{Expr as Source};
ghost use Rattle.core_tree.specs.declared.types.Ty.{Ty};
ghost use Rattle.core_tree.specs.declared.expressions.Expr.{Expr};
ghost use Rattle.core_tree.specs.Lawful.{Scope};
ghost use Rattle.c_typing.specs.declared.environment.Env.{Env};
ghost use Rattle.c_typing.specs.declared.operand.Operand.{Operand};
ghost use Rattle.c_typing_laws.specs.Sound.{AssignedIsLawful, BinaryIsLawful, ConditionalIsLawful, ConvertedIsLawful};
ghost use Rattle.c_typing_laws.specs.Sound.{MeansIsLawful, UpdatedIsLawful};

/// What a lawful expression converts to, as if by assignment, has the type to which it does, which is a scalar.
pub fn converted_is_lawful()
    ensures { (s : Scope) → (t : Ty) → (e : Expr) → (made : Expr) → ConvertedIsLawful s t e made }
{}

/// A binary operator makes a lawful expression of two lawful values, pointers too.
pub fn binary_is_lawful()
    ensures { (env : Env) → (s : Scope) → (op : BinaryOp) → (line : ℕ) → (a : Expr) → (b : Expr) → (made : Expr)
        → BinaryIsLawful env s op line a b made }
{}

/// `?:` makes a lawful expression of lawful ones.
pub fn conditional_is_lawful()
    ensures { (s : Scope) → (line : ℕ) → (test : Expr) → (a : Expr) → (b : Expr) → (made : Expr)
        → ConditionalIsLawful s line test a b made }
{}

/// `=` makes a lawful expression of a lawful operand and a lawful value.
pub fn assigned_is_lawful()
    ensures { (env : Env) → (s : Scope) → (line : ℕ) → (to : Operand) → (from : Expr) → (made : Expr)
        → AssignedIsLawful env s line to from made }
{}

/// `op=` makes a lawful expression of a lawful operand and a lawful value.
pub fn updated_is_lawful()
    ensures { (env : Env) → (s : Scope) → (op : BinaryOp) → (line : ℕ) → (old : Bool) → (to : Operand) → (by : Expr)
        → (made : Expr) → UpdatedIsLawful env s op line old to by made }
{}

/// Every expression that breaks no rule is lawful, where what is declared agrees with the program, the functions that it
/// calls are defined in it, before the call or behind it, and the annotations are not checked yet.
pub fn expressions_are_lawful()
    ensures { (calls : List ℕ → Bool) → (env : Env) → (s : Scope) → (e : Source) → (x : Operand)
        → MeansIsLawful calls env s e x }
{}
