ghost use Rattle.std.specs.Prelude.{ℕ, Bool};
ghost use Rattle.base16.specs.declared.integer.IntType.{IntType};
ghost use Rattle.base16.specs.declared.operator.UnaryOp.{UnaryOp};
ghost use Rattle.base16.specs.declared.operator.BinaryOp.{BinaryOp};
ghost use Rattle.core_tree.specs.declared.expressions.Expr.{Expr};
ghost use Rattle.core_tree.specs.declared.expressions.Place.{Place};
ghost use Rattle.core_tree.specs.Lawful.{Scope};
ghost use Rattle.c_tree.specs.declared.expression.Expr.{Expr as Source};
ghost use Rattle.c_typing.specs.declared.environment.Env.{Env};
ghost use Rattle.c_typing.specs.declared.fault.Fault.{Fault};
ghost use Rattle.c_typing.specs.declared.operand.Operand.{Operand};
ghost use Rattle.c_typing.specs.FirstFault.{IsWalked, FaultIsFirst};
ghost use Rattle.c_typing.specs.LawfulPlaces.{ValueIsLawful, DerefIsLawful, AddressIsLawful};
ghost use Rattle.c_typing.specs.LawfulRows.{IntegersAreLawful, ArithmeticIsLawful, LogicalIsLawful, SequenceIsLawful};

/// An expression is what the row of its node makes of its operands.
pub fn expressions_are_walked()
    ensures { (env : Env) → (e : Source) → IsWalked env e }
{}

/// A fault is that of the first operand that has one, the operands before it having none, or else that of the node, by its
/// row and at its line.
pub fn faults_are_the_first()
    ensures { (env : Env) → (e : Source) → (f : Fault) → FaultIsFirst env e f }
{}

/// A binary operator makes a lawful expression of two lawful integers.
pub fn integers_are_lawful()
    ensures { (s : Scope) → (op : BinaryOp) → (line : ℕ) → (x : IntType) → (y : IntType) → (a : Expr) → (b : Expr)
        → IntegersAreLawful s op line x a y b }
{}

/// `+`, `-` and `~` make a lawful expression of a lawful integer.
pub fn arithmetic_is_lawful()
    ensures { (s : Scope) → (op : UnaryOp) → (line : ℕ) → (x : IntType) → (e : Expr) → ArithmeticIsLawful s op line x e }
{}

/// `&&` and `||` make lawful expressions of lawful ones.
pub fn logical_is_lawful()
    ensures { (s : Scope) → (line : ℕ) → (a : Expr) → (b : Expr) → (made : Expr) → LogicalIsLawful s line a b made }
{}

/// The comma makes a lawful expression of lawful ones.
pub fn sequence_is_lawful()
    ensures { (s : Scope) → (line : ℕ) → (a : Expr) → (b : Expr) → (made : Expr) → SequenceIsLawful s line a b made }
{}

/// The value of a lawful operand is a lawful expression.
pub fn values_are_lawful()
    ensures { (s : Scope) → (x : Operand) → (v : Expr) → ValueIsLawful s x v }
{}

/// What `*` makes of a lawful pointer is a lawful place, const where the pointer is one to const.
pub fn deref_is_lawful()
    ensures { (s : Scope) → (line : ℕ) → (e : Expr) → (x : Operand) → DerefIsLawful s line e x }
{}

/// What `&` makes of a lawful place is a lawful pointer, one to const where the place is const.
pub fn address_is_lawful()
    ensures { (s : Scope) → (line : ℕ) → (p : Place) → (readonly : Bool) → (made : Expr) → AddressIsLawful s line p readonly made }
{}
