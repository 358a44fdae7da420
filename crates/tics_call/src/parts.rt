//! What the parts of a tree are.

ghost use Rattle.std.specs.Prelude.{◌≡◌, ◌≢◌, ℕ, List, ◌<◌, [], ◌∷◌, true, false, Some, None, codes, MatchOption, IsTrue, ◌↔◌};
ghost use Rattle.c_tree.specs.declared.expression.Expr.{Expr as AnExpr};
ghost use Rattle.c_tree.specs.declared.statements.BlockItem.{BlockItem as ABlockItem};
ghost use Rattle.c_tree.specs.declared.unit.Function.{Function as AFunction};
ghost use Rattle.tics_call.specs.declared.source.Store.{Store as AStore};
ghost use Rattle.tics_call.specs.Form.{plain_int, declarator, in_braces, main_function, IsDeclaration, IsStore, IsReturn, IsMain};

use c_tree::{
    Base, BlockItem, Compound, Expr, ExprKind, External, Function, Init, Params, Spec, Statement,
    StatementKind,
};

/// Whether a type is `int` alone.
fn is_int(spec: &Spec) -> bool
    ensures { IsTrue result ↔ (spec.now ≡ plain_int) }
{
    spec.before.is_empty()
        && spec.after.is_empty()
        && matches!(spec.base, Base::Int { is_signed: false })
}

/// The name that an expression is.
fn name_of(expr: &Expr) -> Option<&[u8]>
    ensures { MatchOption result ((n : List ℕ) → expr.now.kind ≢ ExprKind.Name n) (λ n. expr.now.kind ≡ ExprKind.Name n.now) }
{
    match &expr.kind {
        ExprKind::Name(name) => Some(name.bytes()),
        _ => None,
    }
}

/// The number that an expression is, in decimal.
fn number_of(expr: &Expr) -> Option<u16>
    ensures { MatchOption result
        ((n : ℕ) → n < 65536 → expr.now.kind ≢ ExprKind.Number n true false)
        (λ n. expr.now.kind ≡ ExprKind.Number n true false) }
{
    match &expr.kind {
        ExprKind::Number {
            value,
            decimal: true,
            unsigned: false,
        } if *value < 65536 => Some(*value as u16),
        _ => None,
    }
}

/// The place and the value of an expression that is an assignment by `=`.
fn assignment_of(expr: &Expr) -> Option<(&Expr, &Expr)>
    ensures { MatchOption result
        ((p v : AnExpr) → expr.now.kind ≢ ExprKind.Assign p None v)
        (λ r. expr.now.kind ≡ ExprKind.Assign r.0.now None r.1.now) }
{
    match &expr.kind {
        ExprKind::Assign {
            place,
            op: None,
            value,
        } => Some((place.get(), value.get())),
        _ => None,
    }
}

/// The expression that a part of a body is.
fn expression_of(part: &BlockItem) -> Option<&Expr>
    ensures { MatchOption result
        ((e : AnExpr) (line : ℕ) → part.now ≢ BlockItem.Statement (record { kind = StatementKind.Expr (Some e); line = line }))
        (λ e. (line : ℕ) × (part.now ≡ BlockItem.Statement (record { kind = StatementKind.Expr (Some e.now); line = line }))) }
{
    match part {
        BlockItem::Statement(
            Statement {
                kind: StatementKind::Expr(Some(expr)),
                ..
            },
        ) => Some(expr),
        _ => None,
    }
}

/// The store that a part of a body is: the name and the number.
#[tactic(auto, using(crate::proofs::PartLaws::its_name, crate::proofs::PartLaws::its_number, crate::proofs::PartLaws::store_made))]
pub fn store_of(part: &BlockItem) -> Option<(&[u8], u16)>
    ensures { MatchOption result
        ((s : AStore) → IsStore s part.now → ⊥)
        (λ r. IsStore (record { name = r.0.now; value = r.1 }) part.now) }
{
    let Some(expr) = expression_of(part) else {
        return None;
    };
    let Some((place, number)) = assignment_of(expr) else {
        return None;
    };
    let Some(name) = name_of(place) else {
        return None;
    };
    let Some(value) = number_of(number) else {
        return None;
    };
    Some((name, value))
}

/// The expression that a part of a body returns.
fn returned(part: &BlockItem) -> Option<&Expr>
    ensures { MatchOption result
        ((e : AnExpr) (line : ℕ) → part.now ≢ BlockItem.Statement (record { kind = StatementKind.Return (Some e); line = line }))
        (λ e. (line : ℕ) × (part.now ≡ BlockItem.Statement (record { kind = StatementKind.Return (Some e.now); line = line }))) }
{
    match part {
        BlockItem::Statement(
            Statement {
                kind: StatementKind::Return(Some(expr)),
                ..
            },
        ) => Some(expr),
        _ => None,
    }
}

/// Whether a part of a body is `return 0;`.
pub fn is_return(part: &BlockItem) -> bool
    ensures is { result ≡ true → IsReturn part.now }
    ensures is_not { result ≡ false → IsReturn part.now → ⊥ }
{
    match returned(part) {
        Some(expr) => matches!(number_of(expr), Some(0)),
        None => false,
    }
}

/// The name that a declaration `int NAME;` declares.
pub fn declared_name(part: &External) -> Option<&[u8]>
    ensures { MatchOption result ((n : List ℕ) → IsDeclaration n part.now → ⊥) (λ n. IsDeclaration n.now part.now) }
{
    match part {
        External::Declaration {
            is_static: false,
            lifetime: None,
            declaration,
        } => {
            if is_int(&declaration.spec) {
                sole_name(declaration.inits.as_slice())
            } else {
                None
            }
        }
        _ => None,
    }
}

/// The name that the one declarator of a list is.
fn sole_name(inits: &[Init]) -> Option<&[u8]>
    ensures { MatchOption result
        ((n : List ℕ) (line : ℕ) → inits.now ≢ declarator n line ∷ [])
        (λ n. (line : ℕ) × (inits.now ≡ declarator n.now line ∷ [])) }
{
    match inits {
        [
            Init {
                declr,
                initial: None,
                ..
            },
        ] if declr.stars.is_empty() && declr.bounds.is_empty() => Some(declr.name.bytes()),
        _ => None,
    }
}

/// What stands in a body.
fn body_parts(body: &Option<Compound>) -> Option<&[BlockItem]>
    ensures { MatchOption result
        ((parts : List ABlockItem) → body.now ≢ Some (in_braces parts))
        (λ parts. body.now ≡ Some (in_braces parts.now)) }
{
    match body {
        Some(body) => Some(body.items.as_slice()),
        None => None,
    }
}

/// Whether a function is `int main(void)`, but for its body.
fn is_main(function: &Function) -> bool
    ensures is { result ≡ true → (function.now.spec ≡ plain_int) × (function.now.stars ≡ [])
        × (function.now.name ≡ codes "main") × (function.now.params ≡ Params.Void true) }
    ensures is_not { (parts : List ABlockItem) (line : ℕ) → function.now ≡ main_function parts line → result ≡ true }
{
    is_int(&function.spec)
        && function.stars.is_empty()
        && function.name.bytes() == b"main".as_slice()
        && matches!(function.params, Params::Void { is_written: true })
}

/// What stands in the braces of the function `int main(void){..}`.
fn main_body(function: &Function) -> Option<&[BlockItem]>
    ensures { MatchOption result
        ((parts : List ABlockItem) (line : ℕ) → function.now ≢ main_function parts line)
        (λ parts. (line : ℕ) × (function.now ≡ main_function parts.now line)) }
{
    if !is_main(function) {
        return None;
    }
    let Some(parts) = body_parts(&function.body) else {
        return None;
    };
    Some(parts)
}

/// The function that a part is, where it is not static.
fn function_of(part: &External) -> Option<&Function>
    ensures { MatchOption result
        ((f : AFunction) → part.now ≢ External.Function false f)
        (λ f. part.now ≡ External.Function false f.now) }
{
    match part {
        External::Function {
            is_static: false,
            function,
        } => Some(function),
        _ => None,
    }
}

/// What stands in the braces where a part is `int main(void){..}`.
pub fn main_parts(part: &External) -> Option<&[BlockItem]>
    ensures { MatchOption result ((parts : List ABlockItem) → IsMain parts part.now → ⊥) (λ parts. IsMain parts.now part.now) }
{
    let Some(function) = function_of(part) else {
        return None;
    };
    let Some(parts) = main_body(function) else {
        return None;
    };
    Some(parts)
}
