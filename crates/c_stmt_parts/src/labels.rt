//! The labels of a `switch` (C99 6.8.4.2).

ghost use Rattle.std.specs.Prelude.{◌≡◌, ◌++◌, IfOk};
ghost use Rattle.c_typing.specs.Outcome.{Answers, at};
ghost use Rattle.c_typing.specs.TypeNames as types;
ghost use Rattle.c_checking.specs.Statements as spec;

use base16::{IntType, NoMemory, Sequence};
use c_conversions::broken;
use c_exprs::valued;
use c_rules::value as constant_value;
use c_tree::{Expr as Source, Label};
use c_typing::{Env, Rule, Stop};
use c_values::as_type;
use core_tree::Expr;
use sqlite_items::{Boxed, Items};
use std::alloc::Global;

/// Whether two labels are one.
fn same_label(one: Option<i64>, other: Option<i64>) -> bool
    ensures { result ≡ spec.same_label one other }
{
    match (one, other) {
        (None, None) => true,
        (Some(m), Some(n)) => m == n,
        _ => false,
    }
}

/// Whether a label stands among others.
#[tactic(auto, using(crate::proofs::Turns::label_next, crate::proofs::Turns::no_label_left))]
fn stands_in(labels: &[Option<i64>], label: Option<i64>) -> bool
    ensures { result ≡ spec.stands_in labels.now label }
{
    for other in labels {
        if same_label(*other, label) {
            return true;
        }
    }
    false
}

/// A label that does not stand among those before it.
#[tactic(auto, using(crate::proofs::Turns::stands_in_both))]
fn once(
    line: u32,
    before: &[Option<i64>],
    found: &[Option<i64>],
    label: Option<i64>,
) -> Result<Option<i64>, Stop>
    ensures { Answers (spec.once line (before.now ++ found.now) label) result }
{
    if stands_in(before, label) || stands_in(found, label) {
        Err(broken(Rule::Twice, line))
    } else {
        Ok(label)
    }
}

/// The value of a constant.
fn constant_of(value: &Option<Boxed<Expr>>) -> Option<i64>
    ensures { result ≡ types.constant_of value.now }
{
    match value {
        Some(expr) => constant_value(expr.get()),
        None => None,
    }
}

/// A constant in the type of the `switch`.
fn case_value(line: u32, at_type: IntType, value: Option<i64>) -> Result<i64, Stop>
    ensures { Answers (at line (spec.case_value at_type value)) result }
{
    match value {
        Some(value) => Ok(as_type(at_type, value)),
        None => Err(broken(Rule::NotConstant, line)),
    }
}

/// A label of a `switch` at a line, behind others.
#[tactic(auto, unfolding(c_checking::specs::Statements::label_of))]
fn label_of(
    alloc: Global,
    env: &Env,
    line: u32,
    at_type: IntType,
    before: &[Option<i64>],
    found: &[Option<i64>],
    label: &Label,
) -> Result<Option<i64>, Stop>
    ensures { Answers (spec.label_of env.now line at_type (before.now ++ found.now) label.now) result }
{
    match label {
        Label::Default => once(line, before, found, None),
        Label::Case(expr) => {
            let value = valued(alloc, env, expr)?;
            let value = case_value(expr.line, at_type, constant_of(&value))?;
            once(expr.line, before, found, Some(value))
        }
    }
}

/// The labels of a group, behind those before it.
#[tactic(auto, using(crate::proofs::Turns::no_labels_yet, crate::proofs::Turns::labels_turn, crate::proofs::Turns::labels_break, crate::proofs::Turns::labels_end))]
pub fn labels_of(
    alloc: Global,
    env: &Env,
    line: u32,
    at_type: IntType,
    before: &[Option<i64>],
    labels: &[Label],
) -> Result<Items<Option<i64>>, Stop>
    ensures { Answers (spec.labels_of env.now line at_type before.now labels.now) result }
{
    let mut found = Items::new(alloc);
    for label in labels {
        let value = label_of(alloc, env, line, at_type, before, found.as_slice(), label)?;
        found.push(value)?;
    }
    Ok(found)
}

/// More labels behind others.
pub fn extend(labels: &mut Sequence<Option<i64>>, more: &[Option<i64>]) -> Result<(), NoMemory>
    ensures { IfOk result (λ u. labels.new ≡ labels.old ++ more.now) }
{
    for label in more {
        labels.push(*label)?;
    }
    Ok(())
}
