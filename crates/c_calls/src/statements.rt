//! Calls in statements.

ghost use Rattle.std.specs.Prelude.{◌≡◌, map};
ghost use Rattle.c_checking.specs.Calls as spec;
ghost use Rattle.c_calls.specs.Parts as parts;

use crate::declarations::in_inits;
use crate::expressions::{in_expr, in_optional};
use crate::search::{Searched, first_in_all, or_later};
use base16::Name;
use c_tree::{BlockItem, Compound, First, Group, Label, Statement, StatementKind, Tname};

/// In what stands before the first `;` of a `for`.
fn in_first(names: &[Name], first: &First) -> Option<u32>
    ensures { result ≡ spec.in_first names.now first.now }
{
    match first {
        First::Expr(expr) => in_optional(names, expr),
        First::Declaration(declaration) => in_inits(names, declaration.inits.as_slice()),
    }
}

/// In a label of a `switch`.
impl Searched for Label {
    ghost found = { spec.in_label };

    fn first_in(&self, names: &[Name]) -> Option<u32> {
        match self {
            Label::Case(expr) => in_expr(names, expr),
            Label::Default => None,
        }
    }
}

/// In the index of a name in `@expires`.
impl Searched for Tname {
    ghost found = { spec.in_tname };

    fn first_in(&self, names: &[Name]) -> Option<u32> {
        in_optional(names, &self.index)
    }
}

/// In a statement.
#[cycle(statement)]
pub fn in_statement(names: &[Name], statement: &Statement) -> Option<u32>
    ensures { result ≡ parts.in_statement names.now statement.now }
{
    match &statement.kind {
        StatementKind::Compound(body) => in_compound(names, body),
        StatementKind::Expr(expr) | StatementKind::Return(expr) => in_optional(names, expr),
        StatementKind::If {
            test,
            yes,
            no: None,
        }
        | StatementKind::Timely {
            place: test,
            yes,
            no: None,
            ..
        } => or_later(
            in_expr(names, test),
            or_later(in_statement(names, yes.get()), None),
        ),
        StatementKind::If {
            test,
            yes,
            no: Some(no),
        }
        | StatementKind::Timely {
            place: test,
            yes,
            no: Some(no),
            ..
        } => {
            let branches = or_later(
                in_statement(names, yes.get()),
                in_statement(names, no.get()),
            );
            or_later(in_expr(names, test), branches)
        }
        StatementKind::While { test, body } => {
            or_later(in_expr(names, test), in_statement(names, body.get()))
        }
        StatementKind::Do { body, test } => {
            or_later(in_statement(names, body.get()), in_expr(names, test))
        }
        StatementKind::For {
            first,
            test,
            step,
            body,
        } => {
            let inner = or_later(in_optional(names, step), in_statement(names, body.get()));
            or_later(
                in_first(names, first),
                or_later(in_optional(names, test), inner),
            )
        }
        StatementKind::Switch { on, groups } => {
            or_later(in_expr(names, on), in_groups(names, groups.as_slice()))
        }
        StatementKind::Break | StatementKind::Continue => None,
        StatementKind::Stamped { place, value } => {
            or_later(in_expr(names, place), in_expr(names, value))
        }
        StatementKind::Expires {
            names: timed,
            body,
            caught,
        } => {
            let bodies = or_later(in_compound(names, body), in_compound(names, caught));
            or_later(first_in_all(names, timed.as_slice()), bodies)
        }
    }
}

/// In braces.
#[cycle(statement)]
pub fn in_compound(names: &[Name], compound: &Compound) -> Option<u32>
    ensures { result ≡ spec.in_compound names.now compound.now }
{
    in_items(names, compound.items.as_slice())
}

#[cycle(statement)]
#[tactic(auto, using(crate::proofs::Finding::items_turn))]
fn in_items(names: &[Name], all: &[BlockItem]) -> Option<u32>
    ensures { result ≡ spec.first_of (map (parts.in_item names.now) all.now) }
{
    for item in all {
        if let Some(line) = in_item(names, item) {
            return Some(line);
        }
    }
    None
}

#[cycle(statement)]
fn in_item(names: &[Name], item: &BlockItem) -> Option<u32>
    ensures { result ≡ parts.in_item names.now item.now }
{
    match item {
        BlockItem::Declaration(declaration) => in_inits(names, declaration.inits.as_slice()),
        BlockItem::Statement(statement) => in_statement(names, statement),
    }
}

#[cycle(statement)]
#[tactic(auto, using(crate::proofs::Finding::groups_turn))]
fn in_groups(names: &[Name], all: &[Group]) -> Option<u32>
    ensures { result ≡ spec.first_of (map (parts.in_group names.now) all.now) }
{
    for group in all {
        if let Some(line) = in_group(names, group) {
            return Some(line);
        }
    }
    None
}

/// In a group of a `switch`.
#[cycle(statement)]
fn in_group(names: &[Name], group: &Group) -> Option<u32>
    ensures { result ≡ parts.in_group names.now group.now }
{
    or_later(
        first_in_all(names, group.labels.as_slice()),
        in_statements(names, group.statements.as_slice()),
    )
}

#[cycle(statement)]
#[tactic(auto, using(crate::proofs::Finding::statements_turn))]
fn in_statements(names: &[Name], all: &[Statement]) -> Option<u32>
    ensures { result ≡ spec.first_of (map (parts.in_statement names.now) all.now) }
{
    for statement in all {
        if let Some(line) = in_statement(names, statement) {
            return Some(line);
        }
    }
    None
}
