//! Whether a source has annotations about time.

ghost use Rattle.std.specs.Prelude.{◌≡◌, map};
ghost use Rattle.c_checking.specs.Annotations as spec;
ghost use Rattle.c_calls.specs.Parts as parts;

use c_tree::{BlockItem, Compound, External, Group, Statement, StatementKind, Tree};

#[cycle(statement)]
fn statement_has(statement: &Statement) -> bool
    ensures { result ≡ parts.statement_has statement.now }
{
    match &statement.kind {
        StatementKind::Compound(body) => compound_has(body),
        StatementKind::If { yes, no: None, .. } => statement_has(yes.get()),
        StatementKind::If {
            yes,
            no: Some(no),
            ..
        } => {
            let one = statement_has(yes.get());
            let other = statement_has(no.get());
            one || other
        }
        StatementKind::While { body, .. }
        | StatementKind::Do { body, .. }
        | StatementKind::For { body, .. } => statement_has(body.get()),
        StatementKind::Switch { groups, .. } => groups_have(groups.as_slice()),
        StatementKind::Stamped { .. }
        | StatementKind::Timely { .. }
        | StatementKind::Expires { .. } => true,
        StatementKind::Expr(_)
        | StatementKind::Break
        | StatementKind::Continue
        | StatementKind::Return(_) => false,
    }
}

#[cycle(statement)]
fn compound_has(compound: &Compound) -> bool
    ensures { result ≡ spec.has_in compound.now }
{
    items_have(compound.items.as_slice())
}

#[cycle(statement)]
#[tactic(auto, using(crate::proofs::Having::items_turn))]
fn items_have(all: &[BlockItem]) -> bool
    ensures { result ≡ spec.any_of (map parts.item_has all.now) }
{
    for item in all {
        if item_has(item) {
            return true;
        }
    }
    false
}

#[cycle(statement)]
fn item_has(item: &BlockItem) -> bool
    ensures { result ≡ parts.item_has item.now }
{
    match item {
        BlockItem::Declaration(_) => false,
        BlockItem::Statement(statement) => statement_has(statement),
    }
}

#[cycle(statement)]
#[tactic(auto, using(crate::proofs::Having::groups_turn))]
fn groups_have(all: &[Group]) -> bool
    ensures { result ≡ spec.any_of (map parts.group_has all.now) }
{
    for group in all {
        if group_has(group) {
            return true;
        }
    }
    false
}

#[cycle(statement)]
fn group_has(group: &Group) -> bool
    ensures { result ≡ parts.group_has group.now }
{
    statements_have(group.statements.as_slice())
}

#[cycle(statement)]
#[tactic(auto, using(crate::proofs::Having::statements_turn))]
fn statements_have(all: &[Statement]) -> bool
    ensures { result ≡ spec.any_of (map parts.statement_has all.now) }
{
    for statement in all {
        if statement_has(statement) {
            return true;
        }
    }
    false
}

fn is_annotated(external: &External) -> bool
    ensures { result ≡ spec.is_annotated external.now }
{
    match external {
        External::Struct { .. } => false,
        External::Function { function, .. } => match &function.body {
            None => false,
            Some(body) => compound_has(body),
        },
        External::Declaration { lifetime, .. } => lifetime.is_some(),
    }
}

/// Whether a source has `@=`, `@timely`, `@expires` or `@expires_after` somewhere.
#[tactic(auto, using(crate::proofs::Having::externals_turn), unfolding(c_checking::specs::Annotations::has_annotations))]
pub fn has_annotations(tree: &Tree) -> bool
    ensures { result ≡ spec.has_annotations tree.now }
{
    for external in tree.externals.as_slice() {
        if is_annotated(external) {
            return true;
        }
    }
    false
}
