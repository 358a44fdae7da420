ghost use Rattle.std.specs.Prelude.{◌≡◌, max};
ghost use Rattle.c_tree.specs.Measure as spec;

use crate::extent::{Extent, Measured, extent_of_all};
use crate::measure_declarations::{declaration_extent, optional_extent};
use crate::measure_expression::expr_extent;
use crate::statements::{
    BlockItem, Compound, First, Group, Label, Statement, StatementKind, Tname,
};

/// The extent of a name in `@expires`, which is that of its index.
impl Measured for Tname {
    ghost measure = { spec.tname_measure };

    fn extent(&self) -> Extent {
        optional_extent(&self.index)
    }
}

/// The extent of a label.
impl Measured for Label {
    ghost measure = { spec.label_measure };

    fn extent(&self) -> Extent {
        match self {
            Label::Case(expr) => expr_extent(expr),
            Label::Default => Extent::none(),
        }
    }
}

/// The extent of what stands before the first `;` of a `for`.
fn first_extent(first: &First) -> Extent
    ensures nodes { result.nodes ≡ spec.capped (spec.first_measure spec.sum first.now) }
    ensures height { result.height ≡ spec.capped (spec.first_measure max first.now) }
{
    match first {
        First::Expr(expr) => optional_extent(expr),
        First::Declaration(declaration) => declaration_extent(declaration),
    }
}

/// The extent of a statement.
#[cycle(statement_extent)]
pub fn statement_extent(statement: &Statement) -> Extent
    ensures nodes { result.nodes ≡ spec.capped (spec.statement_measure spec.sum statement.now) }
    ensures height { result.height ≡ spec.capped (spec.statement_measure max statement.now) }
{
    match &statement.kind {
        StatementKind::Compound(body) => compound_extent(body).above(),
        StatementKind::Expr(expr) | StatementKind::Return(expr) => optional_extent(expr).above(),
        StatementKind::If {
            test,
            yes,
            no: None,
        }
        | StatementKind::Timely {
            place: test,
            yes,
            no: None,
            ..
        } => expr_extent(test)
            .beside(statement_extent(yes.get()))
            .above(),
        StatementKind::If {
            test,
            yes,
            no: Some(no),
        }
        | StatementKind::Timely {
            place: test,
            yes,
            no: Some(no),
            ..
        } => expr_extent(test)
            .beside(statement_extent(yes.get()))
            .beside(statement_extent(no.get()))
            .above(),
        StatementKind::While { test, body } | StatementKind::Do { body, test } => expr_extent(test)
            .beside(statement_extent(body.get()))
            .above(),
        StatementKind::For {
            first,
            test,
            step,
            body,
        } => first_extent(first)
            .beside(optional_extent(test))
            .beside(optional_extent(step))
            .beside(statement_extent(body.get()))
            .above(),
        StatementKind::Switch { on, groups } => expr_extent(on)
            .beside(groups_extent(groups.as_slice()))
            .above(),
        StatementKind::Break | StatementKind::Continue => Extent::none().above(),
        StatementKind::Stamped { place, value } => expr_extent(place)
            .beside(expr_extent(value))
            .above(),
        StatementKind::Expires {
            names,
            body,
            caught,
        } => extent_of_all(names.as_slice())
            .beside(compound_extent(body))
            .beside(compound_extent(caught))
            .above(),
    }
}

/// The extent of a compound, which is that of the declarations and statements in it.
#[cycle(statement_extent)]
pub fn compound_extent(compound: &Compound) -> Extent
    ensures nodes { result.nodes ≡ spec.capped (spec.compound_measure spec.sum compound.now) }
    ensures height { result.height ≡ spec.capped (spec.compound_measure max compound.now) }
{
    items_extent(compound.items.as_slice())
}

/// The extent of declarations and statements side by side.
#[cycle(statement_extent)]
fn items_extent(all: &[BlockItem]) -> Extent
    ensures nodes { result.nodes ≡ spec.capped (spec.all spec.sum (spec.block_item_measure spec.sum) all.now) }
    ensures height { result.height ≡ spec.capped (spec.all max (spec.block_item_measure max) all.now) }
{
    let mut sum = Extent::none();
    for item in all {
        sum = sum.beside(item_extent(item));
    }
    sum
}

/// The extent of a declaration or a statement.
#[cycle(statement_extent)]
fn item_extent(item: &BlockItem) -> Extent
    ensures nodes { result.nodes ≡ spec.capped (spec.block_item_measure spec.sum item.now) }
    ensures height { result.height ≡ spec.capped (spec.block_item_measure max item.now) }
{
    match item {
        BlockItem::Declaration(declaration) => declaration_extent(declaration),
        BlockItem::Statement(statement) => statement_extent(statement),
    }
}

/// The extent of the groups of a `switch`.
#[cycle(statement_extent)]
fn groups_extent(all: &[Group]) -> Extent
    ensures nodes { result.nodes ≡ spec.capped (spec.all spec.sum (spec.group_measure spec.sum) all.now) }
    ensures height { result.height ≡ spec.capped (spec.all max (spec.group_measure max) all.now) }
{
    let mut sum = Extent::none();
    for group in all {
        sum = sum.beside(group_extent(group));
    }
    sum
}

/// The extent of labels and the statements below them.
#[cycle(statement_extent)]
fn group_extent(group: &Group) -> Extent
    ensures nodes { result.nodes ≡ spec.capped (spec.group_measure spec.sum group.now) }
    ensures height { result.height ≡ spec.capped (spec.group_measure max group.now) }
{
    extent_of_all(group.labels.as_slice()).beside(statements_extent(group.statements.as_slice()))
}

/// The extent of statements side by side.
#[cycle(statement_extent)]
fn statements_extent(all: &[Statement]) -> Extent
    ensures nodes { result.nodes ≡ spec.capped (spec.all spec.sum (spec.statement_measure spec.sum) all.now) }
    ensures height { result.height ≡ spec.capped (spec.all max (spec.statement_measure max) all.now) }
{
    let mut sum = Extent::none();
    for statement in all {
        sum = sum.beside(statement_extent(statement));
    }
    sum
}
