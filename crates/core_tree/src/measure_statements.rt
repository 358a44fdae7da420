ghost use Rattle.std.specs.Prelude.{◌≡◌, ◌+◌, ◌*◌, true, map, length};
ghost use Rattle.core_tree.specs.Costs.{capped_cost, each, place_rows, init_row, init_rows, grouped, stmt_rows};
ghost use Rattle.core_tree.specs.Costs as costs;
ghost use Rattle.core_tree.specs.Heights.{capped, expr_height, place_height, init_height, group_height, stmt_height, tallest, optional};
ghost use Rattle.core_tree.specs.Nodes.{expr_nodes, place_nodes, init_nodes, group_nodes, stmt_nodes, total};

use crate::expressions::{Expr, Place};
use crate::measure::Measure;
use crate::measure_expressions::{expr_measure, held, place_measure};
use crate::rows::{CONSTANT_ROW, loop_row, row_with, store_row};
use crate::statements::{Group, Init, Stmt, StmtKind};

/// The measure of an expression that may be left out.
fn optional_measure(expr: &Option<Expr>) -> Measure
    ensures height { result.height ≡ capped (optional expr_height expr.now) }
    ensures cost { result.cost ≡ capped_cost (optional (costs.expr_rows each) expr.now) }
    ensures nodes { result.nodes ≡ capped_cost (optional expr_nodes expr.now) }
{
    match expr {
        None => Measure::none(),
        Some(expr) => expr_measure(expr),
    }
}

/// The measure of places side by side.
fn places_measure(places: &[Place]) -> Measure
    ensures height { result.height ≡ capped (tallest (map place_height places.now)) }
    ensures cost { result.cost ≡ capped_cost (total (map (place_rows each) places.now)) }
    ensures nodes { result.nodes ≡ capped_cost (total (map place_nodes places.now)) }
{
    let mut sum = Measure::none();
    for place in places {
        sum = sum.beside(place_measure(place));
    }
    sum
}

/// The measure of what initialisers store.
fn inits_measure(inits: &[Init]) -> Measure
    ensures height { result.height ≡ capped (tallest (map init_height inits.now)) }
    ensures cost { result.cost ≡ capped_cost (total (map (init_rows each) inits.now)) }
    ensures nodes { result.nodes ≡ capped_cost (total (map init_nodes inits.now)) }
{
    let mut sum = Measure::none();
    for init in inits {
        sum = sum.beside(optional_measure(&init.value));
    }
    sum
}

/// The row of a store that an initialiser makes.
fn stored_row(init: &Init) -> u64
    ensures { result ≡ init_row init.now }
{
    match init.value {
        None => store_row(init.marked) + CONSTANT_ROW,
        Some(_) => store_row(init.marked),
    }
}

/// The rows of the stores that initialisers make.
fn inits_row(inits: &[Init]) -> u64
    ensures { result ≡ capped_cost (total (map init_row inits.now)) }
{
    let mut sum: u64 = 0;
    for init in inits {
        sum = sum.saturating_add(stored_row(init));
    }
    sum
}

/// How many labels groups have.
fn labels_of(groups: &[Group]) -> u64
    ensures { result ≡ capped_cost (total (map (λ g. (grouped each g).labels) groups.now)) }
{
    let mut sum: u64 = 0;
    for group in groups {
        sum = sum.saturating_add(group.labels.len() as u64);
    }
    sum
}

/// The row of a `switch`.
fn switch_row(groups: &[Group]) -> u64
    ensures { result ≡ capped_cost (24 + 20 * total (map (λ g. (grouped each g).labels) groups.now)) }
{
    labels_of(groups).saturating_mul(20).saturating_add(24)
}

/// The measure of a statement, in the text of an `@expires` block or not.
#[cycle(stmt_measure)]
pub fn stmt_measure(stmt: &Stmt, inside: bool) -> Measure
    ensures height { result.height ≡ capped (stmt_height stmt.now) }
    ensures cost { result.cost ≡ capped_cost (stmt_rows each stmt.now inside) }
    ensures nodes { result.nodes ≡ capped_cost (stmt_nodes stmt.now) }
{
    match &stmt.kind {
        StmtKind::Expr(expr) => expr_measure(expr).under(0),
        StmtKind::Block(all) => stmts_measure(all.as_slice(), inside).under(0),
        StmtKind::If {
            test,
            yes,
            no: None,
        } => expr_measure(test)
            .beside(stmt_measure(yes.get(), inside))
            .under(24),
        StmtKind::If {
            test,
            yes,
            no: Some(no),
        } => expr_measure(test)
            .beside(stmt_measure(yes.get(), inside).beside(stmt_measure(no.get(), inside)))
            .under(24),
        StmtKind::While { test, body } => {
            expr_measure(test)
                .beside(stmt_measure(body.get(), inside))
                .under(loop_row(inside))
        }
        StmtKind::Do { body, test } => {
            stmt_measure(body.get(), inside)
                .beside(expr_measure(test))
                .under(loop_row(inside))
        }
        StmtKind::For {
            first: None,
            test,
            step,
            body,
        } => optional_measure(test)
            .beside(optional_measure(step).beside(stmt_measure(body.get(), inside)))
            .under(loop_row(inside)),
        StmtKind::For {
            first: Some(first),
            test,
            step,
            body,
        } => stmt_measure(first.get(), inside)
            .beside(optional_measure(test))
            .beside(optional_measure(step).beside(stmt_measure(body.get(), inside)))
            .under(loop_row(inside)),
        StmtKind::Switch { on, groups } => expr_measure(on)
            .beside(groups_measure(groups.as_slice(), inside))
            .under(switch_row(groups.as_slice())),
        StmtKind::Break | StmtKind::Continue => Measure::none().under(20),
        StmtKind::Return(value) => optional_measure(value).under(20),
        StmtKind::Stamped { place, value } => held(
            place_measure(place),
            expr_measure(value),
            1,
        ).under(32),
        StmtKind::Timely {
            place,
            yes,
            no: None,
            ..
        } => place_measure(place)
            .beside(stmt_measure(yes.get(), inside))
            .under(48),
        StmtKind::Timely {
            place,
            yes,
            no: Some(no),
            ..
        } => place_measure(place)
            .beside(stmt_measure(yes.get(), inside).beside(stmt_measure(no.get(), inside)))
            .under(48),
        StmtKind::Expires { names, body, catch } => places_measure(names.as_slice())
            .beside(stmts_measure(body.as_slice(), true).beside(stmts_measure(
                catch.as_slice(),
                inside,
            )))
            .under(row_with(72, 6, names.len())),
        StmtKind::Declare { init, .. } => inits_measure(init.as_slice()).under(inits_row(
            init.as_slice(),
        )),
    }
}

/// The measure of statements side by side.
#[cycle(stmt_measure)]
pub fn stmts_measure(all: &[Stmt], inside: bool) -> Measure
    ensures height { result.height ≡ capped (tallest (map stmt_height all.now)) }
    ensures cost { result.cost ≡ capped_cost (total (map (λ s. stmt_rows each s inside) all.now)) }
    ensures nodes { result.nodes ≡ capped_cost (total (map stmt_nodes all.now)) }
{
    let mut sum = Measure::none();
    for stmt in all {
        sum = sum.beside(stmt_measure(stmt, inside));
    }
    sum
}

/// The measure of the groups of a `switch`, whose labels are nodes.
#[cycle(stmt_measure)]
fn groups_measure(groups: &[Group], inside: bool) -> Measure
    ensures height { result.height ≡ capped (tallest (map group_height groups.now)) }
    ensures cost { result.cost ≡ capped_cost (total (map (λ g. (grouped each g).rows inside) groups.now)) }
    ensures nodes { result.nodes ≡ capped_cost (total (map group_nodes groups.now)) }
{
    let mut sum = Measure::none();
    for group in groups {
        sum = sum.beside(group_measure(group, inside));
    }
    sum
}

/// The measure of a group of a `switch`.
#[cycle(stmt_measure)]
fn group_measure(group: &Group, inside: bool) -> Measure
    ensures height { result.height ≡ capped (group_height group.now) }
    ensures cost { result.cost ≡ capped_cost ((grouped each group.now).rows inside) }
    ensures nodes { result.nodes ≡ capped_cost (group_nodes group.now) }
{
    stmts_measure(group.body.as_slice(), inside).with_nodes(group.labels.len())
}
