//! The lines of nodes.

ghost use Rattle.std.specs.Prelude.{◌≡◌, ◌++◌, map, IfOk, OnOk};
ghost use Rattle.report_state.specs.NodeLines as spec;

use base16::{NoMemory, Sequence};
use core_tree::{Core, Expr, ExprKind, Function, Group, Init, Place, PlaceKind, Stmt, StmtKind};
use std::alloc::Global;

/// A node and its line.
#[derive(Clone, Copy)]
pub struct Node {
    pub node: u32,
    pub line: u32,
}

/// Adds the nodes of an expression.
#[cycle(expr_nodes)]
fn push_expr(nodes: &mut Sequence<Node>, expr: &Expr) -> Result<(), NoMemory>
    ensures { OnOk result (nodes.new ≡ nodes.old ++ spec.expr_nodes expr.now) }
{
    nodes.push(Node {
        node: expr.node,
        line: expr.line,
    })?;
    match &expr.kind {
        ExprKind::Constant(_) | ExprKind::Sense(_) | ExprKind::Checkpoint => Ok(()),
        ExprKind::Read(place) | ExprKind::Address(place) => push_place(nodes, place.get()),
        ExprKind::Convert(of) | ExprKind::Unary { of, .. } | ExprKind::Emit(of) => {
            push_expr(nodes, of.get())
        }
        ExprKind::Binary { left, right, .. }
        | ExprKind::PointerPlus { left, right, .. }
        | ExprKind::Difference { left, right }
        | ExprKind::ComparePointers { left, right, .. }
        | ExprKind::And { left, right }
        | ExprKind::Or { left, right }
        | ExprKind::Comma { left, right } => {
            push_expr(nodes, left.get())?;
            push_expr(nodes, right.get())
        }
        ExprKind::Conditional { test, yes, no } => {
            push_expr(nodes, test.get())?;
            push_expr(nodes, yes.get())?;
            push_expr(nodes, no.get())
        }
        ExprKind::Assign { place, value, .. } | ExprKind::Update { place, value, .. } => {
            push_place(nodes, place.get())?;
            push_expr(nodes, value.get())
        }
        ExprKind::Call { args, .. } => push_args(nodes, args.as_slice()),
    }
}

/// Adds the nodes of a place.
#[cycle(expr_nodes)]
fn push_place(nodes: &mut Sequence<Node>, place: &Place) -> Result<(), NoMemory>
    ensures { OnOk result (nodes.new ≡ nodes.old ++ spec.place_nodes place.now) }
{
    nodes.push(Node {
        node: place.node,
        line: place.line,
    })?;
    match &place.kind {
        PlaceKind::Local(_) | PlaceKind::Global(_) => Ok(()),
        PlaceKind::Deref(of) => push_expr(nodes, of.get()),
        PlaceKind::Member { of, .. } => push_place(nodes, of.get()),
        PlaceKind::Element { of, index } => {
            push_place(nodes, of.get())?;
            push_expr(nodes, index.get())
        }
        PlaceKind::At { left, right } => {
            push_expr(nodes, left.get())?;
            push_expr(nodes, right.get())
        }
    }
}

/// Adds the nodes of arguments.
#[cycle(expr_nodes)]
#[tactic(auto, using(crate::proofs::Lines::exprs_turn))]
fn push_args(nodes: &mut Sequence<Node>, args: &[Expr]) -> Result<(), NoMemory>
    ensures { OnOk result (nodes.new ≡ nodes.old ++ spec.joined (map spec.expr_nodes args.now)) }
{
    for arg in args {
        push_expr(nodes, arg)?;
    }
    Ok(())
}

/// Adds the nodes of an expression that may be left out.
fn push_optional(nodes: &mut Sequence<Node>, expr: &Option<Expr>) -> Result<(), NoMemory>
    ensures { OnOk result (nodes.new ≡ nodes.old ++ spec.optional spec.expr_nodes expr.now) }
{
    match expr {
        None => Ok(()),
        Some(expr) => push_expr(nodes, expr),
    }
}

/// Adds the nodes of places.
#[tactic(auto, using(crate::proofs::Lines::places_turn))]
fn push_places(nodes: &mut Sequence<Node>, places: &[Place]) -> Result<(), NoMemory>
    ensures { OnOk result (nodes.new ≡ nodes.old ++ spec.joined (map spec.place_nodes places.now)) }
{
    for place in places {
        push_place(nodes, place)?;
    }
    Ok(())
}

/// Adds the nodes of initialisers.
#[tactic(auto, using(crate::proofs::Lines::inits_turn))]
fn push_inits(nodes: &mut Sequence<Node>, inits: &[Init]) -> Result<(), NoMemory>
    ensures { OnOk result (nodes.new ≡ nodes.old ++ spec.joined (map spec.init_nodes inits.now)) }
{
    for init in inits {
        push_optional(nodes, &init.value)?;
    }
    Ok(())
}

/// Adds the nodes of a statement.
#[cycle(stmt_nodes)]
fn push_stmt(nodes: &mut Sequence<Node>, stmt: &Stmt) -> Result<(), NoMemory>
    ensures { OnOk result (nodes.new ≡ nodes.old ++ spec.stmt_nodes stmt.now) }
{
    nodes.push(Node {
        node: stmt.node,
        line: stmt.line,
    })?;
    match &stmt.kind {
        StmtKind::Expr(expr) => push_expr(nodes, expr),
        StmtKind::Block(all) => push_stmts(nodes, all.as_slice()),
        StmtKind::If {
            test,
            yes,
            no: None,
        } => {
            push_expr(nodes, test)?;
            push_stmt(nodes, yes.get())
        }
        StmtKind::If {
            test,
            yes,
            no: Some(no),
        } => {
            push_expr(nodes, test)?;
            push_stmt(nodes, yes.get())?;
            push_stmt(nodes, no.get())
        }
        StmtKind::While { test, body } => {
            push_expr(nodes, test)?;
            push_stmt(nodes, body.get())
        }
        StmtKind::Do { body, test } => {
            push_stmt(nodes, body.get())?;
            push_expr(nodes, test)
        }
        StmtKind::For {
            first: None,
            test,
            step,
            body,
        } => {
            push_optional(nodes, test)?;
            push_optional(nodes, step)?;
            push_stmt(nodes, body.get())
        }
        StmtKind::For {
            first: Some(first),
            test,
            step,
            body,
        } => {
            push_stmt(nodes, first.get())?;
            push_optional(nodes, test)?;
            push_optional(nodes, step)?;
            push_stmt(nodes, body.get())
        }
        StmtKind::Switch { on, groups } => {
            push_expr(nodes, on)?;
            push_groups(nodes, groups.as_slice())
        }
        StmtKind::Break | StmtKind::Continue => Ok(()),
        StmtKind::Return(value) => push_optional(nodes, value),
        StmtKind::Stamped { place, value } => {
            push_place(nodes, place)?;
            push_expr(nodes, value)
        }
        StmtKind::Timely {
            place,
            yes,
            no: None,
            ..
        } => {
            push_place(nodes, place)?;
            push_stmt(nodes, yes.get())
        }
        StmtKind::Timely {
            place,
            yes,
            no: Some(no),
            ..
        } => {
            push_place(nodes, place)?;
            push_stmt(nodes, yes.get())?;
            push_stmt(nodes, no.get())
        }
        StmtKind::Expires { names, body, catch } => {
            push_places(nodes, names.as_slice())?;
            push_stmts(nodes, body.as_slice())?;
            push_stmts(nodes, catch.as_slice())
        }
        StmtKind::Declare { init, .. } => push_inits(nodes, init.as_slice()),
    }
}

/// Adds the nodes of statements.
#[cycle(stmt_nodes)]
#[tactic(auto, using(crate::proofs::Lines::stmts_turn))]
fn push_stmts(nodes: &mut Sequence<Node>, all: &[Stmt]) -> Result<(), NoMemory>
    ensures { OnOk result (nodes.new ≡ nodes.old ++ spec.joined (map spec.stmt_nodes all.now)) }
{
    for stmt in all {
        push_stmt(nodes, stmt)?;
    }
    Ok(())
}

/// Adds the nodes of the groups of a `switch`.
#[cycle(stmt_nodes)]
#[tactic(auto, using(crate::proofs::Lines::groups_turn))]
fn push_groups(nodes: &mut Sequence<Node>, groups: &[Group]) -> Result<(), NoMemory>
    ensures { OnOk result (nodes.new ≡ nodes.old ++ spec.joined (map spec.group_nodes groups.now)) }
{
    for group in groups {
        push_group(nodes, group)?;
    }
    Ok(())
}

/// Adds the nodes of a group of a `switch`.
#[cycle(stmt_nodes)]
fn push_group(nodes: &mut Sequence<Node>, group: &Group) -> Result<(), NoMemory>
    ensures { OnOk result (nodes.new ≡ nodes.old ++ spec.group_nodes group.now) }
{
    push_stmts(nodes, group.body.as_slice())
}

/// Adds the nodes of a function.
fn push_function(nodes: &mut Sequence<Node>, function: &Function) -> Result<(), NoMemory>
    ensures { OnOk result (nodes.new ≡ nodes.old ++ spec.function_nodes function.now) }
{
    nodes.push(Node {
        node: function.node,
        line: function.line,
    })?;
    push_stmts(nodes, function.body.as_slice())
}

/// The nodes of a program.
#[tactic(auto, using(crate::proofs::Lines::functions_turn))]
fn core_nodes(alloc: Global, core: &Core) -> Result<Sequence<Node>, NoMemory>
    ensures { IfOk result (λ nodes. nodes ≡ spec.core_nodes core.now) }
{
    let mut nodes = Sequence::new(alloc);
    for function in core.functions.as_slice() {
        push_function(&mut nodes, function)?;
    }
    Ok(nodes)
}

/// The line of a node among some, 0 where it is not there.
fn line_in(nodes: &[Node], number: u32) -> u32
    ensures { result ≡ spec.line_or_none (spec.line_in number nodes.now) }
{
    for node in nodes {
        if node.node == number {
            return node.line;
        }
    }
    0
}

/// The line of the expression, place, statement or function of a program that has this node number; 0 where none has.
#[tactic(auto, unfolding(crate::specs::NodeLines::line_of))]
pub fn line_of(alloc: Global, core: &Core, node: u32) -> Result<u32, NoMemory>
    ensures { IfOk result (λ line. line ≡ spec.line_of core.now node) }
{
    let nodes = core_nodes(alloc, core)?;
    Ok(line_in(nodes.as_slice(), node))
}
