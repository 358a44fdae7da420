ghost use Rattle.std.specs.Prelude.{◌≡◌, max};
ghost use Rattle.c_tree.specs.Measure as spec;

use crate::expression::Expr;
use crate::extent::{Extent, Measured, extent_of_all};
use crate::measure_declarations::{declaration_extent, optional_extent};
use crate::measure_expression::{expr_extent, exprs_extent};
use crate::measure_statements::compound_extent;
use crate::unit::{External, Function, Member, Param, Params, Struct, Tree};

/// The extent of members of one base type.
impl Measured for Member {
    ghost measure = { spec.member_measure };

    fn extent(&self) -> Extent {
        extent_of_all(self.declrs.as_slice())
    }
}

/// The extent of a struct.
fn struct_extent(defined: &Struct) -> Extent
    ensures nodes { result.nodes ≡ spec.capped (spec.struct_measure spec.sum defined.now) }
    ensures height { result.height ≡ spec.capped (spec.struct_measure max defined.now) }
{
    extent_of_all(defined.members.as_slice()).above()
}

/// The extent of a parameter, which is that of the bounds in it.
impl Measured for Param {
    ghost measure = { spec.param_measure };

    fn extent(&self) -> Extent {
        let first = match &self.first_bound {
            Some(bound) => optional_extent(bound),
            None => Extent::none(),
        };
        first.beside(exprs_extent(self.bounds.as_slice()))
    }
}

/// The extent of what stands in the parentheses of a function.
fn params_extent(params: &Params) -> Extent
    ensures nodes { result.nodes ≡ spec.capped (spec.params_measure spec.sum params.now) }
    ensures height { result.height ≡ spec.capped (spec.params_measure max params.now) }
{
    match params {
        Params::Void { .. } => Extent::none(),
        Params::List(all) => extent_of_all(all.as_slice()),
    }
}

/// The extent of a function.
fn function_extent(function: &Function) -> Extent
    ensures nodes { result.nodes ≡ spec.capped (spec.function_measure spec.sum function.now) }
    ensures height { result.height ≡ spec.capped (spec.function_measure max function.now) }
{
    let body = match &function.body {
        Some(body) => compound_extent(body),
        None => Extent::none(),
    };
    params_extent(&function.params).beside(body).above()
}

/// The extent of a part of a source outside functions.
impl Measured for External {
    ghost measure = { spec.external_measure };

    fn extent(&self) -> Extent {
        match self {
            External::Struct { defined, inits } => struct_extent(defined).beside(extent_of_all(
                inits.as_slice(),
            )),
            External::Function { function, .. } => function_extent(function),
            External::Declaration { declaration, .. } => declaration_extent(declaration),
        }
    }
}

/// How many nodes a tree has: one for each expression (a parenthesised one counts itself), statement, declarator of a
/// declaration, brace list, struct and function. It is 2^32 - 1 for every greater number.
pub fn nodes(tree: &Tree) -> u32
    ensures { result ≡ spec.capped (spec.nodes tree.now) }
{
    extent_of_all(tree.externals.as_slice()).nodes
}

/// The height of a tree, which is that of its highest node, and 0 without any. The height of a node is 1 above the
/// highest node directly in it, and 1 without any. It is 2^32 - 1 for every greater number.
pub fn height(tree: &Tree) -> u32
    ensures { result ≡ spec.capped (spec.height tree.now) }
{
    extent_of_all(tree.externals.as_slice()).height
}

/// The height of an expression, which is 2^32 - 1 for every greater number.
pub fn expr_height(expr: &Expr) -> u32
    ensures { result ≡ spec.capped (spec.expr_height expr.now) }
{
    expr_extent(expr).height
}
