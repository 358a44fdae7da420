ghost use Rattle.std.specs.Prelude.{◌≡◌, max};
ghost use Rattle.c_tree.specs.Measure as spec;

use crate::declarations::{Declaration, Declr, Init, Initial};
use crate::expression::Expr;
use crate::extent::{Extent, Measured, extent_of_all};
use crate::measure_expression::{expr_extent, exprs_extent};

/// The extent of an expression that may be left out.
pub fn optional_extent(expr: &Option<Expr>) -> Extent
    ensures nodes { result.nodes ≡ spec.capped (spec.optional (spec.expr_measure spec.sum) expr.now) }
    ensures height { result.height ≡ spec.capped (spec.optional (spec.expr_measure max) expr.now) }
{
    match expr {
        Some(expr) => expr_extent(expr),
        None => Extent::none(),
    }
}

/// The extent of a declarator, which is that of the bounds in it.
impl Measured for Declr {
    ghost measure = { spec.declr_measure };

    fn extent(&self) -> Extent {
        exprs_extent(self.bounds.as_slice())
    }
}

/// The extent of what stands after the `=` of a declarator.
#[cycle(initial_extent)]
fn initial_extent(initial: &Initial) -> Extent
    ensures nodes { result.nodes ≡ spec.capped (spec.initial_measure spec.sum initial.now) }
    ensures height { result.height ≡ spec.capped (spec.initial_measure max initial.now) }
{
    match initial {
        Initial::Assign(expr) => expr_extent(expr),
        Initial::List { items, .. } => initials_extent(items.as_slice()).above(),
    }
}

/// The extent of the items of a brace list.
#[cycle(initial_extent)]
fn initials_extent(all: &[Initial]) -> Extent
    ensures nodes { result.nodes ≡ spec.capped (spec.all spec.sum (spec.initial_measure spec.sum) all.now) }
    ensures height { result.height ≡ spec.capped (spec.all max (spec.initial_measure max) all.now) }
{
    let mut sum = Extent::none();
    for initial in all {
        sum = sum.beside(initial_extent(initial));
    }
    sum
}

/// The extent of a declarator with its initialiser.
impl Measured for Init {
    ghost measure = { spec.init_measure };

    fn extent(&self) -> Extent {
        let initial = match &self.initial {
            Some(initial) => initial_extent(initial),
            None => Extent::none(),
        };
        self.declr.extent().beside(initial).above()
    }
}

/// The extent of a declaration.
pub fn declaration_extent(declaration: &Declaration) -> Extent
    ensures nodes { result.nodes ≡ spec.capped (spec.declaration_measure spec.sum declaration.now) }
    ensures height { result.height ≡ spec.capped (spec.declaration_measure max declaration.now) }
{
    extent_of_all(declaration.inits.as_slice())
}
