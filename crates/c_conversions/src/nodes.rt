ghost use Rattle.std.specs.Prelude.{◌≡◌, IfOk};
ghost use Rattle.c_typing.specs.declared.fault.Stop.TheVariants as stop;
ghost use Rattle.c_typing.specs.Values as spec;

use base16::NoMemory;
use c_typing::{Fault, Rule, Stop};
use core_tree::{Expr, ExprKind, Place, PlaceKind, Ty};
use sqlite_items::Boxed;
use std::alloc::Global;

/// What ends the check of a source that breaks a rule at a line.
pub fn broken(rule: Rule, line: u32) -> Stop
    ensures { result ≡ stop.Broken (record { rule = rule; line = line }) }
{
    Stop::Broken(Fault { rule, line })
}

/// An expression at a line. Nodes are numbered when the whole tree stands.
pub fn typed(alloc: Global, line: u32, ty: Ty, kind: ExprKind) -> Result<Boxed<Expr>, NoMemory>
    ensures { IfOk result (λ made. made ≡ spec.typed line ty kind) }
{
    Ok(Boxed::new(
        alloc,
        Expr {
            kind,
            ty,
            node: 0,
            line,
        },
    )?)
}

/// A place at a line. Nodes are numbered when the whole tree stands.
pub fn placed(alloc: Global, line: u32, ty: Ty, kind: PlaceKind) -> Result<Boxed<Place>, NoMemory>
    ensures { IfOk result (λ made. made ≡ spec.placed line ty kind) }
{
    Ok(Boxed::new(
        alloc,
        Place {
            kind,
            ty,
            node: 0,
            line,
        },
    )?)
}
