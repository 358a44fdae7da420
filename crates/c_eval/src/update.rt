//! Updates of scalars by an operator (C99 6.5.16.2, 6.5.2.4).

ghost use Rattle.std.specs.Prelude.{◌≡◌};
ghost use Rattle.c_run.specs.Gives.{Gives};
ghost use Rattle.c_run.specs.Runs.{asked};
ghost use Rattle.c_meaning.specs.Meaning as spec;
ghost use Rattle.c_eval.specs.Updates.{rewritten};

use crate::asked::given;
use crate::pointers::size_pointed;
use base16::{BinaryOp, IntType};
use c_run::{Halt, Run};
use c_values::{Location, Value, numbered, operated, pointer_sum};
use core_tree::{Struct, Ty, int_type_of, kind_of};
use std::alloc::Global;

/// How a scalar is updated: by an operator in a type, or where there is none as a pointer, which is moved by elements.
#[derive(Clone, Copy)]
pub struct Update {
    pub op: BinaryOp,
    pub at: Option<IntType>,
    /// Whether the old value is the answer, and not the one that is stored.
    pub old: bool,
    pub marked: bool,
}

fn is_sub(op: BinaryOp) -> bool
    ensures { result ≡ spec.is_sub op }
{
    match op {
        BinaryOp::Sub => true,
        _ => false,
    }
}

impl Update {
    /// What the operator makes of the old value; a pointer is moved by elements of a size.
    fn made(
        self,
        run: &Run,
        node: u32,
        own: IntType,
        size: u32,
        before: Value,
        by: Value,
    ) -> Result<Value, Halt>
        ensures { Gives (asked node (λ s. spec.updated self.op self.at own size s before by) run.now) result run.now }
    {
        match self.at {
            Some(at) => given(node, operated(self.op, at, own, before, by)),
            None => {
                let by = numbered(own, by);
                let sum = pointer_sum(run.state(), false, is_sub(self.op), size, before, by);
                given(node, sum)
            }
        }
    }

    /// Stores at a place, which has a type, what the operator makes of the value before and of one of another type; the
    /// answer is the value before or the value that is stored.
    pub fn store(
        self,
        alloc: Global,
        run: &mut Run,
        node: u32,
        structs: &[Struct],
        ty: &Ty,
        own: &Ty,
        place: Location,
        before: Value,
        by: Value,
    ) -> Result<Value, Halt>
        ensures { Gives (rewritten structs.now self node ty.now own.now place before by run.old) result run.new }
    {
        let size = size_pointed(structs, ty);
        let after = self.made(run, node, int_type_of(own), size, before, by)?;
        let stored = run.store(alloc, node, place, kind_of(ty), after, self.marked)?;
        Ok(if self.old { before } else { stored })
    }
}
