//! The meaning of expressions and places (C99 6.5), evaluated from left to right.

ghost use Rattle.std.specs.Prelude.{◌≡◌, ◌<◌, ◌^◌, map};
ghost use Rattle.c_run.specs.Gives.{Gives};
ghost use Rattle.c_run.specs.Runs as runs;
ghost use Rattle.c_meaning.specs.Meaning as spec;
ghost use Rattle.c_meaning.specs.After.{calls as all_calls};
ghost use Rattle.c_eval.specs.Calling.{Calling};

use crate::asked::{at, given, int_of, tested};
use crate::pointers::{
    apart, element_of, in_order, member_offset, moved_pointer, place_at, size_pointed,
};
use crate::update::Update;
use base16::{Reading, Sequence};
use c_run::{Halt, Run};
use c_values::{
    Location, Value, address, all_present, converted, member_at, operated, operated_one, pointed,
};
use core_tree::{
    Core, Expr, ExprKind, Place, PlaceKind, int_type_of, is_pointer, kind_of, size_of,
};
use std::alloc::Global;

/// The body of a call: the program, the readings, how many calls may still be one in the other, and the number of the
/// call's first object.
#[derive(Drop)]
pub struct Body<'a, F> {
    pub alloc: Global,
    pub core: &'a Core,
    pub readings: &'a [Reading],
    pub depth: u64,
    pub first: u64,
    pub call: F,
    ghost low: { first < 2 ^ 63 },
}

impl<
    F: Fn(Global, &Core, &[Reading], u64, u16, Sequence<Value>, &mut Run) -> Result<Value, Halt>,
> Body<'_, F> {
    /// A call, of which each argument has to be there.
    fn call_with(
        &self,
        run: &mut Run,
        node: u32,
        function: u16,
        args: Sequence<Value>,
    ) -> Result<Value, Halt>
        requires { Calling self.now.core.now self.now.readings.now self.now.depth (F.pre self.now.call) (F.post self.now.call) }
        ensures { let core = self.now.core.now in
            let calls = all_calls core self.now.readings.now self.now.depth in
            Gives (spec.passed calls node function args run.old) result run.new }
    {
        if let Err(rule) = all_present(args.as_slice()) {
            return Err(Halt::Broken { rule, node });
        }
        (self.call)(
            self.alloc,
            self.core,
            self.readings,
            self.depth,
            function,
            args,
            run,
        )
    }

    /// What an expression does.
    #[cycle(expr)]
    #[tactic(auto, using(crate::proofs::OneLayer::call_is))]
    pub fn expr(&self, run: &mut Run, expr: &Expr) -> Result<Value, Halt>
        requires { Calling self.now.core.now self.now.readings.now self.now.depth (F.pre self.now.call) (F.post self.now.call) }
        ensures { let core = self.now.core.now in
            let calls = all_calls core self.now.readings.now self.now.depth in
            Gives (spec.expr core.structs self.now.readings.now calls self.now.first expr.now run.old) result run.new }
    {
        let node = expr.node;
        match &expr.kind {
            ExprKind::Constant(value) => Ok(if is_pointer(&expr.ty) {
                Value::Null
            } else {
                Value::Int(*value)
            }),
            ExprKind::Read(place) => {
                let place = self.place(run, place.get())?;
                run.load(node, place, kind_of(&expr.ty))
            }
            ExprKind::Convert(of) => {
                let value = self.expr(run, of.get())?;
                given(node, converted(int_type_of(&expr.ty), value))
            }
            ExprKind::Unary { op, of } => {
                let of = of.get();
                let value = self.expr(run, of)?;
                given(
                    node,
                    operated_one(run.state(), *op, int_type_of(&of.ty), value),
                )
            }
            ExprKind::Binary {
                op,
                at,
                left,
                right,
            } => {
                let right = right.get();
                let a = self.expr(run, left.get())?;
                let b = self.expr(run, right)?;
                given(node, operated(*op, *at, int_type_of(&right.ty), a, b))
            }
            ExprKind::And { left, right } => {
                let left = left.get();
                let right = right.get();
                let a = self.expr(run, left)?;
                if !tested(run, node, int_type_of(&left.ty), a)? {
                    return Ok(Value::Int(0));
                }
                let b = self.expr(run, right)?;
                Ok(int_of(tested(run, node, int_type_of(&right.ty), b)?))
            }
            ExprKind::Or { left, right } => {
                let left = left.get();
                let right = right.get();
                let a = self.expr(run, left)?;
                if tested(run, node, int_type_of(&left.ty), a)? {
                    return Ok(Value::Int(1));
                }
                let b = self.expr(run, right)?;
                Ok(int_of(tested(run, node, int_type_of(&right.ty), b)?))
            }
            ExprKind::Conditional { test, yes, no } => {
                let test = test.get();
                let a = self.expr(run, test)?;
                if tested(run, node, int_type_of(&test.ty), a)? {
                    self.expr(run, yes.get())
                } else {
                    self.expr(run, no.get())
                }
            }
            ExprKind::Assign {
                place,
                value,
                marked,
            } => {
                let place = self.place(run, place.get())?;
                let value = self.expr(run, value.get())?;
                run.store(self.alloc, node, place, kind_of(&expr.ty), value, *marked)
            }
            ExprKind::Call { function, args } => {
                let args = self.args(run, args.as_slice())?;
                self.call_with(run, node, *function, args)
            }
            ExprKind::Sense(channel) => run.sense(self.readings, *channel),
            ExprKind::Emit(of) => {
                let value = self.expr(run, of.get())?;
                run.emit(node, value)
            }
            ExprKind::Checkpoint => {
                run.mark()?;
                Ok(Value::Undefined)
            }
            ExprKind::Comma { left, right } => {
                self.expr(run, left.get())?;
                self.expr(run, right.get())
            }
            ExprKind::PointerPlus { minus, left, right } => {
                let left = left.get();
                let right = right.get();
                let a = self.expr(run, left)?;
                let b = self.expr(run, right)?;
                let size = size_pointed(self.core.structs.as_slice(), &expr.ty);
                moved_pointer(run, node, *minus, size, &left.ty, a, &right.ty, b)
            }
            ExprKind::Difference { left, right } => {
                let left = left.get();
                let a = self.expr(run, left)?;
                let b = self.expr(run, right.get())?;
                let size = size_pointed(self.core.structs.as_slice(), &left.ty);
                apart(run, node, size, a, b)
            }
            ExprKind::ComparePointers { op, left, right } => {
                let a = self.expr(run, left.get())?;
                let b = self.expr(run, right.get())?;
                in_order(run, node, *op, a, b)
            }
            ExprKind::Update {
                op,
                at,
                place,
                value,
                old,
                marked,
            } => {
                let value = value.get();
                let place = self.place(run, place.get())?;
                let before = run.load(node, place, kind_of(&expr.ty))?;
                let by = self.expr(run, value)?;
                let update = Update {
                    op: *op,
                    at: *at,
                    old: *old,
                    marked: *marked,
                };
                let structs = self.core.structs.as_slice();
                update.store(
                    self.alloc, run, node, structs, &expr.ty, &value.ty, place, before, by,
                )
            }
            ExprKind::Address(place) => {
                let place = self.place(run, place.get())?;
                given(node, address(run.state(), place))
            }
        }
    }

    /// What a place is.
    #[cycle(expr)]
    pub fn place(&self, run: &mut Run, place: &Place) -> Result<Location, Halt>
        requires { Calling self.now.core.now self.now.readings.now self.now.depth (F.pre self.now.call) (F.post self.now.call) }
        ensures { let core = self.now.core.now in
            let calls = all_calls core self.now.readings.now self.now.depth in
            Gives (spec.place core.structs self.now.readings.now calls self.now.first place.now run.old) result run.new }
    {
        match &place.kind {
            PlaceKind::Local(local) => Ok(at(self.first + u64::from(*local), 0)),
            PlaceKind::Global(global) => Ok(at(u64::from(*global), 0)),
            PlaceKind::Deref(of) => {
                let value = self.expr(run, of.get())?;
                given(place.node, pointed(value))
            }
            PlaceKind::Member { of, tag, member } => {
                let whole = self.place(run, of.get())?;
                let offset = member_offset(self.core.structs.as_slice(), *tag, *member);
                Ok(member_at(whole, offset))
            }
            PlaceKind::Element { of, index } => {
                let index = index.get();
                let whole = self.place(run, of.get())?;
                let number = self.expr(run, index)?;
                let size = size_of(self.core.structs.as_slice(), &place.ty);
                element_of(run, place.node, size, whole, &index.ty, number)
            }
            PlaceKind::At { left, right } => {
                let left = left.get();
                let right = right.get();
                let a = self.expr(run, left)?;
                let b = self.expr(run, right)?;
                let size = size_of(self.core.structs.as_slice(), &place.ty);
                place_at(run, place.node, size, &left.ty, a, &right.ty, b)
            }
        }
    }

    /// The values of arguments.
    #[cycle(expr)]
    #[tactic(auto, using(crate::proofs::OneLayer::args_turn))]
    fn args(&self, run: &mut Run, args: &[Expr]) -> Result<Sequence<Value>, Halt>
        requires { Calling self.now.core.now self.now.readings.now self.now.depth (F.pre self.now.call) (F.post self.now.call) }
        ensures { let core = self.now.core.now in
            let calls = all_calls core self.now.readings.now self.now.depth in
            Gives (spec.each core.structs self.now.readings.now calls self.now.first args.now run.old) result run.new }
    {
        let mut values = Sequence::new(self.alloc);
        for arg in args {
            values.push(self.expr(run, arg)?)?;
        }
        Ok(values)
    }
}
