//! Arithmetic and comparison of pointers in a run (C99 6.5.6, 6.5.8).

ghost use Rattle.std.specs.Prelude.{◌≡◌, false};
ghost use Rattle.c_meaning.specs.Meaning as spec;
ghost use Rattle.c_run.specs.Gives.{Gives};
ghost use Rattle.c_run.specs.Runs as runs;
ghost use Rattle.c_values.specs.Pointers as pointers;
ghost use Rattle.c_values.specs.Values.{int_value as as_int, numbered as as_number};
ghost use Rattle.core_tree.specs.Layout as layout;
ghost use Rattle.core_tree.specs.Layout.{int_type_of as int_of};

use crate::asked::{given, int_value};
use base16::BinaryOp;
use c_run::{Halt, Run};
use c_values::{Location, Value, compared, difference, element, numbered, pointer_sum, sum_of};
use core_tree::{Struct, Ty, int_type_of, is_pointer, offset_of, size_of, target_of};

/// Whether of a pointer and an integer the integer is the left one, whose type this is.
fn is_swapped(left: &Ty) -> bool
    ensures { result ≡ spec.is_swapped left.now }
{
    !is_pointer(left)
}

/// The sum or difference of a pointer and an integer in either order.
pub fn moved_pointer(
    run: &Run,
    node: u32,
    minus: bool,
    size: u32,
    own: &Ty,
    left: Value,
    other: &Ty,
    right: Value,
) -> Result<Value, Halt>
    ensures { Gives (runs.asked node (λ s. pointers.pointer_to
        (pointers.sum_of s (spec.is_swapped own.now) minus size (as_number (int_of own.now) left) (as_number (int_of other.now) right))) run.now)
        result run.now }
{
    let swapped = is_swapped(own);
    let left = numbered(int_type_of(own), left);
    let right = numbered(int_type_of(other), right);
    given(
        node,
        pointer_sum(run.state(), swapped, minus, size, left, right),
    )
}

/// The place at the sum of a pointer and an integer in either order.
pub fn place_at(
    run: &Run,
    node: u32,
    size: u32,
    own: &Ty,
    left: Value,
    other: &Ty,
    right: Value,
) -> Result<Location, Halt>
    ensures { Gives (runs.asked node (λ s.
        pointers.sum_of s (spec.is_swapped own.now) false size (as_number (int_of own.now) left) (as_number (int_of other.now) right)) run.now)
        result run.now }
{
    let swapped = is_swapped(own);
    let left = numbered(int_type_of(own), left);
    let right = numbered(int_type_of(other), right);
    given(node, sum_of(run.state(), swapped, false, size, left, right))
}

/// An element of the array at a place.
pub fn element_of(
    run: &Run,
    node: u32,
    size: u32,
    whole: Location,
    own: &Ty,
    index: Value,
) -> Result<Location, Halt>
    ensures { Gives (runs.asked node (λ s. pointers.element s size whole (as_number (int_of own.now) index)) run.now) result run.now }
{
    given(
        node,
        element(run.state(), size, whole, numbered(int_type_of(own), index)),
    )
}

/// How many elements lie between two pointers.
pub fn apart(run: &Run, node: u32, size: u32, left: Value, right: Value) -> Result<Value, Halt>
    ensures { Gives (runs.asked node (λ s. as_int (pointers.difference s size left right)) run.now) result run.now }
{
    given(node, int_value(difference(run.state(), size, left, right)))
}

/// Whether two pointers compare so.
pub fn in_order(
    run: &Run,
    node: u32,
    op: BinaryOp,
    left: Value,
    right: Value,
) -> Result<Value, Halt>
    ensures { Gives (runs.asked node (λ s. as_int (pointers.compared s op left right)) run.now) result run.now }
{
    given(node, int_value(compared(run.state(), op, left, right)))
}

/// The size of what a pointer points to, 65,536 standing for all above.
pub fn size_pointed(structs: &[Struct], ty: &Ty) -> u32
    ensures { result ≡ layout.stride structs.now (layout.target_of ty.now) }
{
    size_of(structs, target_of(ty))
}

/// Where a member stands in its struct, 65,536 standing for all above.
#[tactic(auto, using(crate::proofs::Members::member_of_none))]
pub fn member_offset(structs: &[Struct], tag: u16, member: u32) -> u32
    ensures { result ≡ layout.member_stride structs.now tag member }
{
    if usize::from(tag) < structs.len() {
        offset_of(structs, tag, member)
    } else {
        0
    }
}
