ghost use Rattle.std.specs.Prelude.{◌≡◌, map};
ghost use Rattle.core_tree.specs.Costs as costs;
ghost use Rattle.core_tree.specs.Costs.{capped_cost, each};
ghost use Rattle.core_tree.specs.Heights as heights;
ghost use Rattle.core_tree.specs.Heights.{capped};
ghost use Rattle.core_tree.specs.Nodes as spec;

use crate::measure::Measure;
use crate::measure_statements::stmts_measure;
use crate::program::{Core, Function};
use crate::rows::row_with;
use crate::sizes::objects_extent;

/// The height of a function.
fn function_height(function: &Function) -> u32
    ensures { result ≡ capped (heights.height_of function.now) }
{
    stmts_measure(function.body.as_slice(), false).height.max(1)
}

/// How many temporary words a function takes for its expressions: the greatest of their heights, and 1 without any.
/// Every number above 2^32 - 1 is answered as 2^32 - 1, and 0 where there is no such function.
#[tactic(auto, unfolding(crate::specs::Heights::told_height))]
pub fn height_of(core: &Core, function: u16) -> u32
    ensures { result ≡ heights.told_height core.now function }
{
    match core.functions.get(usize::from(function)) {
        None => 0,
        Some(function) => function_height(function),
    }
}

/// The bytes of the frame of a function of a program.
fn function_frame(core: &Core, function: &Function) -> u32
    ensures { result ≡ capped (heights.frame_bytes core.now.structs function.now) }
{
    let objects = objects_extent(core.structs.as_slice(), function).aligned(true);
    let words = function_height(function).saturating_add(2);
    words.saturating_mul(2).saturating_add(objects)
}

/// The bytes of a function's frame: its parameters and locals, a pad byte to an even size, and its temporary words, of
/// which it has two more than its height. Every number above 2^32 - 1 is answered as 2^32 - 1, and 0 where there is no
/// such function.
#[tactic(auto, unfolding(crate::specs::Heights::told_frame))]
pub fn frame_bytes(core: &Core, function: u16) -> u32
    ensures { result ≡ heights.told_frame core.now function }
{
    match core.functions.get(usize::from(function)) {
        None => 0,
        Some(function) => function_frame(core, function),
    }
}

/// The measure of a function, where its parameters are nodes.
fn function_measure(function: &Function) -> Measure
    ensures cost { result.cost ≡ capped_cost (costs.function_rows each function.now) }
    ensures nodes { result.nodes ≡ capped_cost (spec.function_nodes function.now) }
{
    let params = function.params.len();
    stmts_measure(function.body.as_slice(), false)
        .under(row_with(48, 12, params))
        .with_nodes(params)
}

/// The measure of functions side by side.
fn functions_measure(functions: &[Function]) -> Measure
    ensures cost { result.cost ≡ capped_cost (spec.total (map (costs.function_rows each) functions.now)) }
    ensures nodes { result.nodes ≡ capped_cost (spec.total (map spec.function_nodes functions.now)) }
{
    let mut sum = Measure::none();
    for function in functions {
        sum = sum.beside(function_measure(function));
    }
    sum
}

/// The bytes of code that a program takes at most: the sum of what its nodes cost. Every number above 2^64 - 1 is
/// answered as 2^64 - 1.
#[tactic(auto, unfolding(crate::specs::Costs::code_cost))]
pub fn code_cost(core: &Core) -> u64
    ensures { result ≡ capped_cost (costs.code_cost core.now) }
{
    functions_measure(core.functions.as_slice()).cost
}

/// How many nodes a program has: functions, parameters, statements, labels of a `switch` and expressions, where places
/// and conversions count as expressions. Every number above 2^64 - 1 is answered as 2^64 - 1.
#[tactic(auto, unfolding(crate::specs::Nodes::nodes))]
pub fn nodes(core: &Core) -> u64
    ensures { result ≡ capped_cost (spec.nodes core.now) }
{
    functions_measure(core.functions.as_slice()).nodes
}
