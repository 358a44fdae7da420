//! Where the objects of a state stand.

ghost use Rattle.std.specs.Prelude.{◌≡◌, ◌+◌, ◌<◌, ◌^◌, ◌++◌, map, slice_get, IfOk, OnOk, IfSome};
ghost use Rattle.std.specs.Option.{option_copied};
ghost use Rattle.std.specs.List.{position};
ghost use Rattle.core_tree.specs.Layout as layout;
ghost use Rattle.core_tree.specs.Heights as heights;
ghost use Rattle.core_tree.specs.Data as placed;
ghost use Rattle.core_layout.specs.Laid.{IsLaid, layout_of};
ghost use Rattle.report_state.specs.Addresses as spec;
ghost use Rattle.report_state.specs.Placed.{IsPlaced};

use base16::board::DATA;
use base16::{NoMemory, Sequence};
use c_values::{Call, Object, State};
use core_layout::{Laid, small_type_laid, structs_laid};
use core_tree::{Core, Function, Global as Variable, Struct, Ty};
use std::alloc::Global;

/// No memory has more bytes.
const MOST_BYTES: u64 = 1 << 40;

/// The bytes before a thing that is put behind so many bytes.
fn aligned(even: bool, bytes: u64) -> u64
    requires { bytes < 2 ^ 50 }
    ensures aligned { result ≡ layout.aligned even bytes }
    ensures low { result < bytes + 2 }
{
    if even { bytes + bytes % 2 } else { bytes }
}

/// The bytes of things side by side.
#[tactic(auto, using(crate::proofs::Rows::size_turn, crate::proofs::Rows::size_is))]
fn row_bytes(row: &[Laid]) -> Result<u64, NoMemory>
    ensures bytes { IfOk result (λ bytes. bytes ≡ (layout.with_members layout.nothing (map layout_of row.now)).size) }
    ensures low { IfOk result (λ bytes. bytes < 2 ^ 41) }
{
    let mut bytes: u64 = 0;
    for next in row {
        if bytes > MOST_BYTES {
            return Err(NoMemory);
        }
        bytes = aligned(next.even, bytes) + u64::from(next.size);
    }
    Ok(bytes)
}

/// Where one of several things side by side begins.
#[tactic(auto, using(crate::proofs::Rows::start_is))]
fn start_of(row: &[Laid], at: usize) -> Result<u64, NoMemory>
    ensures start { IfOk result (λ start. start ≡ layout.start_of (map layout_of row.now) at) }
    ensures low { IfOk result (λ start. start < 2 ^ 42) }
{
    if at >= row.len() {
        return Err(NoMemory);
    }
    let bytes = row_bytes(&row[..at])?;
    Ok(aligned(row[at].even, bytes))
}

/// Adds the layouts of types.
#[tactic(auto, using(crate::proofs::Rows::types_turn, crate::proofs::Rows::more_laid))]
fn push_row(
    alloc: Global,
    structs: &[Struct],
    known: &[Option<Laid>],
    types: &[Ty],
    row: &mut Sequence<Laid>,
) -> Result<(), NoMemory>
    requires { IsLaid known.now structs.now }
    ensures { OnOk result (map layout_of row.new ≡ map layout_of row.old ++ map (layout.layout structs.now) types.now) }
{
    for ty in types {
        row.push(small_type_laid(alloc, structs, known, ty)?)?;
    }
    Ok(())
}

/// The layouts of the parameters and locals of a function.
#[tactic(auto, using(crate::proofs::Rows::objects_are))]
fn objects_row(
    alloc: Global,
    structs: &[Struct],
    known: &[Option<Laid>],
    function: &Function,
) -> Result<Sequence<Laid>, NoMemory>
    requires { IsLaid known.now structs.now }
    ensures { IfOk result (λ row. map layout_of row ≡ heights.object_layouts structs.now function.now) }
{
    let mut row = Sequence::new(alloc);
    push_row(alloc, structs, known, function.params.as_slice(), &mut row)?;
    push_row(alloc, structs, known, function.locals.as_slice(), &mut row)?;
    Ok(row)
}

/// Where a parameter or local of a function stands in the frame.
fn local_offset(
    alloc: Global,
    structs: &[Struct],
    known: &[Option<Laid>],
    function: &Function,
    at: usize,
) -> Result<u64, NoMemory>
    requires { IsLaid known.now structs.now }
    ensures offset { IfOk result (λ offset. offset ≡ heights.local_offset structs.now function.now at) }
    ensures low { IfOk result (λ offset. offset < 2 ^ 42) }
{
    let row = objects_row(alloc, structs, known, function)?;
    start_of(row.as_slice(), at)
}

/// The function of a number.
fn function_of(core: &Core, number: u16) -> Option<&Function>
    ensures { option_copied result ≡ slice_get core.now.functions number }
{
    core.functions.get(usize::from(number))
}

/// The layouts of variables.
#[tactic(auto, using(crate::proofs::Rows::globals_turn, crate::proofs::Rows::more_laid))]
fn globals_row(
    alloc: Global,
    core: &Core,
    known: &[Option<Laid>],
    variables: &[Variable],
) -> Result<Sequence<Laid>, NoMemory>
    requires { IsLaid known.now core.now.structs }
    ensures { IfOk result (λ row. map layout_of row ≡ placed.global_layouts core.now variables.now) }
{
    let structs = core.structs.as_slice();
    let mut row = Sequence::new(alloc);
    for variable in variables {
        row.push(small_type_laid(alloc, structs, known, &variable.ty)?)?;
    }
    Ok(row)
}

/// The place of the object of a number among some.
fn place_of(number: u64, objects: &[Object]) -> Option<usize>
    ensures { result ≡ position (spec.has_number number) objects.now }
{
    objects.iter().position(|object| object.number == number)
}

/// A program, with the layouts of its structs and variables.
#[derive(Drop)]
pub struct Places<'a> {
    pub core: &'a Core,
    pub known: Sequence<Option<Laid>>,
    pub globals: Sequence<Laid>,
}

impl<'a> Places<'a> {
    pub fn new(alloc: Global, core: &'a Core) -> Result<Places<'a>, NoMemory>
        ensures core { IfOk result (λ places. places.core.now ≡ core.now) }
        ensures placed { IfOk result (λ places. IsPlaced places) }
    {
        let known = structs_laid(alloc, core.structs.as_slice())?;
        let globals = globals_row(alloc, core, known.as_slice(), core.globals.as_slice())?;
        Ok(Places {
            core,
            known,
            globals,
        })
    }
}

impl Places<'_> {
    /// The address of a variable.
    #[tactic(auto, unfolding(core_tree::specs::Data::global_address))]
    fn global_address(&self, number: usize) -> Result<u64, NoMemory>
        requires { IsPlaced self.now }
        ensures address { IfOk result (λ at. at ≡ placed.global_address self.now.core.now number) }
        ensures low { IfOk result (λ at. at < 2 ^ 43) }
    {
        let start = start_of(self.globals.as_slice(), number)?;
        Ok(u64::from(DATA) + start)
    }

    /// The address of a parameter or local of a call, by its place among them.
    fn local_address(&self, alloc: Global, call: &Call, at: usize) -> Result<Option<u64>, NoMemory>
        requires { IsPlaced self.now }
        ensures address { IfOk result (λ found. found ≡ spec.local_address self.now.core.now call.now at) }
        ensures low { IfOk result (λ found. IfSome found (λ n. n < 2 ^ 43)) }
    {
        let Some(function) = function_of(self.core, call.function) else {
            return Ok(None);
        };
        let structs = self.core.structs.as_slice();
        let offset = local_offset(alloc, structs, self.known.as_slice(), function, at)?;
        Ok(Some(u64::from(call.frame) + offset))
    }

    /// The address of the object of a number in the frames of calls.
    #[tactic(auto, using(crate::proofs::Rows::frames_turn))]
    fn frame_address(
        &self,
        alloc: Global,
        number: u64,
        calls: &[Call],
    ) -> Result<Option<u64>, NoMemory>
        requires { IsPlaced self.now }
        ensures address { IfOk result (λ found. found ≡ spec.frame_address self.now.core.now number calls.now) }
        ensures low { IfOk result (λ found. IfSome found (λ n. n < 2 ^ 43)) }
    {
        for call in calls {
            if let Some(at) = place_of(number, call.locals.as_slice()) {
                return self.local_address(alloc, call, at);
            }
        }
        Ok(None)
    }

    /// The address where the object of a number begins; none where the object is gone.
    pub fn object_address(
        &self,
        alloc: Global,
        state: &State,
        number: u64,
    ) -> Result<Option<u64>, NoMemory>
        requires { IsPlaced self.now }
        ensures address { IfOk result (λ found. found ≡ spec.object_address self.now.core.now state.now number) }
        ensures low { IfOk result (λ found. IfSome found (λ n. n < 2 ^ 43)) }
    {
        match place_of(number, state.globals.as_slice()) {
            Some(at) => Ok(Some(self.global_address(at)?)),
            None => self.frame_address(alloc, number, state.calls.as_slice()),
        }
    }
}
