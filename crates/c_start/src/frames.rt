//! What calls need to know of their functions, made once for a program.

ghost use Rattle.std.specs.Prelude.{◌≡◌, ◌++◌, map, slice_get, Some, IfOk, OnOk};
ghost use Rattle.core_tree.specs.Layout.{layout};
ghost use Rattle.core_layout.specs.Laid.{IsLaid};
ghost use Rattle.c_meaning.specs.After as whole;
ghost use Rattle.c_start.specs.Frames.{frame_of};

use crate::names::kinds;
use base16::board::MOST_FRAME_BYTES;
use base16::{Kind, NoMemory, Sequence};
use core_layout::{Laid, slots_of, structs_laid};
use core_tree::{Core, Function, Slot, Struct, Ty, frame_bytes};
use std::alloc::Global;

/// Calls name functions by 16 bits.
const MOST_FUNCTIONS: usize = 65_536;

/// What the calls of a function need to know of it.
#[derive(Drop)]
pub struct Frame {
    /// The bytes of its frame; 2^32 - 1 stands for every greater number.
    pub bytes: u32,
    /// The kinds of its parameters.
    pub kinds: Sequence<Kind>,
    /// The scalars of its parameters and locals, where its frame is not too large for any segment.
    pub objects: Sequence<Sequence<Slot>>,
}

/// Adds the scalars of types.
#[tactic(auto, using(crate::proofs::Framing::objects_turn))]
fn push_objects(
    alloc: Global,
    structs: &[Struct],
    known: &[Option<Laid>],
    types: &[Ty],
    objects: &mut Sequence<Sequence<Slot>>,
) -> Result<(), NoMemory>
    requires { IsLaid known.now structs.now }
    ensures { OnOk result (objects.new ≡ objects.old ++ map (λ t. (layout structs.now t).slots) types.now) }
{
    for ty in types {
        objects.push(slots_of(alloc, structs, known, ty)?)?;
    }
    Ok(())
}

/// The objects of a call: its parameters and locals.
#[tactic(auto, using(crate::proofs::Framing::objects_are))]
fn objects_of(
    alloc: Global,
    structs: &[Struct],
    known: &[Option<Laid>],
    function: &Function,
) -> Result<Sequence<Sequence<Slot>>, NoMemory>
    requires { IsLaid known.now structs.now }
    ensures { IfOk result (λ objects. objects ≡ whole.objects_of structs.now function.now) }
{
    let mut objects = Sequence::new(alloc);
    push_objects(
        alloc,
        structs,
        known,
        function.params.as_slice(),
        &mut objects,
    )?;
    push_objects(
        alloc,
        structs,
        known,
        function.locals.as_slice(),
        &mut objects,
    )?;
    Ok(objects)
}

/// What the calls of a function of a program need to know of it.
#[tactic(auto, using(crate::proofs::Framing::told_is, crate::proofs::Framing::small_test, crate::proofs::Framing::large_test))]
fn frame_of(
    alloc: Global,
    core: &Core,
    known: &[Option<Laid>],
    number: u16,
    function: &Function,
) -> Result<Frame, NoMemory>
    requires laid { IsLaid known.now core.now.structs }
    requires there { slice_get core.now.functions number ≡ Some function.now }
    ensures { IfOk result (λ frame. frame ≡ frame_of core.now.structs function.now) }
{
    let bytes = frame_bytes(core, number);
    let kinds = kinds(alloc, function.params.as_slice())?;
    let objects = if bytes > u32::from(MOST_FRAME_BYTES) {
        Sequence::new(alloc)
    } else {
        objects_of(alloc, core.structs.as_slice(), known, function)?
    };
    Ok(Frame {
        bytes,
        kinds,
        objects,
    })
}

/// What calls need to know, for each function of a program.
#[tactic(auto, using(crate::proofs::Framing::frames_turn))]
fn frames_of(
    alloc: Global,
    core: &Core,
    known: &[Option<Laid>],
) -> Result<Sequence<Frame>, NoMemory>
    requires { IsLaid known.now core.now.structs }
    ensures { IfOk result (λ frames. frames ≡ map (frame_of core.now.structs) core.now.functions) }
{
    let functions = core.functions.as_slice();
    let mut frames = Sequence::new(alloc);
    if functions.len() > MOST_FUNCTIONS {
        return Err(NoMemory);
    }
    for at in 0..functions.len() {
        frames.push(frame_of(alloc, core, known, at as u16, &functions[at])?)?;
    }
    Ok(frames)
}

/// A program, with what the calls of each of its functions need to know.
#[derive(Drop)]
pub struct Program<'a> {
    core: &'a Core,
    frames: Sequence<Frame>,
    ghost framed: { frames ≡ map (frame_of core.now.structs) core.now.functions },
}

impl<'a> Program<'a> {
    /// A program, whose functions are looked at once.
    ///
    /// # Errors
    /// `NoMemory` if memory runs out, or if there are more functions than calls can name.
    pub fn new(alloc: Global, core: &'a Core) -> Result<Program<'a>, NoMemory>
        ensures { IfOk result (λ program. program.core.now ≡ core.now) }
    {
        let known = structs_laid(alloc, core.structs.as_slice())?;
        let frames = frames_of(alloc, core, known.as_slice())?;
        Ok(Program { core, frames })
    }
}

impl Program<'_> {
    /// The program.
    pub fn core(&self) -> &Core
        ensures { result.now ≡ self.now.core.now }
    {
        self.core
    }

    /// What the calls of a function need to know of it.
    #[tactic(auto, using(crate::proofs::Framing::framed_within, crate::proofs::Framing::framed_at))]
    pub(crate) fn frame(&self, number: u16, _function: &Function) -> &Frame
        requires { slice_get self.now.core.now.functions number ≡ Some _function.now }
        ensures { result.now ≡ frame_of self.now.core.now.structs _function.now }
    {
        &self.frames.as_slice()[usize::from(number)]
    }
}
