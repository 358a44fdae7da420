ghost use Rattle.std.specs.Prelude.{ℕ, List};
ghost use Rattle.core_tree.specs.declared.types.Struct.{Struct};
ghost use Rattle.core_tree.specs.declared.types.Ty.{Ty};
ghost use Rattle.core_tree.specs.declared.program.Core.{Core};
ghost use Rattle.core_tree.specs.declared.program.Global.{Global};
ghost use Rattle.core_layout.specs.Frames.{PlacedFramesLieApart};
ghost use Rattle.core_layout.specs.Laws.{SizeIsEven, SlotsAligned, SlotsFit, SlotsRise};
ghost use Rattle.core_layout.specs.Variables.{StampsLie, VariableLies};

/// Every scalar of a type ends inside it.
pub fn scalars_fit()
    ensures { (structs : List Struct) → (t : Ty) → SlotsFit structs t }
{}

/// The scalars of a type stand in order, and none overlaps another.
pub fn scalars_rise()
    ensures { (structs : List Struct) → (t : Ty) → SlotsRise structs t }
{}

/// Scalars of two bytes stand at even offsets.
pub fn scalars_are_aligned()
    ensures { (structs : List Struct) → (t : Ty) → SlotsAligned structs t }
{}

/// The size of a type with a scalar of two bytes is even.
pub fn sizes_are_even()
    ensures { (structs : List Struct) → (t : Ty) → SizeIsEven structs t }
{}

/// Each variable stands at its alignment and ends before the next one begins.
pub fn variables_lie_apart()
    ensures { (core : Core) → (n : ℕ) → (g : Global) → VariableLies core n g }
{}

/// The stamps begin behind the variables, at an even address.
pub fn stamps_lie_behind()
    ensures { (core : Core) → StampsLie core }
{}

/// Frames that are placed lie each in one segment of the stack, and none overlaps another.
pub fn frames_lie_apart()
    ensures { (frames : List ℕ) → (addresses : List ℕ) → PlacedFramesLieApart frames addresses }
{}
