ghost use Rattle.std.specs.Prelude.{ℕ, List};
ghost use Rattle.base16.specs.declared.reading.Reading.{Reading};
ghost use Rattle.base16.specs.declared.image.Kind.{Kind};
ghost use Rattle.c_values.specs.declared.state.Saved.{Saved};
ghost use Rattle.c_values.specs.declared.state.State.{State};
ghost use Rattle.c_values.specs.declared.value.Value.{Value};
ghost use Rattle.cells430.specs.Cells.{Cells};
ghost use Rattle.core_tree.specs.declared.program.Core.{Core};
ghost use Rattle.ideal430.specs.Ideal.{Ideal, Meter};
ghost use Rattle.core_tree.specs.declared.program.Function.{Function};
ghost use Rattle.matching.specs.Laws.{AccessedStandsAlone, CellsMatch, ClearedIsCovered, ClearedIsMade, ElsewhereIsCovered, EnteredIsCovered, EnteredIsMade, LaterIsMade, LeftIsCovered, LeftIsMade, LocalsLieInFrames, MarkIsMatched, MatchesAlong, OutputSetsCells, SharesNoByte, StampSetsCells, StartIsMade, StoreKeepsCovered, StoreSetsCell, StoredIsMade, VariablesLieInData, WordsAreAligned};
ghost use Rattle.matching.specs.Spacing.{ObjectsLieWhole};

use core_layout::{
    frames_lie_apart, scalars_are_aligned, scalars_fit, scalars_rise, sizes_are_even,
    stamps_lie_behind,
};

/// Where the words of the machine match a state by settled bytes alone, so does every memory that goes along with the machine.
pub fn settled_bytes_match()
    ensures { (core : Core) → (s : State) → (t : Ideal) → MatchesAlong core s t }
{}

/// Where an image simulates a program, every memory that goes along with its machine just behind a mark matches the state of the
/// C run there.
pub fn a_mark_is_matched()
    ensures { (core : Core) → (code globals : List ℕ) → (readings : List Reading) → (meter : Meter) → (s : ℕ) → (c : State)
        → (n : ℕ) → MarkIsMatched core code globals readings meter s c n }
{}

/// Where each scalar, stamp and output of a state has its cell, and the cells stand, the words match the state, by settled
/// bytes.
pub fn cells_match()
    ensures { (core : Core) → (s : Saved) → (f : Cells) → CellsMatch core s f }
{}

/// A store to one scalar, of any object and through any pointer, is one cell set.
pub fn a_store_sets_one_cell()
    ensures { (core : Core) → (s : State) → (f : Cells) → (n address offset : ℕ) → (v : Value) → (k : Kind)
        → StoreSetsCell core s f n address offset v k }
{}

/// No two objects of a state that a run makes share a byte.
pub fn objects_share_no_byte()
    ensures { (core : Core) → (next : ℕ) → (s : Saved) → SharesNoByte core next s }
{
    scalars_fit();
    scalars_rise();
    frames_lie_apart();
}

/// The variables lie in the data before the stamps, and the objects of a call in its frame.
pub fn objects_lie_in_their_parts()
    ensures variables { (core : Core) → (next : ℕ) → (s : Saved) → VariablesLieInData core next s }
    ensures locals { (core : Core) → (next : ℕ) → (s : Saved) → LocalsLieInFrames core next s }
{
    scalars_fit();
    scalars_rise();
    stamps_lie_behind();
}

/// Where the stamps begin in the data, objects lie whole in the stack or in the data, and no two share a byte, not even a pad
/// byte.
pub fn objects_lie_whole()
    ensures { (core : Core) → (next : ℕ) → (s : Saved) → ObjectsLieWhole core next s }
{
    scalars_fit();
    sizes_are_even();
    frames_lie_apart();
    stamps_lie_behind();
}

/// A scalar of two bytes stands at an even address.
pub fn words_are_aligned()
    ensures { (core : Core) → (next : ℕ) → (s : Saved) → WordsAreAligned core next s }
{
    scalars_are_aligned();
}

/// A scalar that is accessed stands at the address of its object, and no other scalar stands there.
pub fn an_accessed_scalar_stands_alone()
    ensures { (core : Core) → (next : ℕ) → (s : State) → (n offset : ℕ) → (k : Kind) → (v : Value)
        → AccessedStandsAlone core next s n offset k v }
{
    objects_share_no_byte();
}

/// A store to a scalar that is accessed, through whatever pointer, is one cell set, and keeps the whole state covered.
pub fn a_store_keeps_all_covered()
    ensures { (core : Core) → (next : ℕ) → (s : State) → (f : Cells) → (n offset : ℕ) → (k : Kind) → (old v : Value)
        → StoreKeepsCovered core next s f n offset k old v }
{
    scalars_fit();
    scalars_rise();
    frames_lie_apart();
    stamps_lie_behind();
}

/// A stamp that is set and an output that is appended are two cells set each, and keep the whole state covered.
pub fn stamps_and_outputs_set_two_cells()
    ensures stamp { (core : Core) → (next : ℕ) → (s : State) → (f : Cells) → (n now : ℕ) → StampSetsCells core next s f n now }
    ensures output { (core : Core) → (next : ℕ) → (s : State) → (f : Cells) → (w : ℕ) → OutputSetsCells core next s f w }
{
    scalars_fit();
    scalars_rise();
    frames_lie_apart();
    stamps_lie_behind();
}

/// At the start, and after a store, a declaration, a call and its end, the objects of a run are as a run makes them.
pub fn runs_keep_objects_made()
    ensures start { (core : Core) → StartIsMade core }
    ensures store { (core : Core) → (next : ℕ) → (s : State) → (n offset : ℕ) → (v : Value)
        → StoredIsMade core next s n offset v }
    ensures declaration { (core : Core) → (next : ℕ) → (s : State) → (n : ℕ) → ClearedIsMade core next s n }
    ensures call { (core : Core) → (next : ℕ) → (s : State) → (function frame : ℕ) → (f : Function)
        → EnteredIsMade core next s function frame f }
    ensures end { (core : Core) → (next : ℕ) → (s : State) → LeftIsMade core next s }
    ensures later { (core : Core) → (next later : ℕ) → (s : Saved) → LaterIsMade core next later s }
{}

/// What has its cells keeps them: after a declaration, a call and its end, and where other cells are changed.
pub fn cells_stay_covering()
    ensures declaration { (core : Core) → (s : State) → (f : Cells) → (n : ℕ) → ClearedIsCovered core s f n }
    ensures call { (core : Core) → (next : ℕ) → (s : State) → (function frame : ℕ) → (f : Function) → (cells : Cells)
        → EnteredIsCovered core next s function frame f cells }
    ensures end { (core : Core) → (s : State) → (f : Cells) → LeftIsCovered core s f }
    ensures elsewhere { (core : Core) → (s : State) → (f g : Cells) → ElsewhereIsCovered core s f g }
{}
