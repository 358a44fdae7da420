ghost use Rattle.std.specs.Prelude.{◌≡◌, ◌<◌, ◌≤◌, ◌+◌, ◌-◌, ◌*◌, ◌%◌, ◌&&◌, ℕ, List, ◌∷◌, length, Option, Some, None, true, false, nat_eq, slice_index};
ghost use Rattle.base16.specs.Board.{outputs_start, segment_start, segment_top, first_stack_pointer, code_end};
ghost use Rattle.base16.specs.declared.reading.Reading.{Reading};
ghost use Rattle.base16.specs.declared.reading.Reading.TheVariants as ReadingName;
ghost use Rattle.base16.specs.declared.end.EndKind.TheVariants.{Done, OutputFull, StackFull};
ghost use Rattle.isa430.specs.Table.{WordsAt};
ghost use Rattle.core430.specs.Registers.{set_reg};
ghost use Rattle.core430.specs.Uses.{AreWords};
ghost use Rattle.rt430.specs.declared.words.Helper.{Helper};
ghost use Rattle.rt430.specs.Operators.{value as value_of, HasValue};
ghost use Rattle.rt430.specs.Routines.{Computes, kept_by};
ghost use Rattle.ideal430.specs.Places.{may_store};
ghost use Rattle.ideal430.specs.Service.{is_linked, link_address};
ghost use Rattle.ideal430.specs.At.{sensed_value};
ghost use Rattle.ideal430.specs.Ideal.{Ideal, run};
ghost use Rattle.ideal430.specs.Loaded.{loaded};
ghost use Rattle.ideal430.specs.declared.state.IdealEnd.TheVariants.{Running, Ended, NeedsReading};
ghost use Rattle.cells430.specs.Cells.{Word, Byte, Cells, Shape, HasValues, set_cell, dropped, unlinked};
ghost use Rattle.cells430.specs.Stretch.{outside, Comes, behind, IdealRuns, IsProper, Leads};
ghost use Rattle.cells430.specs.Scenes.{Scene, machine, Stands, AtCall, AtService, Marks, MarksHere, StopsAt, IsBack, HasFrame, frame_end, returned_to, StartsAs};

/// A stretch is a run, each step of which is as it has to be: it goes on, uses settled bytes alone and writes to the
/// working segment alone.
pub fn stretches_are_runs()
    ensures { (n : ℕ) → (t u : Ideal) → IdealRuns n t u → (run n t ≡ u) × IsProper n t }
{}

/// An image of words of 16 bits starts with the code as it was loaded and no outputs, and with any cells of the data that
/// memory has the values of.
pub fn start_by_cells()
    ensures { (code globals : List ℕ) → (readings : List Reading) → (hi : ℕ) → (f : Cells)
        → AreWords (slice_index code) → AreWords (slice_index globals) → hi ≤ code_end
        → Shape 0 first_stack_pointer (λ k. 0) f → HasValues f (loaded code globals)
        → StartsAs (loaded code globals) readings hi f }
{}

/// What each service comes to by cells that makes no frame: a turn, a checkpoint, a word and a byte stored, a sensor's
/// value, an output. A missing reading and a missing place for an output stop the run.
pub fn services_by_cells()
    ensures turn { (x : Scene) → Stands x → AtService x 3 → MarksHere x (behind x.regs) x.cells }
    ensures checkpoint { (x : Scene) → Stands x → AtService x 14 → MarksHere x (behind x.regs) x.cells }
    ensures word { (x : Scene) → (old : Option ℕ) → Stands x → AtService x 4
        → may_store x.segment (x.regs 14) ≡ true → x.cells (x.regs 14) ≡ Some (Word old)
        → MarksHere x (behind x.regs) (set_cell x.cells (x.regs 14) (Word (Some (x.regs 13)))) }
    ensures byte { (x : Scene) → (old : Option ℕ) → Stands x → AtService x 5
        → may_store x.segment (x.regs 14) ≡ true → x.cells (x.regs 14) ≡ Some (Byte old)
        → MarksHere x (behind x.regs) (set_cell x.cells (x.regs 14) (Byte (Some (x.regs 13 % 256)))) }
    ensures sense { (x : Scene) → (value : ℕ) → (rest : List Reading) → Stands x → AtService x 8
        → x.regs 15 < 16 → value < 65536 → x.left ≡ ReadingName.Sense (x.regs 15) value ∷ rest
        → Comes x.code x.lo x.hi (machine x) Running x.segment x.pointers
        (set_reg (behind x.regs) 12 value) (outside (x.marks + 1) rest) x.cells }
    ensures missing { (x : Scene) → Stands x → AtService x 8 → x.regs 15 < 16
        → sensed_value (x.regs 15) x.left ≡ None → StopsAt x 8 NeedsReading }
    ensures output { (x : Scene) → (n : ℕ) → (old : Option ℕ) → Stands x → AtService x 9
        → x.cells outputs_start ≡ Some (Word (Some n)) → n < 256 → x.cells (outputs_start + 2 + 2 * n) ≡ Some (Word old)
        → MarksHere x (behind x.regs)
        (set_cell (set_cell x.cells (outputs_start + 2 + 2 * n) (Word (Some (x.regs 13))))
        outputs_start (Word (Some (n + 1)))) }
    ensures full { (x : Scene) → Stands x → AtService x 9 → x.cells outputs_start ≡ Some (Word (Some 256))
        → StopsAt x 9 (Ended OutputFull) }
{}

/// What the services that make and leave frames come to by cells: in the working segment, in the next one with its link
/// word, and back. No place for a frame, and the end of the outermost main, stop the run.
pub fn frames_by_cells()
    ensures enter { (x : Scene) → Stands x → AtService x 1 → HasFrame x → x.sp < segment_top x.segment
        → segment_start x.segment + x.regs 15 + 4 ≤ x.sp
        → MarksHere x (set_reg (behind x.regs) 1 (x.sp - x.regs 15)) x.cells }
    ensures next { (x : Scene) → Stands x → AtService x 1 → HasFrame x → x.sp < segment_top x.segment
        → x.sp < segment_start x.segment + x.regs 15 + 4 → x.segment < 31
        → Marks x (x.segment + 1) (set_reg x.pointers x.segment x.sp)
        (set_reg (behind x.regs) 1 (link_address x.segment - x.regs 15))
        (set_cell x.cells (link_address x.segment) (Word (Some x.sp))) }
    ensures no_place { (x : Scene) → Stands x → AtService x 1 → HasFrame x → x.sp < segment_top x.segment
        → x.sp < segment_start x.segment + x.regs 15 + 4 → x.segment ≡ 31 → StopsAt x 1 (Ended StackFull) }
    ensures leave { (x : Scene) → (word : ℕ) → Stands x → AtService x 2 → HasFrame x → frame_end x + 2 ≤ segment_top x.segment
        → is_linked x.segment (frame_end x) ≡ false → (nat_eq x.segment 0 && nat_eq (frame_end x) 0x20FE) ≡ false
        → x.cells (frame_end x) ≡ Some (Word (Some word))
        → MarksHere x (returned_to x word (frame_end x)) (dropped x.segment (frame_end x + 2) x.cells) }
    ensures end { (x : Scene) → (word : ℕ) → Stands x → AtService x 2 → HasFrame x → x.segment ≡ 0 → frame_end x ≡ 0x20FE
        → x.cells (frame_end x) ≡ Some (Word (Some word))
        → Comes x.code x.lo x.hi (machine x) (Ended Done) x.segment x.pointers (returned_to x word (frame_end x))
        (outside (x.marks + 1) x.left) (dropped x.segment (frame_end x + 2) x.cells) }
    ensures back { (x : Scene) → (below link word : ℕ) → Stands x → AtService x 2 → HasFrame x → x.segment ≡ below + 1
        → frame_end x + 2 ≡ segment_top x.segment → x.cells (frame_end x) ≡ Some (Word (Some link))
        → segment_start below ≤ link → link < segment_top below → x.cells link ≡ Some (Word (Some word))
        → Marks x below x.pointers (returned_to x word link) (unlinked below (link + 2) x.cells) }
{}

/// A call of a helper routine comes back within 401 instructions, with the operator's value, and leaves all cells.
pub fn routines_by_cells()
    ensures { (which : Helper) → (ws : List ℕ) → Computes which ws → (x : Scene) → (base : ℕ) → Stands x → AtCall x base
        → base % 2 ≡ 0 → x.lo ≤ base → base + 2 * length ws ≤ x.hi → WordsAt x.code base ws → segment_start x.segment + 4 ≤ x.sp
        → HasValue which (x.regs 12) (x.regs 13)
        → Leads 401 (machine x) (IsBack x (value_of which (x.regs 12) (x.regs 13)) (kept_by which)) }
{}
