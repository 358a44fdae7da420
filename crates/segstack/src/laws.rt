ghost use Rattle.std.specs.Prelude.{◌≡◌, ℕ, ◌+◌, true, List, [], ◌∷◌, ◌++◌, All, Some};
ghost use Rattle.base16.specs.Board.{first_stack_pointer};
ghost use Rattle.base16.specs.Placement.{frame_below, place, or_else_none};
ghost use Rattle.ideal430.specs.Service.{Block, is_frame, deed_at};
ghost use Rattle.segstack.specs.Frames.{IsCaller, IsLinked, working, entered, left, youngest};

/// A function was called where SP stands at its caller's frame, and calls `enter` first: the frame goes where the placement
/// says, and there is no place for it exactly where the placement has none. It is never refused otherwise.
pub fn enter_makes_the_frame_that_is_placed()
    ensures { (value : ℕ) → (r m : ℕ → ℕ) → (block : Block) → IsCaller (r 1 + 4) → is_frame (r 15) ≡ true
        → deed_at 1 value r m (working (r 1 + 4)) block ≡ entered r m (frame_below (r 1 + 4) (r 15)) }
{}

/// A function whose frame was placed calls `leave` with the bytes of its frame, and the link word behind the frame still
/// stands, if it has one: SP and the working segment are those of the caller, and the program goes on there. It is never
/// refused.
pub fn leave_takes_back_the_frame_that_is_placed()
    ensures { (value : ℕ) → (r m : ℕ → ℕ) → (block : Block) → (sp : ℕ) → IsCaller sp → is_frame (r 15) ≡ true
        → frame_below sp (r 15) ≡ Some (r 1 + 2) → IsLinked m sp (r 1 + 2) (r 15)
        → deed_at 2 value r m (working (r 1 + 2)) block ≡ left r m sp }
{}

/// SP at the youngest of placed frames is that of a function that calls, and one frame more is placed below it: so calls,
/// each with its `enter`, make the frames of the placement, oldest first.
pub fn frames_are_placed_one_by_one()
    ensures first { IsCaller first_stack_pointer }
    ensures next { (frames addresses : List ℕ) → All (λ bytes. is_frame bytes ≡ true) frames
        → place frames ≡ Some addresses → IsCaller (youngest first_stack_pointer addresses) }
    ensures more { (frames addresses : List ℕ) → (bytes : ℕ) → place frames ≡ Some addresses
        → place (frames ++ bytes ∷ [])
        ≡ or_else_none (frame_below (youngest first_stack_pointer addresses) bytes) (λ at. Some (addresses ++ at ∷ [])) }
{}
