ghost use Rattle.std.specs.Prelude.{◌≡◌, ℕ, [], None};
ghost use Rattle.base16.specs.Memory.{words_of};
ghost use Rattle.base16.specs.declared.end.EndKind.TheVariants.{Power};
ghost use Rattle.fram.specs.Contents.{Contents};
ghost use Rattle.ideal430.specs.Agreement.{Agrees};
ghost use Rattle.ideal430.specs.Ideal.{Ideal, run, with_more};
ghost use Rattle.ideal430.specs.Loaded.{start_of};
ghost use Rattle.ideal430.specs.Uses.{IsClean};
ghost use Rattle.player.specs.Form.{IsOver, IsWhole};
ghost use Rattle.player.specs.Playing.{Origin, origin, IsPlayable, IsRunning, Plays, Moment, Starts, kept_in, started, story_in};

/// A board into which an image was loaded can be played, and the machine of that image is one from which a playing of it may
/// begin.
pub fn a_loaded_board_starts()
    ensures playable { (f : Contents) → ((k : ℕ) → (kept_in f).state k ≡ 0) → IsPlayable (kept_in f) }
    ensures starts { (o : Origin) → ((k : ℕ) → (kept_in o.fram).state k ≡ 0)
        → Agrees (start_of (words_of o.fram.words) []) (kept_in o.fram).registers (kept_in o.fram).memory 0 None 0
        → Starts (started (words_of o.fram.words) o.world.period) o }
{}

/// Where a playing ended for want of power or of memory, another one may go on: a machine from which the first began has come
/// to one from which the second may begin, if it used settled bytes alone.
pub fn a_playing_goes_on()
    ensures power { (o : Origin) (a : Moment) (start : Ideal) → Plays o (IsOver Power) IsRunning a → Starts start o
        → IsClean (story_in o a.records).last.instrs (with_more start (story_in o a.records).last.readings)
        → Starts (run (story_in o a.records).last.instrs (with_more start (story_in o a.records).last.readings))
        (origin a.fram a.world a.records o.scalars) }
    ensures memory { (o : Origin) (a : Moment) (start : Ideal) → Plays o IsWhole IsRunning a → Starts start o
        → IsClean (story_in o a.records).last.instrs (with_more start (story_in o a.records).last.readings)
        → Starts (run (story_in o a.records).last.instrs (with_more start (story_in o a.records).last.readings))
        (origin a.fram a.world a.records o.scalars) }
{}
