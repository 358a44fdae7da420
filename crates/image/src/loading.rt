ghost use Rattle.std.specs.Prelude.{◌≡◌, ◌+◌, ◌*◌, ◌%◌, ◌≤◌, ℕ, None, List, length};
ghost use Rattle.base16.specs.Memory.{words_of};
ghost use Rattle.base16.specs.declared.reading.Reading.{Reading};
ghost use Rattle.board_map.specs.Recovered.{recovered};
ghost use Rattle.ideal430.specs.Agreement.{Agrees};
ghost use Rattle.ideal430.specs.Loaded.{IsLoadable, loaded, start_of};
ghost use Rattle.ideal430.specs.Shown.{filled};
ghost use Rattle.image.specs.Start.{IsStart};

use base16::Image;
use base16::board::{CODE, DATA, FIRST_STACK_POINTER};
use board_map::{LAYOUT, MAGIC, MAGIC_WORD, REGISTERS_AT, SLOTS};
use fram::Fram;

/// How many words the memory has.
const WORDS: u16 = 32768;

/// Sets each word to 0.
fn clear(fram: &mut Fram)
    ensures { (a : ℕ) → words_of fram.new.words a ≡ 0 }
{
    for index in 0..WORDS {
        fram.poke(2 * index, 0);
    }
}

/// Sets the words from an even byte address on.
fn fill(fram: &mut Fram, start: u16, words: &[u16])
    requires even { start % 2 ≡ 0 }
    requires fits { start + 2 * length words.now ≤ 65536 }
    ensures { words_of fram.new.words ≡ filled start words.now (length words.now) (words_of fram.old.words) }
{
    for (i, word) in words.iter().enumerate() {
        fram.poke(start + 2 * i as u16, *word);
    }
}

/// Sets all words of the memory, whatever stood there: those of the image, and what the board needs for its start. Then
/// the memory recovers to the start of the image's run, with no entry in the undo log. It costs no tick.
pub fn load(fram: &mut Fram, image: &Image)
    requires { IsLoadable image.now.code image.now.globals }
    ensures words { words_of fram.new.words ≡ loaded image.now.code image.now.globals }
    ensures start { IsStart (words_of fram.new.words) }
    ensures fits { (readings : List Reading) → Agrees (start_of (words_of fram.new.words) readings)
        (recovered (words_of fram.new.words)).registers (recovered (words_of fram.new.words)).memory 0 None 0 }
{
    clear(fram);
    fill(fram, MAGIC, &[MAGIC_WORD, LAYOUT]);
    fill(fram, SLOTS + 2 * REGISTERS_AT, &[CODE, FIRST_STACK_POINTER]);
    fill(fram, DATA, image.globals.as_slice());
    fill(fram, CODE, image.code.as_slice());
}
