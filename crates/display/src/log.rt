ghost use Rattle.std.specs.Prelude.{◌≡◌, ◌≢◌, ℕ, ◌+◌, ◌%◌, ◌<◌, ◌≤◌};
ghost use Rattle.base16.specs.Memory.{words_of};
ghost use Rattle.board_map.specs.Map.{undo_address};
ghost use Rattle.display.specs.Log.{before, IsEntered, NoneEntered};

use board_map::undo_entry;
use fram::Fram;

/// The word that stood at an even address before the first entries of the undo log were made, so many of them: the old
/// word of the first entry for the address, or the word that stands.
pub fn word_before(fram: &Fram, log: u16, address: u16) -> u16
    requires log { log ≤ 256 }
    requires even { address % 2 ≡ 0 }
    ensures { result ≡ before log (words_of fram.now.words) address }
{
    for index in 0..log {
        let (at, old) = undo_entry(fram, index);
        if at == address {
            return old;
        }
    }
    fram.get(address)
}

/// The least even address from `low` on and below `high` for which there is an entry, or `high` where there is none.
pub fn next_logged(fram: &Fram, log: u16, low: u16, high: u16) -> u16
    requires { log ≤ 256 }
    ensures high { result ≤ high }
    ensures found { result < high → IsEntered log (words_of fram.now.words) low result }
    ensures first { NoneEntered log (words_of fram.now.words) low result }
{
    let mut least = high;
    for index in 0..log {
        let at = undo_entry(fram, index).0;
        if low <= at && at < least && at % 2 == 0 {
            least = at;
        }
    }
    least
}
