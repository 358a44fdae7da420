//! The search for the first call of a function that is not defined, through parts one after another.

ghost use Rattle.std.specs.Prelude.{◌≡◌, ℕ, List, Option, map};
ghost use Rattle.c_checking.specs.Calls as spec;

use base16::Name;

/// The one of two that comes first.
pub fn or_later(first: Option<u32>, later: Option<u32>) -> Option<u32>
    ensures { result ≡ spec.or_later first later }
{
    match first {
        Some(line) => Some(line),
        None => later,
    }
}

/// A part of a source in which there may be calls.
pub trait Searched {
    /// The line of the first call in it of a function that has none of these names and that not every source has.
    ghost found: { List (List ℕ) → Self → Option ℕ };

    fn first_in(&self, names: &[Name]) -> Option<u32>
        ensures { result ≡ found names.now self.now };
}

/// The first in parts one after another.
pub fn first_in_all<T: Searched>(names: &[Name], all: &[T]) -> Option<u32>
    ensures { result ≡ spec.first_of (map (T.found names.now) all.now) }
{
    for part in all {
        if let Some(line) = part.first_in(names) {
            return Some(line);
        }
    }
    None
}
