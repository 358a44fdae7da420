ghost use Rattle.std.specs.Prelude.{◌≡◌, ◌<◌, [], length, slice_index_or, Some, None, MatchOption, not, ◌==◌};
ghost use Rattle.tics_call.specs.Command as spec;

/// What the first word asks for.
#[derive(Clone, Copy, Debug, PartialEq, Eq)]
pub enum Verb {
    /// `run`
    Run,
    /// `meaning`
    Meaning,
}

/// Whether a word may name a file: it is not empty and does not begin with `-`.
fn is_file_name(word: &str) -> bool
    ensures { result ≡ spec.is_file_name word.now }
{
    match word.as_bytes().first() {
        None => false,
        Some(byte) => *byte != b'-',
    }
}

/// Whether two words may name files.
fn are_file_names(first: &str, second: &str) -> bool
    ensures { result ≡ spec.are_file_names first.now second.now }
{
    is_file_name(first) && is_file_name(second)
}

/// A word by its place.
fn word_at(words: &[String], place: usize) -> &str
    requires { place < length words.now }
    ensures { result.now ≡ slice_index_or (spec.texts words.now) place [] }
{
    words[place].as_str()
}

/// What a word asks for.
fn verb_of(word: &str) -> Option<Verb>
    ensures { result ≡ spec.verb_of word.now }
{
    if word == "run" {
        Some(Verb::Run)
    } else if word == "meaning" {
        Some(Verb::Meaning)
    } else {
        None
    }
}

/// What the words ask for, with the names of two files: `run SOURCE TRACE` or `meaning SOURCE READINGS`.
#[tactic(auto, using(crate::proofs::CommandLaws::command_short, crate::proofs::CommandLaws::command_unknown, crate::proofs::CommandLaws::command_by))]
pub fn command(words: &[String]) -> Option<(Verb, &str, &str)>
    ensures { MatchOption result
        (spec.command_of (spec.texts words.now) ≡ None)
        (λ c. spec.command_of (spec.texts words.now) ≡ Some (spec.ordered c.0 (c.1.now, c.2.now))) }
{
    if words.len() != 3 {
        return None;
    }
    let Some(verb) = verb_of(word_at(words, 0)) else {
        return None;
    };
    let first = word_at(words, 1);
    let second = word_at(words, 2);
    if !are_file_names(first, second) {
        return None;
    }
    Some((verb, first, second))
}
