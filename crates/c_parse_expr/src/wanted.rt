ghost use Rattle.std.specs.Prelude.{◌≡◌};
ghost use Rattle.c_parse_expr.specs.Expected as spec;

use c_lex::{Keyword, Mark, Note, TokenKind};

/// A token that the grammar names.
#[derive(Clone, Copy)]
pub enum Wanted {
    Mark(Mark),
    Keyword(Keyword),
    Note(Note),
}

/// Whether a token is the one that is wanted.
#[tactic(auto, unfolding(crate::specs::Expected::same_mark, crate::specs::Expected::same_keyword, crate::specs::Expected::same_note))]
pub fn fits(wanted: Wanted, kind: &TokenKind) -> bool
    ensures { result ≡ spec.fits wanted kind.now }
{
    match (wanted, kind) {
        (Wanted::Mark(wanted), TokenKind::Mark(found)) => *found == wanted,
        (Wanted::Keyword(wanted), TokenKind::Keyword(found)) => *found == wanted,
        (Wanted::Note(wanted), TokenKind::Note(found)) => *found == wanted,
        _ => false,
    }
}
