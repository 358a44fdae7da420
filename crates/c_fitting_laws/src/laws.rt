ghost use Rattle.std.specs.Prelude.{ℕ};
ghost use Rattle.c_lex.specs.Spelling.{Text};
ghost use Rattle.c_tree.specs.declared.unit.Tree.{Tree};
ghost use Rattle.c_parse_expr.specs.TypeWords.{Tokens};
ghost use Rattle.c_fitting_laws.specs.Spelled.{CallsFit, LexedInRange, SourceFits, SpelledFits, TextFits};

/// A source that fits but for what it calls, and that calls no function that it does not define, fits.
pub fn calls_fit()
    ensures { (tree : Tree) → CallsFit tree }
{}

/// What tokens spell fits but for what it calls, where their numbers and characters are those that a text can have.
pub fn text_fits()
    ensures { (tree : Tree) → (ts : Tokens) → TextFits tree ts }
{}

/// What such tokens spell fits where it calls no function that it does not define.
pub fn spelled_fits()
    ensures { (tree : Tree) → (ts : Tokens) → SpelledFits tree ts }
{}

/// The numbers of the tokens of a text are at most 65,535 and its characters are bytes.
pub fn lexed_in_range()
    ensures { (source : Text) → (at : ℕ) → (ts : Tokens) → LexedInRange source at ts }
{}

/// The tree of a text fits where it calls no function that it does not define.
pub fn source_fits()
    ensures { (source : Text) → (tree : Tree) → (ts : Tokens) → SourceFits source tree ts }
{}
