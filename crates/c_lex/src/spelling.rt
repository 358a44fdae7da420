//! How keywords, annotations and marks are written.
ghost use Rattle.std.specs.Prelude.{◌≡◌};
ghost use Rattle.c_lex.specs.Spelling as spec;

use crate::token::{Keyword, Mark, Note};

/// Every keyword, in the order of C99 6.4.1.
pub const KEYWORDS: [Keyword; 37] = [
    Keyword::Auto,
    Keyword::Break,
    Keyword::Case,
    Keyword::Char,
    Keyword::Const,
    Keyword::Continue,
    Keyword::Default,
    Keyword::Do,
    Keyword::Double,
    Keyword::Else,
    Keyword::Enum,
    Keyword::Extern,
    Keyword::Float,
    Keyword::For,
    Keyword::Goto,
    Keyword::If,
    Keyword::Inline,
    Keyword::Int,
    Keyword::Long,
    Keyword::Register,
    Keyword::Restrict,
    Keyword::Return,
    Keyword::Short,
    Keyword::Signed,
    Keyword::Sizeof,
    Keyword::Static,
    Keyword::Struct,
    Keyword::Switch,
    Keyword::Typedef,
    Keyword::Union,
    Keyword::Unsigned,
    Keyword::Void,
    Keyword::Volatile,
    Keyword::While,
    Keyword::Bool,
    Keyword::Complex,
    Keyword::Imaginary,
];

/// Every annotation.
pub const NOTES: [Note; 4] = [
    Note::ExpiresAfter,
    Note::Expires,
    Note::Timely,
    Note::StampedAssign,
];

/// Every mark.
pub const MARKS: [Mark; 45] = [
    Mark::LeftBrace,
    Mark::RightBrace,
    Mark::LeftParen,
    Mark::RightParen,
    Mark::LeftBracket,
    Mark::RightBracket,
    Mark::Semicolon,
    Mark::Comma,
    Mark::Dot,
    Mark::Arrow,
    Mark::PlusPlus,
    Mark::MinusMinus,
    Mark::Ampersand,
    Mark::Star,
    Mark::Plus,
    Mark::Minus,
    Mark::Tilde,
    Mark::Exclamation,
    Mark::Slash,
    Mark::Percent,
    Mark::ShiftLeft,
    Mark::ShiftRight,
    Mark::Less,
    Mark::Greater,
    Mark::LessEqual,
    Mark::GreaterEqual,
    Mark::EqualEqual,
    Mark::NotEqual,
    Mark::Caret,
    Mark::Bar,
    Mark::AndAnd,
    Mark::OrOr,
    Mark::Question,
    Mark::Colon,
    Mark::Assign,
    Mark::StarAssign,
    Mark::SlashAssign,
    Mark::PercentAssign,
    Mark::PlusAssign,
    Mark::MinusAssign,
    Mark::ShiftLeftAssign,
    Mark::ShiftRightAssign,
    Mark::AmpersandAssign,
    Mark::CaretAssign,
    Mark::BarAssign,
];

impl Keyword {
    /// How the keyword is written.
    pub fn text(self) -> &'static [u8]
        ensures { result.now ≡ spec.keyword_text self }
    {
        match self {
            Keyword::Auto => b"auto".as_slice(),
            Keyword::Break => b"break".as_slice(),
            Keyword::Case => b"case".as_slice(),
            Keyword::Char => b"char".as_slice(),
            Keyword::Const => b"const".as_slice(),
            Keyword::Continue => b"continue".as_slice(),
            Keyword::Default => b"default".as_slice(),
            Keyword::Do => b"do".as_slice(),
            Keyword::Double => b"double".as_slice(),
            Keyword::Else => b"else".as_slice(),
            Keyword::Enum => b"enum".as_slice(),
            Keyword::Extern => b"extern".as_slice(),
            Keyword::Float => b"float".as_slice(),
            Keyword::For => b"for".as_slice(),
            Keyword::Goto => b"goto".as_slice(),
            Keyword::If => b"if".as_slice(),
            Keyword::Inline => b"inline".as_slice(),
            Keyword::Int => b"int".as_slice(),
            Keyword::Long => b"long".as_slice(),
            Keyword::Register => b"register".as_slice(),
            Keyword::Restrict => b"restrict".as_slice(),
            Keyword::Return => b"return".as_slice(),
            Keyword::Short => b"short".as_slice(),
            Keyword::Signed => b"signed".as_slice(),
            Keyword::Sizeof => b"sizeof".as_slice(),
            Keyword::Static => b"static".as_slice(),
            Keyword::Struct => b"struct".as_slice(),
            Keyword::Switch => b"switch".as_slice(),
            Keyword::Typedef => b"typedef".as_slice(),
            Keyword::Union => b"union".as_slice(),
            Keyword::Unsigned => b"unsigned".as_slice(),
            Keyword::Void => b"void".as_slice(),
            Keyword::Volatile => b"volatile".as_slice(),
            Keyword::While => b"while".as_slice(),
            Keyword::Bool => b"_Bool".as_slice(),
            Keyword::Complex => b"_Complex".as_slice(),
            Keyword::Imaginary => b"_Imaginary".as_slice(),
        }
    }
}

impl Note {
    /// How the annotation is written.
    pub fn text(self) -> &'static [u8]
        ensures { result.now ≡ spec.note_text self }
    {
        match self {
            Note::ExpiresAfter => b"@expires_after".as_slice(),
            Note::Expires => b"@expires".as_slice(),
            Note::Timely => b"@timely".as_slice(),
            Note::StampedAssign => b"@=".as_slice(),
        }
    }
}

impl Mark {
    /// How the mark is written.
    pub fn text(self) -> &'static [u8]
        ensures { result.now ≡ spec.mark_text self }
    {
        match self {
            Mark::LeftBrace => b"{".as_slice(),
            Mark::RightBrace => b"}".as_slice(),
            Mark::LeftParen => b"(".as_slice(),
            Mark::RightParen => b")".as_slice(),
            Mark::LeftBracket => b"[".as_slice(),
            Mark::RightBracket => b"]".as_slice(),
            Mark::Semicolon => b";".as_slice(),
            Mark::Comma => b",".as_slice(),
            Mark::Dot => b".".as_slice(),
            Mark::Arrow => b"->".as_slice(),
            Mark::PlusPlus => b"++".as_slice(),
            Mark::MinusMinus => b"--".as_slice(),
            Mark::Ampersand => b"&".as_slice(),
            Mark::Star => b"*".as_slice(),
            Mark::Plus => b"+".as_slice(),
            Mark::Minus => b"-".as_slice(),
            Mark::Tilde => b"~".as_slice(),
            Mark::Exclamation => b"!".as_slice(),
            Mark::Slash => b"/".as_slice(),
            Mark::Percent => b"%".as_slice(),
            Mark::ShiftLeft => b"<<".as_slice(),
            Mark::ShiftRight => b">>".as_slice(),
            Mark::Less => b"<".as_slice(),
            Mark::Greater => b">".as_slice(),
            Mark::LessEqual => b"<=".as_slice(),
            Mark::GreaterEqual => b">=".as_slice(),
            Mark::EqualEqual => b"==".as_slice(),
            Mark::NotEqual => b"!=".as_slice(),
            Mark::Caret => b"^".as_slice(),
            Mark::Bar => b"|".as_slice(),
            Mark::AndAnd => b"&&".as_slice(),
            Mark::OrOr => b"||".as_slice(),
            Mark::Question => b"?".as_slice(),
            Mark::Colon => b":".as_slice(),
            Mark::Assign => b"=".as_slice(),
            Mark::StarAssign => b"*=".as_slice(),
            Mark::SlashAssign => b"/=".as_slice(),
            Mark::PercentAssign => b"%=".as_slice(),
            Mark::PlusAssign => b"+=".as_slice(),
            Mark::MinusAssign => b"-=".as_slice(),
            Mark::ShiftLeftAssign => b"<<=".as_slice(),
            Mark::ShiftRightAssign => b">>=".as_slice(),
            Mark::AmpersandAssign => b"&=".as_slice(),
            Mark::CaretAssign => b"^=".as_slice(),
            Mark::BarAssign => b"|=".as_slice(),
        }
    }
}

/// The keyword that is written so.
#[tactic(auto, unfolding(crate::specs::Spelling::keyword_of))]
pub fn keyword_of(text: &[u8]) -> Option<Keyword>
    ensures { result ≡ spec.keyword_of text.now }
{
    KEYWORDS.iter().copied().find(|x| x.text() == text)
}

/// The annotation that is written so.
#[tactic(auto, unfolding(crate::specs::Spelling::note_of))]
pub fn note_of(text: &[u8]) -> Option<Note>
    ensures { result ≡ spec.note_of text.now }
{
    NOTES.iter().copied().find(|x| x.text() == text)
}

/// The mark that is written so.
#[tactic(auto, unfolding(crate::specs::Spelling::mark_of))]
pub fn mark_of(text: &[u8]) -> Option<Mark>
    ensures { result ≡ spec.mark_of text.now }
{
    MARKS.iter().copied().find(|x| x.text() == text)
}
