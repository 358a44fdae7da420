ghost use Rattle.std.specs.Prelude.{◌<◌, ◌^◌, length};

use c_lex::{
    LexErr, TokenKind, each_source_is_read_in_one_way, each_spelling_is_read, lex, line_at,
    line_of_token,
};
use std::alloc::Global;
use std::process::Abort;
use std::test::Fail;

/// A name as its text, another kind as `Debug` shows it.
fn shown_kind(alloc: Global, kind: &TokenKind) -> Result<String, Fail> {
    Ok(match kind {
        TokenKind::Word(name) => match std::str::from_utf8(name.bytes()) {
            Ok(text) => String::from_str(alloc, text)?,
            Err(_) => String::from_str(alloc, "no text")?,
        },
        TokenKind::Keyword(keyword) => format!(in alloc; "{keyword:?}")?,
        TokenKind::Number {
            value,
            decimal,
            unsigned,
        } => format!(in alloc; "{value} {decimal} {unsigned}")?,
        TokenKind::Char(value) => format!(in alloc; "char {value}")?,
        TokenKind::Note(note) => format!(in alloc; "{note:?}")?,
        TokenKind::Mark(mark) => format!(in alloc; "{mark:?}")?,
    })
}

/// The kinds of a source's tokens, with a comma behind each, or the refusal.
fn shown(alloc: Global, source: &[u8]) -> Result<String, Fail>
    requires { length source.now < 2 ^ 32 }
{
    match lex(alloc, source) {
        Ok(tokens) => {
            let mut text = String::new(alloc);
            for token in &tokens {
                let kind = shown_kind(alloc, &token.kind)?;
                text.push_str(kind.as_str())?;
                text.push_str(",")?;
            }
            Ok(text)
        }
        Err(fault) => Ok(format!(in alloc; "{fault:?}")?),
    }
}

/// Each source of a table is shown so.
fn are_shown(rt: &impl Abort, alloc: Global, table: &[(&str, &str)]) -> Result<(), Fail> {
    for (source, wanted) in table {
        assert!(rt; source.len() < 1000);
        let found = shown(alloc, source.as_bytes())?;
        assert_eq!(rt; found.as_str(), *wanted, "{source}");
    }
    Ok(())
}

/// Each source of a table is refused so.
fn are_refused(rt: &impl Abort, alloc: Global, table: &[&str], wanted: LexErr) -> Result<(), Fail> {
    for source in table {
        assert!(rt; source.len() < 1000);
        match lex(alloc, source.as_bytes()) {
            Ok(_) => assert!(rt; false, "{source}"),
            Err(fault) => assert_eq!(rt; fault, wanted, "{source}"),
        }
    }
    Ok(())
}

#[test]
fn one_letter_is_one_token(rt: HostRuntime) -> Result<(), Fail> {
    let tokens = lex(rt.alloc(), b"x")?;
    assert_eq!(rt; tokens.len(), 1);
    assert_eq!(rt; (tokens[0].start, tokens[0].end, tokens[0].line), (0, 1, 1));
    are_shown(
        &rt,
        rt.alloc(),
        &[("x", "x,"), ("", ""), (" \t\r\n\x0b\x0c", "")],
    )?;
    each_source_is_read_in_one_way();
    each_spelling_is_read();
    Ok(())
}

#[test]
fn names_and_keywords_are_told_apart(rt: HostRuntime) -> Result<(), Fail> {
    are_shown(
        &rt,
        rt.alloc(),
        &[
            (
                "auto break case char const continue default do double else enum extern float for goto if inline int long register",
                "Auto,Break,Case,Char,Const,Continue,Default,Do,Double,Else,Enum,Extern,Float,For,Goto,If,Inline,Int,Long,Register,",
            ),
            (
                "restrict return short signed sizeof static struct switch typedef union unsigned void volatile while _Bool _Complex _Imaginary",
                "Restrict,Return,Short,Signed,Sizeof,Static,Struct,Switch,Typedef,Union,Unsigned,Void,Volatile,While,Bool,Complex,Imaginary,",
            ),
            (
                "intx int_ int0 xint If _bool whil",
                "intx,int_,int0,xint,If,_bool,whil,",
            ),
            ("ms s min catch _ a_9Z", "ms,s,min,catch,_,a_9Z,"),
        ],
    )
}

#[test]
fn the_longest_mark_and_annotation_is_taken(rt: HostRuntime) -> Result<(), Fail> {
    are_shown(
        &rt,
        rt.alloc(),
        &[
            (
                "{ } ( ) [ ] ; , . -> ++ -- & * + - ~ ! / %",
                "LeftBrace,RightBrace,LeftParen,RightParen,LeftBracket,RightBracket,Semicolon,Comma,Dot,Arrow,PlusPlus,MinusMinus,Ampersand,Star,Plus,Minus,Tilde,Exclamation,Slash,Percent,",
            ),
            (
                "<< >> < > <= >= == != ^ | && || ? : =",
                "ShiftLeft,ShiftRight,Less,Greater,LessEqual,GreaterEqual,EqualEqual,NotEqual,Caret,Bar,AndAnd,OrOr,Question,Colon,Assign,",
            ),
            (
                "*= /= %= += -= <<= >>= &= ^= |=",
                "StarAssign,SlashAssign,PercentAssign,PlusAssign,MinusAssign,ShiftLeftAssign,ShiftRightAssign,AmpersandAssign,CaretAssign,BarAssign,",
            ),
            ("a+++b---c", "a,PlusPlus,Plus,b,MinusMinus,Minus,c,"),
            (
                ">>>= <<<== &&&= ->=",
                "ShiftRight,GreaterEqual,ShiftLeft,LessEqual,Assign,AndAnd,AmpersandAssign,Arrow,Assign,",
            ),
            ("...", "Dot,Dot,Dot,"),
            (
                "@expires_after @expires @timely @=",
                "ExpiresAfter,Expires,Timely,StampedAssign,",
            ),
            (
                "@expires_afterx @expires_a @timelyx @==",
                "ExpiresAfter,x,Expires,_a,Timely,x,StampedAssign,Assign,",
            ),
        ],
    )
}

#[test]
fn numbers_have_their_value_base_and_suffix(rt: HostRuntime) -> Result<(), Fail> {
    are_shown(
        &rt,
        rt.alloc(),
        &[
            (
                "0 0u 00 00U",
                "0 true false,0 true true,0 false false,0 false true,",
            ),
            (
                "7 12u 65535 65535U",
                "7 true false,12 true true,65535 true false,65535 true true,",
            ),
            (
                "010 017u 0177777",
                "8 false false,15 false true,65535 false false,",
            ),
            (
                "0x1F 0XaBu 0xFFFF 0x0000000001",
                "31 false false,171 false true,65535 false false,1 false false,",
            ),
            (
                "1.5 0xE+1 -1",
                "1 true false,Dot,5 true false,14 false false,Plus,1 true false,Minus,1 true false,",
            ),
        ],
    )?;
    are_refused(
        &rt,
        rt.alloc(),
        &[
            "1000ms",
            "09",
            "08",
            "0x",
            "0xu",
            "0xg",
            "65536",
            "0x10000",
            "0200000",
            "12uu",
            "12l",
            "1_0",
            "0b1",
            "18446744073709551617",
            "9a @",
        ],
        LexErr::BadNumber { at: 0 },
    )
}

#[test]
fn character_constants_have_their_value(rt: HostRuntime) -> Result<(), Fail> {
    are_shown(
        &rt,
        rt.alloc(),
        &[
            (
                "'a' ' ' '\"' '~' '0'",
                "char 97,char 32,char 34,char 126,char 48,",
            ),
            (
                r"'\n' '\t' '\r' '\a' '\b' '\f' '\v'",
                "char 10,char 9,char 13,char 7,char 8,char 12,char 11,",
            ),
            (
                "'\\\\' '\\'' '\\\"' '\\?'",
                "char 92,char 39,char 34,char 63,",
            ),
            (
                r"'\x7' '\xfF' '\0' '\12' '\377' '\007'",
                "char 7,char 255,char 0,char 10,char 255,char 7,",
            ),
            ("'a'b'c'", "char 97,b,char 99,"),
        ],
    )?;
    are_refused(
        &rt,
        rt.alloc(),
        &[
            "'", "''", "'''", "'ab'", "'a", "'\n'", "'\x7f'", "'\u{e9}'", r"'\400'", r"'\8'",
            r"'\0000'", r"'\x'", r"'\x123'", r"'\xg'", r"'\z'", r"'\'", r"'\",
        ],
        LexErr::BadChar { at: 0 },
    )
}

#[test]
fn a_refusal_is_at_the_least_place(rt: HostRuntime) -> Result<(), Fail> {
    are_refused(
        &rt,
        rt.alloc(),
        &["/* x", "/*/", "/*", "/* * / // \n"],
        LexErr::OpenComment { at: 0 },
    )?;
    are_refused(
        &rt,
        rt.alloc(),
        &[
            "@", "@ =", "@expire", "#", "#define", "\"x\"", "\\", "\0", "\u{e9}", "$", "`",
        ],
        LexErr::BadByte { at: 0 },
    )?;
    are_shown(
        &rt,
        rt.alloc(),
        &[
            ("x #1", "BadByte { at: 2 }"),
            ("x @ 09", "BadByte { at: 2 }"),
            ("x 09 @", "BadNumber { at: 2 }"),
            ("x '' 09", "BadChar { at: 2 }"),
            ("a\n# x", "BadByte { at: 2 }"),
            ("/**/#1", "BadByte { at: 4 }"),
            ("/*\n*/ # 1", "BadByte { at: 6 }"),
            ("a /* b", "OpenComment { at: 2 }"),
            ("a/*b*/*/", "a,Star,Slash,"),
            ("a // b /* c", "a,"),
            ("a /* // */ b /***/ c", "a,b,c,"),
        ],
    )
}

#[test]
fn lines_are_counted_by_line_feeds(rt: HostRuntime) -> Result<(), Fail> {
    let source = b"a\nb /* \n\n */ c\n// x\nd\r\n# 5 \"f\" '\n \t#7\ne /*\n#1\n*/ f";
    let tokens = lex(rt.alloc(), source)?;
    assert_eq!(rt; tokens.len(), 6);
    let wanted = [(0, 1), (2, 2), (13, 4), (20, 6), (38, 9), (49, 11)];
    for (token, (start, line)) in tokens.iter().zip(wanted.iter()) {
        assert_eq!(rt; (token.start, token.line), (*start, *line));
        assert_eq!(rt; (token.start, 1), (token.end.saturating_sub(1), 1));
    }
    Ok(())
}

#[test]
fn a_line_is_that_of_a_place_or_a_token(rt: HostRuntime) -> Result<(), Fail> {
    let source = b"a\n\nb c";
    for (at, line) in [(0, 1), (1, 1), (2, 2), (3, 3), (5, 3), (99, 3)] {
        assert_eq!(rt; line_at(source, at), line);
    }
    let tokens = lex(rt.alloc(), source)?;
    for (number, line) in [(0, 1), (1, 3), (2, 3), (3, 3), (99, 3)] {
        assert_eq!(rt; line_of_token(tokens.as_slice(), number), line);
    }
    assert_eq!(rt; line_of_token(&[], 4), 1);
    Ok(())
}

#[test]
fn a_source_of_262144_bytes_is_read(rt: HostRuntime) -> Result<(), Fail> {
    let mut source = Vec::new(rt.alloc());
    for _ in 0..65536 {
        source.extend_from_slice(b"a>>=")?;
    }
    assert_eq!(rt; source.len(), 262_144);
    let tokens = lex(rt.alloc(), source.as_slice())?;
    assert_eq!(rt; tokens.len(), 131_072);
    Ok(())
}

#[test]
fn a_refusal_says_its_place(rt: HostRuntime) -> Result<(), Fail> {
    let refusals = [
        (LexErr::BadByte { at: 0 }, "no token begins at byte 0"),
        (
            LexErr::OpenComment { at: 12 },
            "the comment at byte 12 has no end",
        ),
        (LexErr::BadNumber { at: 7 }, "no number stands at byte 7"),
        (
            LexErr::BadChar { at: 3 },
            "no character constant stands at byte 3",
        ),
        (LexErr::NoMemory, "memory ran out"),
    ];
    for (refusal, wanted) in refusals {
        let text = format!(in rt.alloc(); "{refusal}")?;
        assert_eq!(rt; text.as_str(), wanted);
    }
    Ok(())
}
