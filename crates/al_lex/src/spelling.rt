ghost use Rattle.std.specs.Prelude.{◌≡◌, option_map};
ghost use Rattle.al_lex.specs.Rows.{rows, row_of};
ghost use Rattle.al_lex.specs.Scan.{look_up, first_of, scan_operator};
ghost use Rattle.al_lex.specs.Spelling.{reserved};

use crate::fault::LexReason;
use crate::kind::{PieceKind, TokenKind};
use crate::scan::{Flaw, Found};

/// What bytes spell, and how.
pub(crate) struct Spelled {
    pub(crate) text: &'static [u8],
    pub(crate) kind: TokenKind,
}

/// The reserved words.
pub(crate) static RESERVED: [Spelled; 45] = [
    Spelled {
        text: b"adt",
        kind: TokenKind::Adt,
    },
    Spelled {
        text: b"aggr",
        kind: TokenKind::Aggr,
    },
    Spelled {
        text: b"alloc",
        kind: TokenKind::Alloc,
    },
    Spelled {
        text: b"alt",
        kind: TokenKind::Alt,
    },
    Spelled {
        text: b"become",
        kind: TokenKind::Become,
    },
    Spelled {
        text: b"break",
        kind: TokenKind::Break,
    },
    Spelled {
        text: b"byte",
        kind: TokenKind::Byte,
    },
    Spelled {
        text: b"case",
        kind: TokenKind::Case,
    },
    Spelled {
        text: b"chan",
        kind: TokenKind::Chan,
    },
    Spelled {
        text: b"check",
        kind: TokenKind::Check,
    },
    Spelled {
        text: b"continue",
        kind: TokenKind::Continue,
    },
    Spelled {
        text: b"default",
        kind: TokenKind::Default,
    },
    Spelled {
        text: b"do",
        kind: TokenKind::Do,
    },
    Spelled {
        text: b"else",
        kind: TokenKind::Else,
    },
    Spelled {
        text: b"enum",
        kind: TokenKind::Enum,
    },
    Spelled {
        text: b"extern",
        kind: TokenKind::Extern,
    },
    Spelled {
        text: b"float",
        kind: TokenKind::Float,
    },
    Spelled {
        text: b"for",
        kind: TokenKind::For,
    },
    Spelled {
        text: b"goto",
        kind: TokenKind::Goto,
    },
    Spelled {
        text: b"if",
        kind: TokenKind::If,
    },
    Spelled {
        text: b"int",
        kind: TokenKind::Int,
    },
    Spelled {
        text: b"intern",
        kind: TokenKind::Intern,
    },
    Spelled {
        text: b"lint",
        kind: TokenKind::Lint,
    },
    Spelled {
        text: b"nil",
        kind: TokenKind::Nil,
    },
    Spelled {
        text: b"par",
        kind: TokenKind::Par,
    },
    Spelled {
        text: b"private",
        kind: TokenKind::Private,
    },
    Spelled {
        text: b"proc",
        kind: TokenKind::Proc,
    },
    Spelled {
        text: b"raise",
        kind: TokenKind::Raise,
    },
    Spelled {
        text: b"rescue",
        kind: TokenKind::Rescue,
    },
    Spelled {
        text: b"return",
        kind: TokenKind::Return,
    },
    Spelled {
        text: b"sint",
        kind: TokenKind::Sint,
    },
    Spelled {
        text: b"sizeof",
        kind: TokenKind::Sizeof,
    },
    Spelled {
        text: b"switch",
        kind: TokenKind::Switch,
    },
    Spelled {
        text: b"task",
        kind: TokenKind::Task,
    },
    Spelled {
        text: b"tuple",
        kind: TokenKind::Tuple,
    },
    Spelled {
        text: b"typedef",
        kind: TokenKind::Typedef,
    },
    Spelled {
        text: b"typeof",
        kind: TokenKind::Typeof,
    },
    Spelled {
        text: b"uint",
        kind: TokenKind::Uint,
    },
    Spelled {
        text: b"ulint",
        kind: TokenKind::Ulint,
    },
    Spelled {
        text: b"unalloc",
        kind: TokenKind::Unalloc,
    },
    Spelled {
        text: b"union",
        kind: TokenKind::Union,
    },
    Spelled {
        text: b"usint",
        kind: TokenKind::Usint,
    },
    Spelled {
        text: b"void",
        kind: TokenKind::Void,
    },
    Spelled {
        text: b"while",
        kind: TokenKind::While,
    },
    Spelled {
        text: b"zerox",
        kind: TokenKind::Zerox,
    },
];

/// The operators, longer ones first.
pub(crate) static OPERATORS: [Spelled; 48] = [
    Spelled {
        text: b"<<=",
        kind: TokenKind::ShiftLeftEqual,
    },
    Spelled {
        text: b">>=",
        kind: TokenKind::ShiftRightEqual,
    },
    Spelled {
        text: b"<-=",
        kind: TokenKind::LeftArrowEqual,
    },
    Spelled {
        text: b"->",
        kind: TokenKind::Arrow,
    },
    Spelled {
        text: b"::",
        kind: TokenKind::ColonColon,
    },
    Spelled {
        text: b"++",
        kind: TokenKind::PlusPlus,
    },
    Spelled {
        text: b"--",
        kind: TokenKind::MinusMinus,
    },
    Spelled {
        text: b"<<",
        kind: TokenKind::ShiftLeft,
    },
    Spelled {
        text: b">>",
        kind: TokenKind::ShiftRight,
    },
    Spelled {
        text: b"<=",
        kind: TokenKind::LessEqual,
    },
    Spelled {
        text: b">=",
        kind: TokenKind::GreaterEqual,
    },
    Spelled {
        text: b"==",
        kind: TokenKind::EqualEqual,
    },
    Spelled {
        text: b"!=",
        kind: TokenKind::NotEqual,
    },
    Spelled {
        text: b"&&",
        kind: TokenKind::AndAnd,
    },
    Spelled {
        text: b"||",
        kind: TokenKind::OrOr,
    },
    Spelled {
        text: b"+=",
        kind: TokenKind::PlusEqual,
    },
    Spelled {
        text: b"-=",
        kind: TokenKind::MinusEqual,
    },
    Spelled {
        text: b"*=",
        kind: TokenKind::StarEqual,
    },
    Spelled {
        text: b"/=",
        kind: TokenKind::SlashEqual,
    },
    Spelled {
        text: b"%=",
        kind: TokenKind::PercentEqual,
    },
    Spelled {
        text: b"&=",
        kind: TokenKind::AndEqual,
    },
    Spelled {
        text: b"|=",
        kind: TokenKind::OrEqual,
    },
    Spelled {
        text: b"^=",
        kind: TokenKind::CaretEqual,
    },
    Spelled {
        text: b"<-",
        kind: TokenKind::LeftArrow,
    },
    Spelled {
        text: b"{",
        kind: TokenKind::LeftBrace,
    },
    Spelled {
        text: b"}",
        kind: TokenKind::RightBrace,
    },
    Spelled {
        text: b"(",
        kind: TokenKind::LeftParen,
    },
    Spelled {
        text: b")",
        kind: TokenKind::RightParen,
    },
    Spelled {
        text: b"[",
        kind: TokenKind::LeftBracket,
    },
    Spelled {
        text: b"]",
        kind: TokenKind::RightBracket,
    },
    Spelled {
        text: b";",
        kind: TokenKind::Semicolon,
    },
    Spelled {
        text: b",",
        kind: TokenKind::Comma,
    },
    Spelled {
        text: b".",
        kind: TokenKind::Dot,
    },
    Spelled {
        text: b":",
        kind: TokenKind::Colon,
    },
    Spelled {
        text: b"?",
        kind: TokenKind::Question,
    },
    Spelled {
        text: b"+",
        kind: TokenKind::Plus,
    },
    Spelled {
        text: b"-",
        kind: TokenKind::Minus,
    },
    Spelled {
        text: b"*",
        kind: TokenKind::Star,
    },
    Spelled {
        text: b"/",
        kind: TokenKind::Slash,
    },
    Spelled {
        text: b"%",
        kind: TokenKind::Percent,
    },
    Spelled {
        text: b"&",
        kind: TokenKind::And,
    },
    Spelled {
        text: b"|",
        kind: TokenKind::Or,
    },
    Spelled {
        text: b"^",
        kind: TokenKind::Caret,
    },
    Spelled {
        text: b"~",
        kind: TokenKind::Tilde,
    },
    Spelled {
        text: b"!",
        kind: TokenKind::Not,
    },
    Spelled {
        text: b"<",
        kind: TokenKind::Less,
    },
    Spelled {
        text: b">",
        kind: TokenKind::Greater,
    },
    Spelled {
        text: b"=",
        kind: TokenKind::Equal,
    },
];

/// The kind of token that the table has for these bytes.
fn look_up(table: &[Spelled], word: &[u8]) -> Option<TokenKind>
    ensures { result ≡ look_up (rows table.now) word.now }
{
    for row in table {
        if row.text == word {
            return Some(row.kind);
        }
    }
    None
}

/// The first row of the table that begins the text.
fn first_of(table: &'static [Spelled], rest: &[u8]) -> Option<&'static Spelled>
    ensures { option_map (λ row. row_of row.now) result ≡ first_of (rows table.now) rest.now }
{
    for row in table {
        if rest.starts_with(row.text) {
            return Some(row);
        }
    }
    None
}

/// The reserved word that these bytes are.
pub(crate) fn reserved_word(word: &[u8]) -> Option<TokenKind>
    ensures { result ≡ look_up reserved word.now }
{
    look_up(&RESERVED, word)
}

/// The longest operator that begins the text.
pub(crate) fn scan_operator(rest: &[u8]) -> Result<Found, Flaw>
    ensures { result ≡ scan_operator rest.now }
{
    match first_of(&OPERATORS, rest) {
        Some(row) => Ok(Found {
            kind: PieceKind::Token(row.kind),
            len: row.text.len(),
        }),
        None => Err(Flaw {
            reason: LexReason::BadChar,
            offset: 0,
        }),
    }
}
