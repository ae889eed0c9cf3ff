/// What kind of token stands in a text. Each reserved word and each operator is a kind of its own.
#[derive(Clone, Copy, Debug, PartialEq, Eq)]
pub enum TokenKind {
    /// A name: letters, digits and `_`, and no reserved word.
    Name,
    /// A number in decimal, octal or hexadecimal digits.
    Number,
    /// A character constant, as `'a'`.
    Char,
    /// A string, as `"a"`.
    Text,
    /// The end of the text.
    End,

    // the reserved words
    Adt,
    Aggr,
    Alloc,
    Alt,
    Become,
    Break,
    Byte,
    Case,
    Chan,
    Check,
    Continue,
    Default,
    Do,
    Else,
    Enum,
    Extern,
    Float,
    For,
    Goto,
    If,
    Int,
    Intern,
    Lint,
    Nil,
    Par,
    Private,
    Proc,
    Raise,
    Rescue,
    Return,
    Sint,
    Sizeof,
    Switch,
    Task,
    Tuple,
    Typedef,
    Typeof,
    Uint,
    Ulint,
    Unalloc,
    Union,
    Usint,
    Void,
    While,
    Zerox,

    // the operators
    /// `{`
    LeftBrace,
    /// `}`
    RightBrace,
    /// `(`
    LeftParen,
    /// `)`
    RightParen,
    /// `[`
    LeftBracket,
    /// `]`
    RightBracket,
    /// `;`
    Semicolon,
    /// `,`
    Comma,
    /// `.`
    Dot,
    /// `->`
    Arrow,
    /// `:`
    Colon,
    /// `::`
    ColonColon,
    /// `?`
    Question,
    /// `++`
    PlusPlus,
    /// `--`
    MinusMinus,
    /// `+`
    Plus,
    /// `-`
    Minus,
    /// `*`
    Star,
    /// `/`
    Slash,
    /// `%`
    Percent,
    /// `&`
    And,
    /// `|`
    Or,
    /// `^`
    Caret,
    /// `~`
    Tilde,
    /// `!`
    Not,
    /// `<<`
    ShiftLeft,
    /// `>>`
    ShiftRight,
    /// `<`
    Less,
    /// `>`
    Greater,
    /// `<=`
    LessEqual,
    /// `>=`
    GreaterEqual,
    /// `==`
    EqualEqual,
    /// `!=`
    NotEqual,
    /// `&&`
    AndAnd,
    /// `||`
    OrOr,
    /// `=`
    Equal,
    /// `+=`
    PlusEqual,
    /// `-=`
    MinusEqual,
    /// `*=`
    StarEqual,
    /// `/=`
    SlashEqual,
    /// `%=`
    PercentEqual,
    /// `&=`
    AndEqual,
    /// `|=`
    OrEqual,
    /// `^=`
    CaretEqual,
    /// `<<=`
    ShiftLeftEqual,
    /// `>>=`
    ShiftRightEqual,
    /// `<-`
    LeftArrow,
    /// `<-=`
    LeftArrowEqual,
}

/// What stands at a byte of a text.
#[derive(Clone, Copy, Debug, PartialEq, Eq)]
pub enum PieceKind {
    /// A space, a tab, a carriage return, a line feed or a form feed.
    Blank,
    /// From `/*` to the next `*/`, or from `//` to the end of the line.
    Comment,
    /// A line that includes the header, or that says where its text comes from.
    Skipped,
    Token(TokenKind),
}
