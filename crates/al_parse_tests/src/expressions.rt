//! Expressions, with the token behind each, or why there is none.
use al_lex::lex;
use al_parse_expr::expr;
use al_tree::{ParseReason, ParseStop, TypeNames};
use std::alloc::Global;
use std::process::Abort;
use std::test::Fail;

/// The token behind what was read, or the fault.
type Answer = Result<u32, (ParseReason, u32)>;

/// In these texts the names are numbered by where they first stand. Those below the number given are types.
static EXPRESSIONS: [(&[u8], u32, Answer); 98] = [
    (b"7", 0, Ok(1)),
    (b"'a';", 0, Ok(1)),
    (b"\"text\"", 0, Ok(1)),
    (b"nil", 0, Ok(1)),
    (b"a", 0, Ok(1)),
    (b"a b", 0, Ok(1)),
    (b"(a)", 0, Ok(3)),
    (b"((a),b,(c,d))", 0, Ok(13)),
    (b"a,b,c;", 0, Ok(5)),
    (b"a[b,c]", 0, Ok(6)),
    (b"a[0][1]", 0, Ok(7)),
    (b"p->x.y++--?", 0, Ok(8)),
    (b"f()", 0, Ok(3)),
    (b"f(a,(b,c))(d)[0]", 0, Ok(16)),
    (b"f(a=b)", 0, Ok(6)),
    (b"1.x", 0, Ok(3)),
    (b"c?", 0, Ok(2)),
    (b"?c", 0, Ok(2)),
    (b"?c?", 0, Ok(3)),
    (b"<-c", 0, Ok(2)),
    (b"<-<-c", 0, Ok(3)),
    (b"a<-c", 0, Ok(1)),
    (b"c<-=a", 0, Ok(3)),
    (b"+-!~*&++--zerox a", 0, Ok(10)),
    (b"a*b/c%d", 0, Ok(7)),
    (b"a+b-c<<d>>e", 0, Ok(9)),
    (b"a<b>c<=d>=e==f!=g", 0, Ok(13)),
    (b"a&b^c|d&&e||f", 0, Ok(11)),
    (b"a*&b", 0, Ok(4)),
    (b"a::b", 0, Ok(3)),
    (b"a<<1::b+c*d", 0, Ok(9)),
    (b"a::b::c", 0, Ok(3)),
    (b"a::b<c::d", 0, Ok(7)),
    (b"a=b=c", 0, Ok(5)),
    (b"*a=b", 0, Ok(4)),
    (b"a+b=c", 0, Ok(3)),
    (b"a=b+c=d", 0, Ok(5)),
    (b"a+=b-=c*=d/=e%=f", 0, Ok(11)),
    (b"a&=b|=c^=d<<=e>>=f", 0, Ok(11)),
    (b"(a,b)=c", 0, Ok(7)),
    (b"(int)a", 0, Ok(4)),
    (b"(int)-a+b", 0, Ok(7)),
    (b"(T**)a", 1, Ok(6)),
    (b"(T)a", 0, Ok(3)),
    (b"(T[int,(int,int)])a", 1, Err((ParseReason::Unexpected, 5))),
    (b"(T[int,tuple(int,int)])a", 1, Ok(14)),
    (b"(chan((int,int))[2]*)a", 0, Ok(15)),
    (b"(tuple(int,int))a", 0, Ok(9)),
    (b"(int)(a)", 0, Ok(6)),
    (b"(int)a=b", 0, Ok(6)),
    (b"sizeof(int)", 0, Ok(4)),
    (b"sizeof(int)a", 0, Ok(4)),
    (b"sizeof(int).a", 0, Ok(4)),
    (b"sizeof(int)*a", 0, Ok(6)),
    (b"sizeof a.b", 0, Ok(4)),
    (b"sizeof(a).b", 0, Ok(6)),
    (b"sizeof(a,b)", 0, Ok(6)),
    (b"sizeof-a", 0, Ok(3)),
    (b"sizeof sizeof(T*)", 1, Ok(6)),
    (b"-sizeof(a)", 0, Ok(5)),
    (b"a+b c", 0, Ok(3)),
    (b"a-b}", 0, Ok(3)),
    (b"a:", 0, Ok(1)),
    (b";", 0, Err((ParseReason::Unexpected, 0))),
    (b"int", 0, Err((ParseReason::Unexpected, 0))),
    (b"T", 1, Err((ParseReason::Unexpected, 0))),
    (b",a", 0, Err((ParseReason::Unexpected, 0))),
    (b"a+;", 0, Err((ParseReason::Unexpected, 2))),
    (b"a+*", 0, Err((ParseReason::EndOfText, 3))),
    (b"a+/b", 0, Err((ParseReason::Unexpected, 2))),
    (b"a,;", 0, Err((ParseReason::Unexpected, 2))),
    (b"a=;", 0, Err((ParseReason::Unexpected, 2))),
    (b"a::;", 0, Err((ParseReason::Unexpected, 2))),
    (b"a.int", 0, Err((ParseReason::Unexpected, 2))),
    (b"a.T", 0, Ok(3)),
    (b"a[]", 0, Err((ParseReason::Unexpected, 2))),
    (b"a[b;", 0, Err((ParseReason::Unexpected, 3))),
    (b"f(,a)", 0, Err((ParseReason::Unexpected, 2))),
    (b"f(a,)", 0, Err((ParseReason::Unexpected, 4))),
    (b"f(a b)", 0, Err((ParseReason::Unexpected, 3))),
    (b"()", 0, Err((ParseReason::Unexpected, 1))),
    (b"(a,)", 0, Err((ParseReason::Unexpected, 3))),
    (b"(a;", 0, Err((ParseReason::Unexpected, 2))),
    (b"(a=b,c+)", 0, Err((ParseReason::Unexpected, 7))),
    (b"((int,int))a", 0, Err((ParseReason::Unexpected, 3))),
    (b"(int,int)a", 0, Err((ParseReason::Unexpected, 2))),
    (b"(int);", 0, Err((ParseReason::Unexpected, 3))),
    (b"(int[2])a", 0, Err((ParseReason::Unexpected, 2))),
    (b"sizeof;", 0, Err((ParseReason::Unexpected, 1))),
    (b"sizeof int", 0, Err((ParseReason::Unexpected, 1))),
    (b"sizeof(;", 0, Err((ParseReason::Unexpected, 2))),
    (b"sizeof(int;", 0, Err((ParseReason::Unexpected, 3))),
    (b"", 0, Err((ParseReason::EndOfText, 0))),
    (b"a+", 0, Err((ParseReason::EndOfText, 2))),
    (b"a.", 0, Err((ParseReason::EndOfText, 2))),
    (b"f(a", 0, Err((ParseReason::EndOfText, 3))),
    (b"(int)", 0, Err((ParseReason::EndOfText, 3))),
    (b"sizeof(", 0, Err((ParseReason::EndOfText, 2))),
];

fn expr_answer(
    rt: &impl Abort,
    alloc: Global,
    text: &[u8],
    types: u32,
) -> Result<Option<Answer>, Fail> {
    assert!(rt; text.len() <= 1 << 20);
    let toks = lex(alloc, text)?;
    let mut names = TypeNames::new(alloc);
    for name in 0..types {
        names.declare(name)?;
    }
    Ok(match expr(alloc, &toks, 0, &names) {
        Ok((_, next)) => Some(Ok(next)),
        Err(ParseStop::Fault(fault)) => Some(Err((fault.reason, fault.token))),
        Err(ParseStop::NoMemory) => None,
    })
}

#[test]
fn expressions_end_at_these_tokens(rt: HostRuntime) -> Result<(), Fail> {
    for (text, types, expected) in EXPRESSIONS {
        let found = expr_answer(&rt, rt.alloc(), text, types)?;
        assert!(rt; found == Some(expected), "{text:?}: {found:?}");
    }
    Ok(())
}

/// A text that is nested: so many of an opening piece, the middle, and as many closing pieces.
struct Nested {
    open: &'static [u8],
    middle: &'static [u8],
    close: &'static [u8],
    /// How many fit, with the answer then.
    fits: (u32, Answer),
    /// The token that goes too deep with one more, and with 2,000.
    deep: u32,
}

impl Nested {
    fn text(&self, alloc: Global, levels: u32) -> Result<Vec<u8>, Fail> {
        let mut text = Vec::new(alloc);
        for _level in 0..levels {
            text.extend_from_slice(self.open)?;
        }
        text.extend_from_slice(self.middle)?;
        for _level in 0..levels {
            text.extend_from_slice(self.close)?;
        }
        Ok(text)
    }
}

static NESTED: [Nested; 10] = [
    Nested {
        open: b"(",
        middle: b"a",
        close: b")",
        fits: (199, Ok(399)),
        deep: 199,
    },
    Nested {
        open: b"!",
        middle: b"a",
        close: b"",
        fits: (199, Ok(200)),
        deep: 199,
    },
    Nested {
        open: b"(int)",
        middle: b"a",
        close: b"",
        fits: (199, Ok(598)),
        deep: 597,
    },
    Nested {
        open: b"sizeof ",
        middle: b"a",
        close: b"",
        fits: (199, Ok(200)),
        deep: 200,
    },
    Nested {
        open: b"sizeof ",
        middle: b"(int)",
        close: b"",
        fits: (200, Ok(203)),
        deep: 200,
    },
    Nested {
        open: b"f(",
        middle: b"",
        close: b")",
        fits: (200, Ok(600)),
        deep: 400,
    },
    Nested {
        open: b"a+",
        middle: b"a",
        close: b"",
        fits: (199, Ok(399)),
        deep: 399,
    },
    Nested {
        open: b"a=",
        middle: b"a",
        close: b"",
        fits: (199, Ok(399)),
        deep: 399,
    },
    Nested {
        open: b"",
        middle: b"a",
        close: b"[0]",
        fits: (199, Ok(598)),
        deep: 598,
    },
    Nested {
        open: b"",
        middle: b"a",
        close: b".a",
        fits: (199, Ok(399)),
        deep: 399,
    },
];

#[test]
fn two_hundred_levels_are_read_and_no_more(rt: HostRuntime) -> Result<(), Fail> {
    let alloc = rt.alloc();
    for nested in &NESTED {
        let (levels, expected) = nested.fits;
        let text = nested.text(alloc, levels)?;
        let found = expr_answer(&rt, alloc, text.as_slice(), 0)?;
        assert!(rt; found == Some(expected), "{levels} levels: {found:?}");
        for more in [levels.saturating_add(1), 2_000] {
            let text = nested.text(alloc, more)?;
            let found = expr_answer(&rt, alloc, text.as_slice(), 0)?;
            let deep = Err((ParseReason::Deep, nested.deep));
            assert!(rt; found == Some(deep), "{more} levels: {found:?}");
        }
    }
    let mut text = Vec::new(alloc);
    for _level in 0..100_000 {
        text.push(b'(')?;
    }
    let found = expr_answer(&rt, alloc, text.as_slice(), 0)?;
    assert!(rt; found == Some(Err((ParseReason::Deep, 199))), "{found:?}");
    Ok(())
}

/// The place that a tree's part has is that of its first token.
const TREE: &str =
    "Binary { at: Place { line: 1, col: 1 }, op: Subtract, left: Boxed { inner: Binary { at: Place { line: 1, col: 1 }, op: Subtract, left: Boxed { inner: Cast { at: Place { line: 1, col: 1 }, to: Pointer { at: Place { line: 1, col: 2 }, to: Boxed { inner: Named { at: Place { line: 1, col: 2 }, name: 0, arguments: Items { items: [] } } } }, operand: Boxed { inner: Name { at: Place { line: 1, col: 5 }, name: 1 } } } }, right: Boxed { inner: Call { at: Place { line: 1, col: 7 }, callee: Boxed { inner: Member { at: Place { line: 1, col: 7 }, of: Boxed { inner: Name { at: Place { line: 1, col: 7 }, name: 2 } }, access: Dot, name: Name { at: Place { line: 1, col: 9 }, name: 3 } } }, arguments: Items { items: [Number { at: Place { line: 1, col: 11 }, value: 1 }, Number { at: Place { line: 1, col: 13 }, value: 2 }] } } } } }, right: Boxed { inner: Binary { at: Place { line: 1, col: 16 }, op: Multiply, left: Boxed { inner: Name { at: Place { line: 1, col: 16 }, name: 4 } }, right: Boxed { inner: Char { at: Place { line: 1, col: 18 }, value: 120 } } } } }";

#[test]
fn an_expression_is_this_tree(rt: HostRuntime) -> Result<(), Fail> {
    let alloc = rt.alloc();
    let text: &[u8] = b"(T*)a-b.c(1,2)-d*'x'";
    let toks = lex(alloc, text)?;
    let mut names = TypeNames::new(alloc);
    names.declare(0)?;
    let Ok((tree, next)) = expr(alloc, &toks, 0, &names) else {
        panic!(rt; "no expression");
    };
    assert!(rt; next == 18);
    let shown = format!(in alloc; "{tree:?}")?;
    assert!(rt; shown.as_str() == TREE, "{shown}");
    Ok(())
}

/// So many of these, with a last name behind them, come to 2^20 bytes but for three.
const PIECES: u32 = 87_381;

#[test]
fn an_expression_of_a_large_text_is_read(rt: HostRuntime) -> Result<(), Fail> {
    let alloc = rt.alloc();
    let mut text = Vec::new(alloc);
    for _piece in 0..PIECES {
        text.extend_from_slice(b"f(a,b[1]*2),")?;
    }
    text.push(b'a')?;
    let found = expr_answer(&rt, alloc, text.as_slice(), 0)?;
    assert!(rt; found == Some(Ok(PIECES * 12 + 1)), "{found:?}");
    Ok(())
}
