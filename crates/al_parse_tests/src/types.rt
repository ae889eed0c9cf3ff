//! Types and declarators, with the token behind each, or why there is none.
use al_lex::lex;
use al_parse_type::{atype, dcl};
use al_tree::{ParseReason, ParseStop, TypeNames};
use std::alloc::Global;
use std::process::Abort;
use std::test::Fail;

/// The token behind what was read, or the fault.
type Answer = Result<u32, (ParseReason, u32)>;

/// In these texts the names are numbered by where they first stand. Those below the number given are types.
static TYPES: [(&[u8], u32, Answer); 61] = [
    (b"byte", 0, Ok(1)),
    (b"sint,", 0, Ok(1)),
    (b"void**x", 0, Ok(3)),
    (b"usint[3]", 0, Ok(4)),
    (b"ulint[2*(N+1)][3];", 0, Ok(13)),
    (b"lint*[N-1-2*3][4]*", 0, Ok(14)),
    (b"int[3]*", 0, Ok(4)),
    (b"chan(int)", 0, Ok(4)),
    (b"chan(int)[3]", 0, Ok(7)),
    (b"chan(int)[3][4]", 0, Ok(10)),
    (b"chan(int)*[3] a", 0, Ok(8)),
    (b"chan(chan(int)[2])", 0, Ok(10)),
    (b"chan((int,int)*[2])", 0, Ok(12)),
    (b"tuple(int,byte)", 0, Ok(6)),
    (b"tuple(int,(byte,lint))[2]", 0, Ok(13)),
    (b"(int,int)* x", 0, Ok(6)),
    (b"((int,int),int*,A)", 0, Err((ParseReason::Unexpected, 10))),
    (b"A", 1, Ok(1)),
    (b"A*B", 1, Ok(2)),
    (b"A[3]", 1, Ok(4)),
    (b"A[B]", 2, Ok(4)),
    (b"A[B]", 1, Ok(4)),
    (b"A[B][B]", 2, Err((ParseReason::Unexpected, 5))),
    (b"A[B][N]*", 2, Ok(7)),
    (b"A[A[A[int]],chan(A)]", 1, Ok(15)),
    (b"A[((int,int),A)]x", 1, Ok(12)),
    (b"A[((N))*2][3]", 1, Ok(13)),
    (b"A[(N)+1]", 1, Ok(8)),
    (b"A[N*2]", 1, Ok(6)),
    (b"A[((int,int)[2],A)*[3],A]*", 1, Ok(22)),
    (b"x", 0, Err((ParseReason::Unexpected, 0))),
    (b"*int", 0, Err((ParseReason::Unexpected, 0))),
    (b"()", 0, Err((ParseReason::Unexpected, 1))),
    (b"(int)", 0, Err((ParseReason::Unexpected, 2))),
    (b"(int,)", 0, Err((ParseReason::Unexpected, 3))),
    (b"(int,3)", 0, Err((ParseReason::Unexpected, 3))),
    (b"(int,int]", 0, Err((ParseReason::Unexpected, 4))),
    (b"tuple int", 0, Err((ParseReason::Unexpected, 1))),
    (b"tuple(int)", 0, Err((ParseReason::Unexpected, 3))),
    (b"chan int", 0, Err((ParseReason::Unexpected, 1))),
    (b"chan()", 0, Err((ParseReason::Unexpected, 2))),
    (b"chan(int,int)", 0, Err((ParseReason::Unexpected, 3))),
    (b"chan(int)[]", 0, Err((ParseReason::Unexpected, 5))),
    (b"chan(int)[3)", 0, Err((ParseReason::Unexpected, 6))),
    (b"int[]", 0, Err((ParseReason::Unexpected, 2))),
    (b"int[;", 0, Err((ParseReason::Unexpected, 2))),
    (b"int[int]", 0, Err((ParseReason::Unexpected, 2))),
    (b"int[3/2]", 0, Err((ParseReason::Unexpected, 3))),
    (b"int[3+]", 0, Err((ParseReason::Unexpected, 4))),
    (b"int[(3]", 0, Err((ParseReason::Unexpected, 4))),
    (b"A[int)", 1, Err((ParseReason::Unexpected, 3))),
    (b"A[(int]", 1, Err((ParseReason::Unexpected, 4))),
    (b"A[(int)]", 1, Err((ParseReason::Unexpected, 4))),
    (b"A[(N,int)]", 1, Err((ParseReason::Unexpected, 4))),
    (b"A[(int,N)]", 1, Err((ParseReason::Unexpected, 5))),
    (b"", 0, Err((ParseReason::EndOfText, 0))),
    (b"int[", 0, Err((ParseReason::EndOfText, 2))),
    (b"chan(", 0, Err((ParseReason::EndOfText, 2))),
    (b"(int,int", 0, Err((ParseReason::EndOfText, 4))),
    (b"A[B", 2, Err((ParseReason::EndOfText, 3))),
    (b"A[(((", 1, Err((ParseReason::EndOfText, 5))),
];

static DECLARATORS: [(&[u8], Answer); 8] = [
    (b"x,", Ok(1)),
    (b"**x[3][N];", Ok(9)),
    (b"x(", Ok(1)),
    (b"*int", Err((ParseReason::Unexpected, 1))),
    (b"[3]", Err((ParseReason::Unexpected, 0))),
    (b"x[]", Err((ParseReason::Unexpected, 2))),
    (b"*", Err((ParseReason::EndOfText, 1))),
    (b"x[3", Err((ParseReason::EndOfText, 3))),
];

fn names(alloc: Global, types: u32) -> Result<TypeNames, Fail> {
    let mut names = TypeNames::new(alloc);
    for name in 0..types {
        names.declare(name)?;
    }
    Ok(names)
}

fn answer<T: Drop>(read: Result<(T, u32), ParseStop>) -> Option<Answer> {
    match read {
        Ok((_, next)) => Some(Ok(next)),
        Err(ParseStop::Fault(fault)) => Some(Err((fault.reason, fault.token))),
        Err(ParseStop::NoMemory) => None,
    }
}

fn type_answer(
    rt: &impl Abort,
    alloc: Global,
    text: &[u8],
    types: u32,
) -> Result<Option<Answer>, Fail> {
    assert!(rt; text.len() <= 1 << 20);
    let toks = lex(alloc, text)?;
    let types = names(alloc, types)?;
    Ok(answer(atype(alloc, &toks, 0, &types)))
}

/// A text that is nested: what stands before, so many of an opening piece, the middle, as many closing pieces, and the rest.
struct Nested {
    before: &'static [u8],
    open: &'static [u8],
    middle: &'static [u8],
    close: &'static [u8],
    behind: &'static [u8],
}

impl Nested {
    fn text(&self, alloc: Global, levels: u32) -> Result<Vec<u8>, Fail> {
        let mut text = Vec::from_slice(alloc, self.before)?;
        for _level in 0..levels {
            text.extend_from_slice(self.open)?;
        }
        text.extend_from_slice(self.middle)?;
        for _level in 0..levels {
            text.extend_from_slice(self.close)?;
        }
        text.extend_from_slice(self.behind)?;
        Ok(text)
    }
}

/// Each with the answer at 200 levels and that at 201.
static NESTED: [(Nested, Answer, Answer); 5] = [
    (
        Nested {
            before: b"",
            open: b"chan(",
            middle: b"int",
            close: b")",
            behind: b"",
        },
        Ok(601),
        Err((ParseReason::Deep, 400)),
    ),
    (
        Nested {
            before: b"",
            open: b"A[",
            middle: b"A",
            close: b"]",
            behind: b"",
        },
        Ok(601),
        Err((ParseReason::Deep, 402)),
    ),
    (
        Nested {
            before: b"",
            open: b"(",
            middle: b"int",
            close: b",int)",
            behind: b"",
        },
        Ok(801),
        Err((ParseReason::Deep, 200)),
    ),
    (
        Nested {
            before: b"int[",
            open: b"(",
            middle: b"1",
            close: b")",
            behind: b"]",
        },
        Ok(404),
        Err((ParseReason::Deep, 202)),
    ),
    (
        Nested {
            before: b"A[",
            open: b"(",
            middle: b"1",
            close: b")",
            behind: b"]",
        },
        Ok(404),
        Err((ParseReason::Deep, 202)),
    ),
];

#[test]
fn types_and_declarators_end_at_these_tokens(rt: HostRuntime) -> Result<(), Fail> {
    let alloc = rt.alloc();
    for (text, types, expected) in TYPES {
        let found = type_answer(&rt, alloc, text, types)?;
        assert!(rt; found == Some(expected), "{text:?}: {found:?}");
    }
    for (text, expected) in DECLARATORS {
        assert!(rt; text.len() <= 1 << 20);
        let toks = lex(alloc, text)?;
        let found = answer(dcl(alloc, &toks, 0, &names(alloc, 0)?));
        assert!(rt; found == Some(expected), "{text:?}: {found:?}");
    }
    Ok(())
}

/// The place that a tree's part has is that of its first token.
const TREE: &str =
    "Array { at: Place { line: 1, col: 1 }, bound: Binary { at: Place { line: 2, col: 3 }, op: Plus, left: Boxed { inner: Number { at: Place { line: 2, col: 3 }, value: 2 } }, right: Boxed { inner: Name { at: Place { line: 2, col: 5 }, name: 1 } } }, element: Boxed { inner: Array { at: Place { line: 1, col: 1 }, bound: Number { at: Place { line: 2, col: 8 }, value: 3 }, element: Boxed { inner: Pointer { at: Place { line: 1, col: 1 }, to: Boxed { inner: Named { at: Place { line: 1, col: 1 }, name: 0, arguments: Items { items: [Basic { at: Place { line: 1, col: 3 }, basic: Int }] } } } } } } } }";

#[test]
fn a_type_is_this_tree(rt: HostRuntime) -> Result<(), Fail> {
    let alloc = rt.alloc();
    let text: &[u8] = b"A[int]\n*[2+N][3]";
    let toks = lex(alloc, text)?;
    let Ok((tree, next)) = atype(alloc, &toks, 0, &names(alloc, 1)?) else {
        panic!(rt; "no type");
    };
    assert!(rt; next == 13);
    let shown = format!(in alloc; "{tree:?}")?;
    assert!(rt; shown.as_str() == TREE, "{shown}");
    Ok(())
}

#[test]
fn two_hundred_levels_are_read_and_no_more(rt: HostRuntime) -> Result<(), Fail> {
    let alloc = rt.alloc();
    for (nested, fits, deep) in &NESTED {
        for (levels, expected) in [(200, fits), (201, deep)] {
            let text = nested.text(alloc, levels)?;
            let found = type_answer(&rt, alloc, text.as_slice(), 1)?;
            assert!(rt; found == Some(*expected), "{levels} levels: {found:?}");
        }
    }
    let mut text = Vec::from_slice(alloc, b"A[")?;
    for _level in 0..100_000 {
        text.extend_from_slice(b"(")?;
    }
    let found = type_answer(&rt, alloc, text.as_slice(), 1)?;
    assert!(rt; found == Some(Err((ParseReason::Deep, 202))), "{found:?}");
    Ok(())
}
