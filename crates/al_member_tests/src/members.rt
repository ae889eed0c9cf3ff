//! Parameters, constants, initializers and members, with the token behind each, or why there is none.
use al_lex::lex;
use al_parse_member::Context;
use al_tree::{Cursor, ParseError, ParseReason, ParseStop, TypeNames, token_number, tokens_from};
use std::alloc::Global;
use std::process::Abort;
use std::test::Fail;

/// The token behind what was read, or the fault.
type Answer = Result<u32, (ParseReason, u32)>;

#[derive(Clone, Copy)]
enum What {
    Parameters,
    Constants,
    Initializer,
    Members,
    AdtMembers,
}

/// In these texts the names are numbered by where they first stand. Those below the number given are types. Parameters
/// begin behind the parenthesis that opens.
static PARTS: [(What, &[u8], u32, Answer); 32] = [
    (What::Parameters, b")", 0, Ok(1)),
    (What::Parameters, b"void)", 0, Ok(2)),
    (What::Parameters, b"void*,void*a)", 0, Ok(7)),
    (What::Parameters, b"void,int)", 0, Ok(4)),
    (
        What::Parameters,
        b"int,int*a,int b[3],int[],int*[2][])",
        0,
        Ok(24),
    ),
    (
        What::Parameters,
        b"A,A*b,A[3],A[],A[2][3],A c[4])",
        1,
        Ok(29),
    ),
    (
        What::Parameters,
        b"A[int],A[A[int]]b,A[(int,int)]*,A[tuple(int,int)][3])",
        1,
        Ok(37),
    ),
    (What::Parameters, b"A[(3)])", 1, Ok(7)),
    (What::Parameters, b"*A,.A)", 1, Ok(6)),
    (
        What::Parameters,
        b"chan(int)a,chan(int)[4]b,chan(int)*[3])",
        0,
        Ok(24),
    ),
    (
        What::Parameters,
        b"int,)",
        0,
        Err((ParseReason::Unexpected, 2)),
    ),
    (
        What::Parameters,
        b"*a)",
        0,
        Err((ParseReason::Unexpected, 0)),
    ),
    (
        What::Parameters,
        b"A,*b)",
        1,
        Err((ParseReason::Unexpected, 3)),
    ),
    (
        What::Parameters,
        b"int",
        0,
        Err((ParseReason::EndOfText, 1)),
    ),
    (What::Constants, b"{a}", 0, Ok(3)),
    (What::Constants, b"{a,b=1,c,}", 0, Ok(10)),
    (What::Constants, b"{}", 0, Err((ParseReason::Unexpected, 1))),
    (
        What::Constants,
        b"{a b}",
        0,
        Err((ParseReason::Unexpected, 2)),
    ),
    (
        What::Constants,
        b"{T}",
        1,
        Err((ParseReason::Unexpected, 1)),
    ),
    (What::Initializer, b"1+2;", 0, Ok(3)),
    (What::Initializer, b"{1,{2,3},};", 0, Ok(10)),
    (
        What::Initializer,
        b"{}",
        0,
        Err((ParseReason::Unexpected, 1)),
    ),
    (
        What::Initializer,
        b"{1",
        0,
        Err((ParseReason::EndOfText, 2)),
    ),
    (What::Members, b"{T*b,*c;T;int a;aggr{int d;};}", 1, Ok(21)),
    (What::Members, b"{}", 0, Err((ParseReason::Unexpected, 1))),
    (
        What::Members,
        b"{int f();}",
        0,
        Err((ParseReason::Unexpected, 3)),
    ),
    (
        What::Members,
        b"{int;}",
        0,
        Err((ParseReason::Unexpected, 2)),
    ),
    (
        What::Members,
        b"{union{}}",
        0,
        Err((ParseReason::Unexpected, 3)),
    ),
    (
        What::AdtMembers,
        b"{A*a;extern int b;int f(*A,int);intern void g(.A);A*h();}",
        1,
        Ok(33),
    ),
    (What::AdtMembers, b"{A;union{A a;};A f();}", 1, Ok(16)),
    (
        What::AdtMembers,
        b"{}",
        0,
        Err((ParseReason::Unexpected, 1)),
    ),
    (
        What::AdtMembers,
        b"{private int a;}",
        0,
        Err((ParseReason::Unexpected, 1)),
    ),
];

fn names(alloc: Global, types: u32) -> Result<TypeNames, Fail> {
    let mut names = TypeNames::new(alloc);
    for name in 0..types {
        names.declare(name)?;
    }
    Ok(names)
}

fn height<T: Drop>(read: Result<(T, u32), ParseError>) -> Result<u32, ParseError> {
    match read {
        Ok((_, height)) => Ok(height),
        Err(error) => Err(error),
    }
}

fn answer(
    rt: &impl Abort,
    alloc: Global,
    what: What,
    text: &[u8],
    types: u32,
) -> Result<Option<Answer>, Fail> {
    assert!(rt; text.len() <= 1 << 20);
    let toks = lex(alloc, text)?;
    assert!(rt; toks.len() > 0);
    let types = names(alloc, types)?;
    let mut tokens = Cursor::new(tokens_from(&toks, 0));
    let context = Context {
        alloc,
        text: toks.text(),
        types: &types,
        turns: toks.len(),
        depth: 199,
    };
    let read = match what {
        What::Parameters => height(context.parameter_list(&mut tokens)),
        What::Constants => height(context.enum_body(&mut tokens)),
        What::Initializer => height(context.initializer(&mut tokens)),
        What::Members => height(context.members_within(&mut tokens)),
        What::AdtMembers => height(context.adt_body(&mut tokens)),
    };
    Ok(match read {
        Ok(_) => Some(Ok(token_number(&toks, tokens.left()))),
        Err(error) => match ParseStop::of(&toks, error) {
            ParseStop::Fault(fault) => Some(Err((fault.reason, fault.token))),
            ParseStop::NoMemory => None,
        },
    })
}

#[test]
fn parts_end_at_these_tokens(rt: HostRuntime) -> Result<(), Fail> {
    for (what, text, types, expected) in PARTS {
        let found = answer(&rt, rt.alloc(), what, text, types)?;
        assert!(rt; found == Some(expected), "{text:?}: {found:?}");
    }
    Ok(())
}

/// Behind a type's name and a bracket as many parentheses may open as there are levels: a bound still fits behind them, and a type
/// does not.
#[test]
fn parentheses_end_at_the_last_level(rt: HostRuntime) -> Result<(), Fail> {
    let mut text = [b'('; 403];
    text[0] = b'A';
    text[1] = b'[';
    text[201] = b'3';
    for i in 202..401 {
        text[i] = b')';
    }
    text[401] = b']';
    text[402] = b')';
    let bound = answer(&rt, rt.alloc(), What::Parameters, &text, 1)?;
    assert!(rt; bound == Some(Ok(403)), "{bound:?}");
    text[201] = b'(';
    let parenthesis = answer(&rt, rt.alloc(), What::Parameters, &text, 1)?;
    assert!(rt;
        parenthesis == Some(Err((ParseReason::Deep, 201))),
        "{parenthesis:?}"
    );
    text[201] = b'A';
    let name = answer(&rt, rt.alloc(), What::Parameters, &text, 1)?;
    assert!(rt; name == Some(Err((ParseReason::Deep, 201))), "{name:?}");
    Ok(())
}
