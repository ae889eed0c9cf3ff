//! Whole texts, with how many items each has, or why it has none.
use al_lex::lex;
use al_parse_stmt::parse;
use al_tree::{ParseReason, ParseStop};
use std::alloc::Global;
use std::process::Abort;
use std::test::Fail;

/// The number of items, or the fault.
type Answer = Result<usize, (ParseReason, u32)>;

fn answer(rt: &impl Abort, alloc: Global, text: &[u8]) -> Result<Option<Answer>, Fail> {
    assert!(rt; text.len() <= 1 << 20);
    let toks = lex(alloc, text)?;
    Ok(match parse(alloc, &toks) {
        Ok(tree) => Some(Ok(tree.items.len())),
        Err(ParseStop::Fault(fault)) => Some(Err((fault.reason, fault.token))),
        Err(ParseStop::NoMemory) => None,
    })
}

static TEXTS: [(&[u8], Answer); 73] = [
    (b"", Ok(0)),
    (b"int a;", Ok(1)),
    (b"int a,*b[3],c=1;", Ok(1)),
    (b"intern int a;extern uint b;private byte*c;", Ok(3)),
    (b"int a[2]={1,2};int b={{1},{2,},};", Ok(2)),
    (b"typedef int T;T a;T*b;", Ok(3)),
    (b"typedef int*T[4];T a;", Ok(2)),
    (b"typedef int F(int,int*);F*f;", Ok(2)),
    (b"aggr T;union U;adt A;T*a;U*b;A*c;", Ok(6)),
    (b"aggr T{int a;T*b,*c;}", Ok(1)),
    (b"aggr T{int a;};union U{T;aggr{int b;};};", Ok(2)),
    (
        b"adt A{int a;extern int b;int f(*A,int);intern void g(.A);A*h();}",
        Ok(1),
    ),
    (b"adt A[T]{T a;A[T]*b;T f(*A,T);}A[int]a;", Ok(2)),
    (b"adt A[T]{T f(*A);}T A[T].f(A*a){T b;return b;}", Ok(2)),
    (b"adt A[T]{T f(*A);}chan(T)[2]*A[T].f(A*a);int T;", Ok(3)),
    (b"adt A[T]{int f(*A);}(T,A[T])**A[T].f(A*a,T t){}", Ok(2)),
    (b"adt A{int f(*A);}int A.f(A*a){return 1;}", Ok(2)),
    (b"enum{a,b=1,c,};enum E{d}E f;", Ok(3)),
    (b"enum{a};", Ok(1)),
    (b"int f();int f(){}", Ok(2)),
    (b"void f(void){}void g(void*,void*a){}", Ok(2)),
    (b"int f(int,int*a,int b[3],int[],int*[2][]);", Ok(1)),
    (
        b"aggr A{int a;}int f(A,A*b,A[3],A[],A[2][3],A c[4]);",
        Ok(2),
    ),
    (
        b"adt A[T]{T a;}int f(A[int],A[A[int]]b,A[(int,int)]*,A[tuple(int,int)][3]);",
        Ok(2),
    ),
    (b"aggr A{int a;}int f(A[(3)],A[((a+1)*2)]);", Ok(2)),
    (b"int f(chan(int)a,chan(int)[4]b,chan(int)*[3]);", Ok(1)),
    (b"(int,int)f(){return(1,2);}", Ok(1)),
    (b"tuple(int,int)a;", Ok(1)),
    (b"int f(),g(int),h;", Ok(1)),
    (
        b"int f(int x){aggr:goto aggr;}",
        Err((ParseReason::Unexpected, 7)),
    ),
    (b"int main(){int i;for(i=0;i<3;i++)print(i);}", Ok(1)),
    (b"private(int,int)f(){}", Ok(1)),
    (b"void f(){}int a", Err((ParseReason::EndOfText, 8))),
    (b"int", Err((ParseReason::EndOfText, 1))),
    (b"int;", Err((ParseReason::Unexpected, 1))),
    (b"a b;", Err((ParseReason::Unexpected, 0))),
    (b"intern;", Err((ParseReason::Unexpected, 1))),
    (b"intern typedef int T;", Err((ParseReason::Unexpected, 1))),
    (b"typedef int;", Err((ParseReason::Unexpected, 2))),
    (b"typedef int T", Err((ParseReason::EndOfText, 3))),
    (b"typedef int T=1;", Err((ParseReason::Unexpected, 3))),
    (b"aggr{int a;}", Err((ParseReason::Unexpected, 1))),
    (b"aggr T{}", Err((ParseReason::Unexpected, 3))),
    (b"aggr T[U]{int a;}", Err((ParseReason::Unexpected, 2))),
    (b"aggr T{int f();}", Err((ParseReason::Unexpected, 5))),
    (b"aggr T{int;}", Err((ParseReason::Unexpected, 4))),
    (b"adt A[T,A]{int a;}", Err((ParseReason::Unexpected, 5))),
    (b"adt A[T]{T a;}T b;", Err((ParseReason::Unexpected, 11))),
    (b"adt A[T]{T a;}T*b;", Err((ParseReason::Unexpected, 12))),
    (b"adt A[T]{T a;}T A;", Err((ParseReason::Unexpected, 12))),
    (
        b"adt A[T]{T a;}T A.f();",
        Err((ParseReason::Unexpected, 12)),
    ),
    (b"adt A[T]{T a;}T", Err((ParseReason::EndOfText, 11))),
    (b"adt A[T]{T a;}T A[T].f();", Ok(2)),
    (b"adt A[T,U]{T a;}(U,T)A[T,U].f();", Ok(2)),
    (b"adt A[T]{T a;}(T,U)b;", Err((ParseReason::Unexpected, 13))),
    (
        b"adt A[T]{T a;}adt B[U]{U a;}U A[U].f();",
        Err((ParseReason::Unexpected, 21)),
    ),
    (b"adt A[T]{T a;}adt B[U]{U a;}U B[U].f();", Ok(3)),
    (
        b"adt A[T]{T a;}chan(int)[T]A[T].f();",
        Err((ParseReason::Unexpected, 18)),
    ),
    (b"adt A[T]{T a;}chan(int)[T]b;", Ok(2)),
    (b"adt A[T]{T a;}int x", Err((ParseReason::EndOfText, 12))),
    (
        b"adt A[T]{T a;}int A[int].f();",
        Err((ParseReason::Unexpected, 13)),
    ),
    (b"enum{};", Err((ParseReason::Unexpected, 2))),
    (b"enum E{a}enum E{b}", Err((ParseReason::Unexpected, 6))),
    (b"int f(int){}{}", Err((ParseReason::Unexpected, 7))),
    (b"int a{}", Err((ParseReason::Unexpected, 2))),
    (b"int a={};", Err((ParseReason::Unexpected, 4))),
    (b"int f(void,int);", Ok(1)),
    (b"int f(int,);", Err((ParseReason::Unexpected, 5))),
    (b"int f(*a);", Err((ParseReason::Unexpected, 3))),
    (
        b"aggr A{int a;}int f(*b);",
        Err((ParseReason::Unexpected, 11)),
    ),
    (b"int f(){return 1}", Err((ParseReason::Unexpected, 7))),
    (b"void main(){x=;}", Err((ParseReason::Unexpected, 7))),
    (b"void main(){", Err((ParseReason::EndOfText, 5))),
];

#[test]
fn texts_have_so_many_items(rt: HostRuntime) -> Result<(), Fail> {
    for (text, expected) in TEXTS {
        let found = answer(&rt, rt.alloc(), text)?;
        assert!(rt; found == Some(expected), "{text:?}: {found:?}");
    }
    Ok(())
}

#[test]
fn two_hundred_levels_are_read_and_no_more(rt: HostRuntime) -> Result<(), Fail> {
    let alloc = rt.alloc();
    let deep = Err((ParseReason::Deep, 205));
    for (signs, expected) in [(195, Ok(1)), (196, deep), (250, deep)] {
        let mut text = Vec::from_slice(alloc, b"void main(){int a;a=")?;
        for _sign in 0..signs {
            text.push(b'!')?;
        }
        text.extend_from_slice(b"a;}")?;
        let found = answer(&rt, alloc, text.as_slice())?;
        assert!(rt; found == Some(expected), "{signs} signs: {found:?}");
    }
    Ok(())
}

/// Adts with 20 tokens. In a type behind them `B[T]` is an array, or has the argument T where that is a parameter.
const ADTS: &[u8] = b"adt B[U]{U u;}adt X[T]{T t;}";

/// A text whose third item begins with the type B in so many brackets.
fn nested(alloc: Global, brackets: usize, inside: &[u8], end: &[u8]) -> Result<Vec<u8>, Fail> {
    let mut text = Vec::from_slice(alloc, ADTS)?;
    for _bracket in 0..brackets {
        text.extend_from_slice(b"B[")?;
    }
    text.extend_from_slice(inside)?;
    for _bracket in 0..brackets {
        text.push(b']')?;
    }
    text.extend_from_slice(end)?;
    Ok(text)
}

#[test]
fn a_result_goes_too_deep_where_each_way_to_read_it_does(rt: HostRuntime) -> Result<(), Fail> {
    let alloc = rt.alloc();
    let cases: [(usize, &[u8], &[u8], Answer); 6] = [
        (198, b"B[T]", b"X[T].f(){}", Ok(3)),
        (199, b"B[T]", b"X.f(){}", Ok(3)),
        (199, b"B[T]", b"X[T].f(){}", Err((ParseReason::Deep, 622))),
        (
            199,
            b"B[T[1]]",
            b"X[T].f(){}",
            Err((ParseReason::Deep, 421)),
        ),
        (199, b"B[T;", b"", Err((ParseReason::Unexpected, 421))),
        (200, b"B[T]", b"X.f(){}", Err((ParseReason::Deep, 420))),
    ];
    for (brackets, inside, end, expected) in cases {
        let text = nested(alloc, brackets, inside, end)?;
        let found = answer(&rt, alloc, text.as_slice())?;
        assert!(rt;
            found == Some(expected),
            "{brackets} {inside:?} {end:?}: {found:?}"
        );
    }
    Ok(())
}

/// An aggr and a function, in 128 bytes.
const PIECE: &[u8] =
    b"aggr T { int n; T *next; };\nint f(T*t,int i){int a[4];T*u;u=t;for(i=0;i<4;i++)a[i]=i*2+1;if(u->n==3)return a[2];return f(u,2);}\n";

#[test]
fn a_large_text_is_read(rt: HostRuntime) -> Result<(), Fail> {
    let alloc = rt.alloc();
    let mut text = Vec::new(alloc);
    for _piece in 0..8_192 {
        text.extend_from_slice(PIECE)?;
    }
    let found = answer(&rt, alloc, text.as_slice())?;
    assert!(rt; found == Some(Ok(16_384)), "{found:?}");
    Ok(())
}
