//! Short texts that show one rule each, with all that comes of them.

use crate::walks::{Along, REGION, Row, Trapped, Whole, compare, trapped, whole};
use al_base::{Over, Trap};
use std::test::Fail;

const DONE: Row = Row {
    text: "void main(){}",
    along: Along::Turns(0x1000),
    entries: 1,
    output: "",
    over: Some(Over::Done),
    line: 0,
};

const BLOCKED: Row = Row {
    over: Some(Over::Blocked),
    ..DONE
};

const STACK: &str = "adt Stack[T]{T v[4];int n;void push(*Stack,T);T pop(*Stack);}; \
    void Stack[T].push(Stack *s,T x){s->v[s->n]=x;s->n=s->n+1;} \
    T Stack[T].pop(Stack *s){s->n=s->n-1;return s->v[s->n];} \
    void main(){Stack[int] a;Stack[byte*] b;a.push(7);b.push(\"hi\");print(\"%d %s\\n\",a.pop(),b.pop());}";

/// Texts that go on to their end, whatever the schedule: the number of entries, and the output.
const GO: [Whole; 20] = [
    ("void main(){}", 1, ""),
    ("void main(){print(\"%d\\n\", 7/2*-3);}", 2, "-9\n"),
    (
        "void main(){int a;a=2147483647;print(\"%d\\n\",a+1);}",
        2,
        "-2147483648\n",
    ),
    (
        "void s(chan(int) c){c<-=42;} \
            void main(){chan(int) c;alloc c;proc s(c);print(\"%d\\n\",<-c);}",
        7,
        "42\n",
    ),
    (
        "void main(){chan(int)[2] c;int a;alloc c;c<-=1;c<-=2;a=<-c;print(\"%d %d\\n\",a,<-c);}",
        7,
        "1 2\n",
    ),
    (
        "void main(){int a[2];par{a[0]=1;a[1]=2;}print(\"%d\\n\",a[0]+a[1]);}",
        11,
        "3\n",
    ),
    (
        "void t(){print(\"1\");print(\"2\");} void u(){print(\"3\");} void main(){task t();task u();}",
        8,
        "123",
    ),
    (
        "void main(){rescue{print(\"b\");return;} rescue{print(\"c\");raise;} raise;}",
        3,
        "cb",
    ),
    (
        "void main(){int a[5];a[0::5]=3;print(\"%d\",0::3);print(\"%d\",0::0);print(\" %d\\n\",a[0]+a[4]);}",
        14,
        "012 6\n",
    ),
    (STACK, 23, "7 hi\n"),
    ("void main(){int *p;unalloc p;}", 2, ""),
    (
        "#include <alef.h>\n\
            adt Req { extern int a, b; extern chan(int) reply; int sum(*Req); };\n\
            int Req.sum(Req *r) { return r->a + r->b; }\n\
            void server(chan(Req) in, chan(int) quit) {\n\
            Req r; int q;\n\
            for(;;) {\n\
            alt {\n\
            case r = <-in:\n\
            r.reply <-= r.sum();\n\
            break;\n\
            case q = <-quit:\n\
            return;\n\
            }\n\
            }\n\
            }\n\
            void client(chan(Req) out, chan(int) done, int k) {\n\
            Req r;\n\
            alloc r.reply;\n\
            r.a = k;\n\
            r.b = 10 * k;\n\
            out <-= r;\n\
            done <-= <-r.reply;\n\
            }\n\
            void main() {\n\
            chan(Req) req; chan(int) done, quit; int i, s;\n\
            alloc req, done, quit;\n\
            proc server(req, quit);\n\
            for(i = 1; i < 5; i++)\n\
            proc client(req, done, i);\n\
            s = 0;\n\
            for(i = 0; i < 4; i++)\n\
            s += <-done;\n\
            quit <-= 0;\n\
            print(\"sum %d\\n\", s);\n\
            }\n",
        107,
        "sum 110\n",
    ),
    (
        "void t(chan(int) c){c<-=5;print(\"t\");} \
            void main(){chan(int) c;alloc c;task t(c);print(\"%d\\n\",<-c);}",
        8,
        "t5\n",
    ),
    (
        "int f(){print(\"f\");return 1;} int g(){print(\"g\");return 2;} \
            void main(){chan(int)[1] c,d;alloc c,d;alt{case c<-=f():break;case d<-=g():break;}}",
        6,
        "fg",
    ),
    ("void main(){chan(int) c;unalloc c;}", 2, ""),
    (
        "aggr T{int n;int v[5000];}; T t; void main(){t.v[4999]=7;print(\"%d\\n\",t.v[4999]);}",
        4,
        "7\n",
    ),
    (
        "aggr B{byte b[600];}; \
            void main(){chan(B)[1] c;B x;alloc c;x.b[599]=5;c<-=x;x.b[599]=0;x=<-c;print(\"%d\\n\",x.b[599]);}",
        1210,
        "5\n",
    ),
    (
        "typedef int Fn(int); int dbl(int x){return 2*x;} int neg(int x){return -x;} \
            void main(){Fn *f;f=dbl;print(\"%d \",f(21));f=neg;print(\"%d\\n\",f(42));}",
        3,
        "42 -42\n",
    ),
    (
        "aggr P{int x;}; adt Q{extern int y; extern P; int sum(*Q);}; \
            int Q.sum(Q *q){return q->x+q->y;} void main(){Q q;q.x=3;q.y=4;print(\"%d\\n\",q.sum());}",
        8,
        "7\n",
    ),
    (
        "intern int x__1; void show(); void main(){x__1=1;show();print(\"%d\\n\",x__1);} \
            intern int x__2; void show(){x__2=2;print(\"%d \",x__2);}",
        7,
        "2 1\n",
    ),
];

/// Texts that block or stop themselves, whatever the schedule.
const HALT: [Row; 5] = [
    Row {
        text: "void main(){chan(int)[2] c;int a;alloc c;c<-=1;c<-=2;c<-=3;a=<-c;print(\"%d %d\\n\",a,<-c);}",
        entries: 4,
        ..BLOCKED
    },
    Row {
        text: "void main(){chan(int) c;alloc c;c<-=1;}",
        entries: 2,
        ..BLOCKED
    },
    Row {
        text: "void main(){terminate(3);}",
        over: Some(Over::Stopped(3)),
        ..DONE
    },
    Row {
        text: "void main(){terminate(-1);}",
        over: Some(Over::Stopped(-1)),
        ..DONE
    },
    Row {
        text: "void main(){terminate(128);}",
        over: Some(Over::Stopped(128)),
        ..DONE
    },
];

/// Texts that trap, whatever the schedule.
const TRAPS: [Trapped; 14] = [
    (
        "void main(){int x;x=0;print(\"a\");print(\"%d\",1/x);}",
        Trap::Divide,
        1,
        1,
        "a",
    ),
    (
        "void f(int n){if(n==0)return;f(n-1);} void main(){f(1000000);}",
        Trap::Stack,
        5,
        1,
        "",
    ),
    (
        "void main(){int *p;alloc p;unalloc p;\nunalloc p;}",
        Trap::Unalloc,
        2,
        2,
        "",
    ),
    (
        "void main(){int *p;alloc p;unalloc p;print(\"%d\",*p);}",
        Trap::Fault,
        2,
        1,
        "",
    ),
    (
        "void main(){int *p;byte *q;alloc p;q=(byte*)p;\nprint(\"%d\",\n*(int*)(q+1));}",
        Trap::Align,
        1,
        2,
        "",
    ),
    (
        "void s(chan(int) c){c<-=1;} void main(){chan(int) c;alloc c;task s(c);par{;}unalloc c;}",
        Trap::Busy,
        5,
        1,
        "",
    ),
    ("void main(){chan(int) c;c<-=1;}", Trap::Chan, 0, 1, ""),
    (
        "void main(){chan(int) c;alloc c;unalloc c;c<-=1;}",
        Trap::Chan,
        2,
        1,
        "",
    ),
    (
        "void f(){while(1);} void main(){int i;for(i=0;i<1024;i++)task f();}",
        Trap::Tasks,
        1023,
        1,
        "",
    ),
    ("void main(){check 0,\"no\";}", Trap::Check, 0, 1, ""),
    (
        "typedef void Fn(); void main(){Fn *f;f();}",
        Trap::Call,
        0,
        1,
        "",
    ),
    (
        "typedef int Fn(int); int g(){return 1;} \
            void main(){Fn *f;f=(Fn*)g;print(\"%d\\n\",f(1));}",
        Trap::Call,
        0,
        1,
        "",
    ),
    ("\n\nvoid\nmain()\n{\ncheck\n0;}", Trap::Check, 0, 6, ""),
    (
        "void main(){int x;\nx=0;\nprint(\"%d\",1/x);}",
        Trap::Divide,
        0,
        3,
        "",
    ),
];

const PICKS: Row = Row {
    text: "void main(){chan(int)[1] c,d;alloc c,d;c<-=1;d<-=2;\
        alt{case <-c:print(\"a\");break;case <-d:print(\"b\");break;}}",
    entries: 7,
    ..DONE
};

const RACE: Row = Row {
    text: "int x; void f(){x=x+1;} void main(){par{f();f();}print(\"%d\\n\",x);}",
    entries: 10,
    ..DONE
};

const SPINS: Row = Row {
    text: "void main(){while(1);}",
    along: Along::Entries(&[(0, 0), (0, 0), (0, 0)]),
    entries: 3,
    over: None,
    ..DONE
};

/// Texts along schedules.
const ALONG: [Row; 7] = [
    Row {
        along: Along::Entries(&[(0, 0), (0, 0), (0, 0), (0, 0), (0, 0), (0, 0), (0, 0)]),
        output: "a",
        ..PICKS
    },
    Row {
        along: Along::Entries(&[(0, 0), (0, 0), (0, 0), (0, 0), (0, 1), (0, 0), (0, 0)]),
        output: "b",
        ..PICKS
    },
    // the fifth has no such pick
    Row {
        along: Along::Entries(&[(0, 0), (0, 0), (0, 0), (0, 0), (0, 2), (0, 0), (0, 0)]),
        entries: 4,
        over: None,
        ..PICKS
    },
    Row {
        along: Along::Entries(&[
            (0, 0),
            (1, 0),
            (1, 0),
            (1, 0),
            (2, 0),
            (2, 0),
            (2, 0),
            (0, 0),
            (0, 0),
            (0, 0),
        ]),
        output: "2\n",
        ..RACE
    },
    Row {
        along: Along::Entries(&[
            (0, 0),
            (1, 0),
            (2, 0),
            (1, 0),
            (2, 0),
            (1, 0),
            (2, 0),
            (0, 0),
            (0, 0),
            (0, 0),
        ]),
        output: "1\n",
        ..RACE
    },
    // the new low word with the old high word
    Row {
        text: "lint v; void w(){v=0x100000002;} void main(){par{w();print(\"%x\\n\",v);}}",
        along: Along::Entries(&[
            (0, 0),
            (1, 0),
            (2, 0),
            (2, 0),
            (1, 0),
            (2, 0),
            (1, 0),
            (2, 0),
            (0, 0),
        ]),
        entries: 9,
        output: "2\n",
        ..DONE
    },
    SPINS,
];

/// A million calls, each in place of the one before, pause 244 times.
const CALLS: Row = Row {
    text: "void f(int n){if(n==0)return;become f(n-1);} void main(){f(1000000);}",
    entries: 245,
    ..DONE
};

/// A second block of this size has no place in a region of 1 MiB.
const LARGE: Row = Row {
    text: "aggr B{byte b[1000000];}; void main(){B *p;alloc p;alloc p;}",
    entries: 2,
    over: Some(Over::Trapped {
        trap: Trap::Memory,
        proc: 0,
        at: 1,
    }),
    line: 1,
    ..DONE
};

#[test]
fn texts_go_on_to_their_end(rt: HostRuntime) -> Result<(), Fail> {
    for (text, entries, output) in &GO {
        let row = whole(Along::Turns(0x1000), text, *entries, output);
        compare(&rt, rt.alloc(), REGION, &row)?;
    }
    for row in &HALT {
        compare(&rt, rt.alloc(), REGION, row)?;
    }
    for row in &ALONG {
        compare(&rt, rt.alloc(), REGION, row)?;
    }
    compare(&rt, rt.alloc(), 0x10_0000, &LARGE)
}

#[test]
fn texts_trap(rt: HostRuntime) -> Result<(), Fail> {
    for it in &TRAPS {
        compare(&rt, rt.alloc(), REGION, &trapped(it))?;
    }
    Ok(())
}

#[test]
fn a_million_calls(rt: HostRuntime) -> Result<(), Fail> {
    compare(&rt, rt.alloc(), REGION, &CALLS)
}
